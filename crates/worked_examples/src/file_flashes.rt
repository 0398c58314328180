//! A file that stands for a flash.
use flash_nv::{Flash, FlashNv};
use std::fs::{self, File, Files};
use std::process::Abort;
use std::test::Fail;
use swp_base::{Failed, Nv};
use swp_os::{Access, FileFlash};

/// What a file is named while it is made.
const MADE_AS: &str = "made.flash";

/// The four bytes from place 510 on.
fn cells_at_510<R: Files<File = File> + Abort>(flash: &mut FileFlash<R>) -> [u8; 4] {
    let mut cells = [0; 4];
    let _ = flash.read(510, &mut cells);
    cells
}

#[test]
fn a_file_is_programmed_and_erased_as_flash(rt: HostRuntime) -> Result<(), Fail> {
    let path = "kept.flash";
    let mut flash = FileFlash::new(&rt, path, MADE_AS, Access::Writes);
    assert_eq!(rt; cells_at_510(&mut flash), [0xFF; 4]);
    assert_eq!(rt; flash.program(510, &[0x3C, 0x5A]), Ok(()));
    assert_eq!(rt; flash.program(511, &[0xF0]), Ok(()));
    assert_eq!(rt; flash.program(512, &[1, 2]), Ok(()));
    drop(flash);
    let mut again = FileFlash::new(&rt, path, MADE_AS, Access::Writes);
    assert_eq!(rt; cells_at_510(&mut again), [0x3C, 0x50, 1, 2]);
    assert_eq!(rt; again.erase(0), Ok(()));
    assert_eq!(rt; cells_at_510(&mut again), [0xFF, 0xFF, 1, 2]);
    fs::remove_file(&rt, path)?;
    Ok(())
}

/// The header of sector 1 in the version 18,446,744,073,709,551,615.
const LAST: [u8; 18] = [
    1, 0xFF, 0xFF, 0xFF, 0xFF, 0xFF, 0xFF, 0xFF, 0xFF, 0xFE, 0, 0, 0, 0, 0, 0, 0, 0,
];

#[test]
fn a_sector_of_the_last_version_is_not_written_again(rt: HostRuntime) -> Result<(), Fail> {
    let path = "last.flash";
    let mut flash = FileFlash::new(&rt, path, MADE_AS, Access::Writes);
    assert_eq!(rt; flash.program(0, &LAST), Ok(()));
    assert_eq!(rt; flash.program(18, &[0xAB]), Ok(()));
    let mut memory = FlashNv::new(flash);
    assert_eq!(rt; memory.write(256, &[7]), Err(Failed));
    assert_eq!(rt; memory.write(512, &[7]), Ok(()));
    let mut bytes = [0; 2];
    assert_eq!(rt; memory.read(256, &mut bytes), Ok(()));
    assert_eq!(rt; bytes, [0xAB, 0xFF]);
    fs::remove_file(&rt, path)?;
    Ok(())
}
