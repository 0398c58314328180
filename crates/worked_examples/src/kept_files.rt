//! A file as a memory.
use std::fs::{self, OpenOptions};
use std::test::Fail;
use swp_base::Failed;
use swp_os::{Access, FileNv};

#[test]
fn bytes_are_read_again_from_the_file(rt: HostRuntime) -> Result<(), Fail> {
    let (name, made_as) = ("kept.nv", "made.nv");
    let mut memory = FileNv::new(&rt, name, made_as, 65_536, Access::Writes);
    let mut four = [0; 4];
    assert_eq!(rt; memory.read_at(65_532, &mut four), Ok(()));
    assert_eq!(rt; four, [0xFF; 4]);
    assert_eq!(rt; memory.write_at(65_533, &[1, 2, 3]), Ok(()));
    let mut second = FileNv::new(&rt, name, made_as, 65_536, Access::Writes);
    assert_eq!(rt; second.read_at(65_532, &mut four), Err(Failed));
    let mut again = FileNv::new(&rt, name, made_as, 65_536, Access::Reads);
    assert_eq!(rt; again.read_at(65_532, &mut four), Ok(()));
    assert_eq!(rt; four, [0xFF, 1, 2, 3]);
    assert_eq!(rt; again.write_at(65_532, &[4]), Err(Failed));
    drop(memory);
    let mut how = OpenOptions::new();
    how.write(true).open(&rt, name)?.set_len(65_534)?;
    let mut shorter = FileNv::new(&rt, name, made_as, 65_536, Access::Writes);
    assert_eq!(rt; shorter.read_at(0, &mut four), Err(Failed));
    fs::remove_file(&rt, name)?;
    Ok(())
}

#[test]
fn a_lone_byte_is_made_ff_again(rt: HostRuntime) -> Result<(), Fail> {
    let (name, made_as) = ("again.nv", "made_again.nv");
    let mut memory = FileNv::new(&rt, name, made_as, 65_536, Access::Writes);
    let mut one = [0];
    assert_eq!(rt; memory.write_at(9, &[0x5A]), Ok(()));
    assert_eq!(rt; memory.write_at(9, &[0xFF]), Ok(()));
    assert_eq!(rt; memory.read_at(9, &mut one), Ok(()));
    assert_eq!(rt; one, [0xFF]);
    fs::remove_file(&rt, name)?;
    Ok(())
}
