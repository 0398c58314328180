//! Which pages a memory over flash takes, and what is left where the power goes in a write.
ghost use Rattle.std.specs.Prelude.{◌≡◌, ◌≤◌, ◌+◌, length, true, IsTrue};
ghost use Rattle.flash_nv.specs.Pages.{IsClean};

use crate::shown::{same, same_bytes};
use arrayvec::ArrayVec;
use flash_nv::{Flash, FlashNv, MemFlash};
use std::alloc::Global;
use std::process::Abort;
use swp_base::{Failed, Nv};

/// A memory over a new flash.
fn new_memory(rt: &impl Abort, alloc: Global) -> FlashNv<MemFlash> {
    let flash = MemFlash::new(alloc).expect(rt, "there is memory");
    FlashNv::new(flash)
}

/// A memory over a new flash of which the change of this number is torn by this mask.
fn torn_memory(rt: &impl Abort, alloc: Global, nth: u32, mask: u8) -> FlashNv<MemFlash>
    requires { 1 ≤ nth }
{
    let mut flash = MemFlash::new(alloc).expect(rt, "there is memory");
    let mut masks = ArrayVec::new();
    masks.push(mask);
    flash.arm(nth, masks);
    FlashNv::new(flash)
}

/// The byte at place 300.
fn byte_300(rt: &impl Abort, nv: &mut FlashNv<MemFlash>) -> u8 {
    let mut byte = [0];
    same(rt, &nv.read(300, &mut byte), &Ok(()));
    byte[0]
}

/// Writing AA to place 300 answers so, and the byte there is this then.
fn writes_aa(rt: &impl Abort, nv: &mut FlashNv<MemFlash>, answer: Result<(), Failed>, byte: u8) {
    same(rt, &nv.write(300, &[0xAA]), &answer);
    same(rt, &byte_300(rt, nv), &byte);
}

/// The first 18 bytes of this page.
fn header_is(rt: &impl Abort, flash: &mut MemFlash, page: u16, wanted: &[u8])
    ensures { flash.new ≡ flash.old }
{
    let mut header = [0; 18];
    same(
        rt,
        &flash.read(512 * page.min(271) as u32, &mut header),
        &Ok(()),
    );
    same_bytes(rt, &header, wanted);
}

/// The data of page 0 are FF but for place 62, which is AA.
fn data_is(rt: &impl Abort, flash: &mut MemFlash) {
    let mut data = [0; 256];
    let mut wanted = [0xFF; 256];
    wanted[44] = 0xAA;
    same(rt, &flash.read(18, &mut data), &Ok(()));
    same_bytes(rt, &data, &wanted);
}

#[test]
fn the_first_write_takes_page_0(rt: HostRuntime) {
    let mut nv = new_memory(&rt, rt.alloc());
    writes_aa(&rt, &mut nv, Ok(()), 0xAA);
    let mut flash = nv.into_flash();
    header_is(
        &rt,
        &mut flash,
        0,
        &[
            1, 0, 0, 0, 0, 0, 0, 0, 1, 0xFE, 0xFF, 0xFF, 0xFF, 0xFF, 0xFF, 0xFF, 0xFF, 0xFE,
        ],
    );
    data_is(&rt, &mut flash);
}

/// A first write whose header is torn by this mask fails, leaves this byte, and a further write goes through.
fn is_written_the_next_time(rt: &impl Abort, alloc: Global, mask: u8, byte: u8) {
    let mut nv = torn_memory(rt, alloc, 3, mask);
    writes_aa(rt, &mut nv, Err(Failed), byte);
    writes_aa(rt, &mut nv, Ok(()), 0xAA);
}

#[test]
fn a_torn_header_leaves_what_was_there_or_what_was_to_be(rt: HostRuntime) {
    is_written_the_next_time(&rt, rt.alloc(), 0x00, 0xFF);
    is_written_the_next_time(&rt, rt.alloc(), 0x0F, 0xFF);
    is_written_the_next_time(&rt, rt.alloc(), 0xFF, 0xAA);
}

#[test]
fn a_torn_header_is_not_valid(rt: HostRuntime) {
    let mut nv = torn_memory(&rt, rt.alloc(), 3, 0x0F);
    writes_aa(&rt, &mut nv, Err(Failed), 0xFF);
    header_is(
        &rt,
        &mut nv.into_flash(),
        0,
        &[
            0xF1, 0xF0, 0xF0, 0xF0, 0xF0, 0xF0, 0xF0, 0xF0, 0xF1, 0xFE, 0xFF, 0xFF, 0xFF, 0xFF,
            0xFF, 0xFF, 0xFF, 0xFE,
        ],
    );
}

#[test]
fn pages_are_taken_in_turn_and_from_the_first_after_a_scan(rt: HostRuntime) {
    let mut nv = new_memory(&rt, rt.alloc());
    writes_aa(&rt, &mut nv, Ok(()), 0xAA);
    writes_aa(&rt, &mut nv, Ok(()), 0xAA);
    writes_aa(&rt, &mut nv, Ok(()), 0xAA);
    let mut flash = nv.into_flash();
    header_is(
        &rt,
        &mut flash,
        2,
        &[
            1, 0, 0, 0, 0, 0, 0, 0, 3, 0xFE, 0xFF, 0xFF, 0xFF, 0xFF, 0xFF, 0xFF, 0xFF, 0xFC,
        ],
    );
    let mut again = FlashNv::new(flash);
    writes_aa(&rt, &mut again, Ok(()), 0xAA);
    header_is(
        &rt,
        &mut again.into_flash(),
        0,
        &[
            1, 0, 0, 0, 0, 0, 0, 0, 4, 0xFE, 0xFF, 0xFF, 0xFF, 0xFF, 0xFF, 0xFF, 0xFF, 0xFB,
        ],
    );
}
