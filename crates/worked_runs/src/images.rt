//! Memories with known images.
ghost use Rattle.std.specs.Prelude.{◌≡◌, length};

use crate::memories::memory;
use crate::shown::same;
use nv_journal::{Journal, JournalFault};
use std::process::Abort;
use swp_base::MemNv;

/// What the journal of a memory says: how many records were written, its version, and the bytes that are left.
fn found(nv: MemNv) -> Result<(u32, u8, u32), JournalFault>
    requires { length nv.content ≡ 65536 }
{
    match Journal::peek(nv) {
        Ok(journal) => Ok((journal.count(), journal.version(), journal.left())),
        Err(refused) => Err(refused.fault),
    }
}

/// This is what the journal of a memory says.
fn finds(rt: &impl Abort, nv: MemNv, wanted: Result<(u32, u8, u32), JournalFault>)
    requires { length nv.content ≡ 65536 }
{
    same(rt, &found(nv), &wanted);
}

#[test]
fn a_start_finds_what_the_image_says(rt: HostRuntime) {
    let alloc = rt.alloc();
    // version 01: a sync identifier and an opened pipe, the gate at 24 closed
    let old: [u8; 25] = [
        0x5A, 1, 0, 0, 0, 1, 0, 0, 0, 0, 0, 0, 0x5A, 4, 6, 2, 0x1A, 0x2B, 0x5A, 4, 4, 2, 1, 1, 0xFF,
    ];
    let mut unknown = old;
    unknown[1] = 7;
    let mut long = [0xFF; 26];
    long[..25].copy_from_slice(&old);
    long[24] = 0x5A;
    long[25] = 0x3E;
    // version 02: the same records, the second one with its position or another
    let new: [u8; 29] = [
        0x5A, 2, 0, 0, 0, 1, 0, 0, 0, 0, 0, 0, 0x5A, 4, 0, 0, 6, 2, 0x1A, 0x2B, 0x5A, 4, 0, 1, 4,
        2, 1, 1, 0xFF,
    ];
    let mut moved = new;
    moved[23] = 2;
    let version = JournalFault::UnknownFormat { version: 7 };
    let length = JournalFault::BadRecord { at: 24 };
    let position = JournalFault::BadRecord { at: 20 };
    finds(&rt, memory(&rt, alloc, &[]), Ok((0, 2, 32_756)));
    finds(&rt, memory(&rt, alloc, &old), Ok((2, 1, 32_744)));
    finds(&rt, memory(&rt, alloc, &unknown), Err(version));
    finds(&rt, memory(&rt, alloc, &long), Err(length));
    finds(&rt, memory(&rt, alloc, &new), Ok((2, 2, 32_740)));
    finds(&rt, memory(&rt, alloc, &moved), Err(position));
}
