//! Worked frames.
use crate::shown::{same, same_bytes};
use arrayvec::ArrayVec;
use std::process::Abort;
use swp_base::{FrameFault, Lpdu};
use swp_frame::{Deframer, Fed, FrameBits, write_frame};

/// Feeds bits, each a `0` or a `1`, to a new deframer, and gives what came at the last of them.
fn last_of(bits: &[u8]) -> Fed {
    let mut deframer = Deframer::new();
    let mut last = Fed::Nothing;
    for bit in bits {
        last = deframer.feed(*bit == b'1');
    }
    last
}

/// The last of these bits gives this to a new deframer.
fn gives(rt: &impl Abort, bits: &[u8], fed: Fed) {
    same(rt, &last_of(bits), &fed);
}

/// The bits of a frame, each a `0` or a `1`.
fn digits_of(frame: &FrameBits) -> ArrayVec<u8, 336> {
    let mut digits = ArrayVec::new();
    for bit in frame.bits.as_slice() {
        let _ = digits.try_push(if *bit { b'1' } else { b'0' });
    }
    digits
}

/// The frame of this LPDU is spelled by these bits.
fn is_spelled(rt: &impl Abort, lpdu: &Lpdu, bits: &[u8]) {
    same_bytes(rt, digits_of(&write_frame(lpdu)).as_slice(), bits);
}

#[test]
fn frames_are_spelled(rt: HostRuntime) {
    let e6 = b"01111110111001101000001111100011101111111";
    let dd = b"01111110110111010000010011011111001111111";
    is_spelled(&rt, &Lpdu::new(&[0xE6]), e6);
    is_spelled(&rt, &Lpdu::new(&[0xDD]), dd);
}

#[test]
fn frames_are_read(rt: HostRuntime) {
    let e6 = Lpdu::new(&[0xE6]);
    gives(
        &rt,
        b"01111110111001101000001111100011101111111",
        Fed::Frame(e6),
    );
    let dd = Lpdu::new(&[0xDD]);
    gives(
        &rt,
        b"01111110110111010000010011011111001111111",
        Fed::Frame(dd),
    );
}

#[test]
fn word_tells_its_marks_and_stuffed_zeros(rt: HostRuntime) {
    let mut deframer = Deframer::new();
    // A start of frame, five 1 bits, and at the end four.
    let first = deframer.word(0x7EF8_0000_0000_000F);
    deframer.feed_part(first.part(0, 7));
    let before_start = deframer.is_before_start();
    let start = deframer.feed(false);
    deframer.feed_part(first.part(8, 64));
    // Two more 1 bits, and three: the third of them ends the frame.
    let second = deframer.word(0xE000_0000_0000_0000);
    deframer.feed_part(second.part(0, 2));
    let end = deframer.feed(true);
    same(
        &rt,
        &[first.marks, first.put_in, second.marks],
        &[1 << 56, 1 << 50, 1 << 61],
    );
    same(&rt, &before_start, &true);
    let alignment = Fed::Refused(FrameFault::Alignment { bits: 50 });
    same(&rt, &[start, end], &[Fed::Nothing, alignment]);
}

#[test]
fn last_stuffed_zero_may_be_absent(rt: HostRuntime) {
    let dd = Lpdu::new(&[0xDD]);
    gives(
        &rt,
        b"0111111011011101000001001101111101111111",
        Fed::Frame(dd),
    );
}

/// These bits are refused so by a new deframer.
fn are_refused(rt: &impl Abort, bits: &[u8], fault: FrameFault) {
    gives(rt, bits, Fed::Refused(fault));
}

#[test]
fn faulty_frames_are_refused(rt: HostRuntime) {
    let (want, got) = (0x1E0F, 0);
    // In the first of them the end shares a 0 with the start.
    are_refused(&rt, b"011111101111111", FrameFault::Length { bits: 0 });
    are_refused(
        &rt,
        b"0111111000000000000000000000000001111111",
        FrameFault::Crc { want, got },
    );
    are_refused(
        &rt,
        b"01111110000000000000000000000000001111111",
        FrameFault::Alignment { bits: 25 },
    );
    are_refused(&rt, b"011111100001111110", FrameFault::Broken);
    gives(&rt, b"01111111", Fed::Nothing);
}

/// Each of these bits gives nothing.
fn feed_nothing(rt: &impl Abort, deframer: &mut Deframer, bits: &[u8]) {
    for bit in bits {
        same(rt, &deframer.feed(*bit == b'1'), &Fed::Nothing);
    }
}

/// A break gives this.
fn break_gives(rt: &impl Abort, deframer: &mut Deframer, fed: Fed) {
    same(rt, &deframer.break_off(), &fed);
}

#[test]
fn break_refuses_an_open_frame_alone(rt: HostRuntime) {
    let mut deframer = Deframer::new();
    break_gives(&rt, &mut deframer, Fed::Nothing);
    feed_nothing(&rt, &mut deframer, b"1111110");
    break_gives(&rt, &mut deframer, Fed::Refused(FrameFault::Broken));
    break_gives(&rt, &mut deframer, Fed::Nothing);
}
