//! Records that are decoded byte by byte and many bytes at once. What the program prints for a record is shown by the table of cases,
//! `examples/cases.txt`.
ghost use Rattle.std.specs.Prelude.{◌<◌};

use crate::shown::{same, same_bytes};
use std::process::Abort;
use swp_decode::{Decoder, Text};

/// The frame of `C1` on S1.
const RECORD: [u8; 40] = [
    0x40, 0x54, 0x54, 0x54, 0x54, 0x54, 0x54, 0x40, 0x54, 0x54, 0x40, 0x40, 0x40, 0x40, 0x40, 0x54,
    0x54, 0x54, 0x40, 0x54, 0x40, 0x54, 0x54, 0x54, 0x40, 0x54, 0x54, 0x40, 0x40, 0x40, 0x54, 0x40,
    0x40, 0x54, 0x54, 0x54, 0x54, 0x54, 0x54, 0x54,
];

/// One byte more of a record that gives few lines.
fn step(rt: &impl Abort, decoder: &mut Decoder, text: &mut Text, byte: u8) {
    assert!(rt; decoder.count < Decoder::MAX_BYTES && text.len() < 256);
    decoder.step(byte, text);
}

/// The lines of a record that gives few.
fn decoded(rt: &impl Abort, record: &[u8]) -> Text {
    let mut decoder = Decoder::new();
    let mut text = Text::new();
    for byte in record {
        step(rt, &mut decoder, &mut text, *byte);
    }
    text
}

/// The same, many bytes at once while there are so many.
fn decoded_by_many(rt: &impl Abort, record: &[u8]) -> Text {
    let mut decoder = Decoder::new();
    let mut text = Text::new();
    let mut left = record;
    'many: while let Some((many, _)) = left.split_first_chunk::<64>() {
        assert!(rt; decoder.count <= Decoder::MAX_BYTES - 64 && text.len() < 256);
        let read = decoder.step_many(many, &mut text);
        left = &left[read..];
    }
    for byte in left {
        step(rt, &mut decoder, &mut text, *byte);
    }
    text
}

/// Whether the bit at a place is a 1 where the bits of `RECORD` begin at another.
fn is_one(place: usize, start: usize) -> bool {
    place >= start && place - start < 40 && RECORD[place - start] == 0x54
}

/// A record in which the bits of `RECORD` begin at one place on S1, and at another on S2.
fn placed(s1: usize, s2: usize) -> [u8; 192] {
    let mut record = [0; 192];
    for (place, byte) in record.iter_mut().enumerate() {
        *byte = match (is_one(place, s1), is_one(place, s2)) {
            (false, false) => 0x40,
            (true, false) => 0x54,
            (false, true) => 0xC0,
            (true, true) => 0xFC,
        };
    }
    record
}

/// Many bytes at once, the record gives the lines that it gives byte by byte. How long these are is told.
fn gives_the_same(rt: &impl Abort, record: &[u8]) -> usize {
    let text = decoded_by_many(rt, record);
    same_bytes(rt, text.as_slice(), decoded(rt, record).as_slice());
    text.len()
}

/// The record whose bits begin at these places gives the same, and more than one line.
fn both_are_decoded(rt: &impl Abort, s1: usize, s2: usize) {
    let len = gives_the_same(rt, &placed(s1, s2));
    same(rt, &(s1, s2, len > 20), &(s1, s2, true));
}

/// The bits begin at this place on one wire, and there or later on the other.
fn marks_are_decoded(rt: &impl Abort, place: u8) {
    let place = usize::from(place);
    both_are_decoded(rt, place, place);
    both_are_decoded(rt, place, place + 5);
    both_are_decoded(rt, place + 5, place);
    both_are_decoded(rt, place, place + 64);
    both_are_decoded(rt, place + 64, place);
}

#[test]
fn marks_at_each_place_of_a_word_are_decoded(rt: HostRuntime) {
    for place in 0..64u8 {
        marks_are_decoded(&rt, place);
    }
}

/// A record with this byte at a place gives the same.
fn odd_byte_gives_the_same(rt: &impl Abort, place: usize, byte: u8)
    requires { place < 192 }
{
    let mut record = placed(64, 69);
    record[place] = byte;
    let _len = gives_the_same(rt, &record);
}

#[test]
fn many_bytes_are_decoded_as_each_is(rt: HostRuntime) {
    let text = decoded_by_many(&rt, &placed(64, 64));
    same_bytes(&rt, text.as_slice(), b"s1 64 C1 rr 1\ns2 64 C1 rr 1\n");
    odd_byte_gives_the_same(&rt, 75, 0x7F);
    odd_byte_gives_the_same(&rt, 83, 0x55);
    odd_byte_gives_the_same(&rt, 191, 0x00);
}
