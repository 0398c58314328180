//! Decodes a record, byte by byte or sixty-four bytes at once: as lines of text, or as the frames alone.
ghost use Rattle.std.specs.Prelude.{ℕ, List, [], ◌∷◌, ◌++◌, ◌≡◌, ◌+◌, ◌*◌, ◌<◌, ◌≤◌, length, reverse, take};
ghost use Rattle.swp_frame.specs.Words.{low_bits};

use crate::frames::Frames;
use crate::line::Wire;
use crate::many::{ManyBits, many_bits};
use crate::signal::SignalReader;
use crate::words::{Text, push_decimal, push_text};
use swp_line::{Period, period_of};

/// Decodes a line record, byte by byte or sixty-four bytes at once. It takes no memory, however long the record is.
#[derive(Drop)]
pub struct Decoder {
    /// The bytes read.
    pub count: u32,
    s1: SignalReader,
    s2: SignalReader,
}

impl Decoder {
    ghost use Rattle.swp_frame.specs.Signal.{break};
    ghost use Rattle.swp_decode.specs.Readings.{ReadSymbol, with_reading, AreBits};
    ghost use Rattle.swp_decode.specs.Decoded.{line_at, line_with, lines_with, last_line};
    ghost use Rattle.swp_decode.specs.Frames.{frame_given, frame_with, frames_with};
    ghost use Rattle.swp_decode.specs.Kept.{ReadsSignal, DecoderStandsFor};

    /// The most bytes of a record.
    pub const MAX_BYTES: u32 = 16_777_216;

    /// How much room in a text a step asks for.
    pub const ROOM: usize = 256;

    /// How much room in a text a step of many bytes asks for.
    pub const ROOM_OF_MANY: usize = 2048;

    /// At how many places of a step of many bytes lines can come: as many as the room is for.
    const MOST_PLACES: u32 = 8;

    /// A decoder that has read nothing.
    pub fn new() -> Self
        ensures { DecoderStandsFor result [] }
    {
        Self {
            count: 0,
            s1: SignalReader::new(),
            s2: SignalReader::new(),
        }
    }

    /// Reads a byte of the record, and appends the lines that it gives, that of S1 first: the bits of a period in both
    /// directions; a break in both where the line is deactivated or the byte is no period; nothing where the line is
    /// suspended or a resume is asked.
    #[inline(always)]
    pub fn step(&mut self, byte: u8, text: &mut Text)
        requires few { self.old.count < Self.MAX_BYTES }
        requires room { length text.old.items + Self.ROOM ≤ 8192 }
        ensures count { self.new.count ≡ self.old.count + 1 }
        ensures stands { (bytes : List ℕ) → DecoderStandsFor self.old bytes → DecoderStandsFor self.new (byte ∷ bytes) }
        ensures lines { (bytes : List ℕ) → DecoderStandsFor self.old bytes
            → text.new.items ≡ text.old.items ++ line_at Wire.S1 (byte ∷ bytes) ++ line_at Wire.S2 (byte ∷ bytes) }
        ensures sized { length text.new.items ≤ length text.old.items + Self.ROOM }
    {
        let place = self.count;
        self.count += 1;
        match period_of(byte) {
            Some(Period::Bits { s1, s2 }) => {
                self.s1.decode_bit(text, Wire::S1, s1, place);
                self.s2.decode_bit(text, Wire::S2, s2, place);
            }
            Some(Period::Suspended | Period::ResumeAsked) => {}
            Some(Period::Deactivated) => self.read_breaks(text),
            None => self.read_breaks(text),
        }
    }

    /// Reads the first of these bytes of the record, at least one, and appends the lines that they give, as so many steps would.
    /// It answers how many it read: all where they are periods with bits and lines come at no more than eight places. Bytes that are no
    /// periods with bits are read one by one, with at most fifteen before and some behind them.
    #[inline(always)]
    pub fn step_many(&mut self, bytes: &[u8; 64], text: &mut Text) -> usize
        requires few { self.old.count + 64 ≤ Self.MAX_BYTES }
        requires room { length text.old.items + Self.ROOM_OF_MANY ≤ 8192 }
        ensures some { 0 < result }
        ensures within { result ≤ 64 }
        ensures count { self.new.count ≡ self.old.count + result }
        ensures stands { (older : List ℕ) → DecoderStandsFor self.old older → DecoderStandsFor self.new (reverse (take result bytes.now) ++ older) }
        ensures lines { (older : List ℕ) → DecoderStandsFor self.old older → text.new.items ≡ text.old.items ++ lines_with older (take result bytes.now) }
        ensures sized { length text.new.items ≤ length text.old.items + Self.ROOM_OF_MANY }
    {
        let bits = many_bits(bytes);
        if bits.known == 0 {
            self.step_each(&bytes[..8], text);
            return 8;
        }
        self.step_bits(bits, bytes, text)
    }

    /// Reads periods with bits. Each wire is read at once up to the next place at which a mark ends on it; the marks of both are
    /// taken in the order of their places.
    #[inline(never)]
    fn step_bits(&mut self, bits: ManyBits, bytes: &[u8; 64], text: &mut Text) -> usize
        requires known { 0 < bits.known }
        requires most { bits.known ≤ 64 }
        requires s1 { AreBits Wire.S1 (take bits.known bytes.now) (take bits.known (low_bits 64 bits.s1)) }
        requires s2 { AreBits Wire.S2 (take bits.known bytes.now) (take bits.known (low_bits 64 bits.s2)) }
        requires few { self.old.count + 64 ≤ Self.MAX_BYTES }
        requires room { length text.old.items + Self.ROOM_OF_MANY ≤ 8192 }
        ensures some { 0 < result }
        ensures within { result ≤ 64 }
        ensures count { self.new.count ≡ self.old.count + result }
        ensures stands { (older : List ℕ) → DecoderStandsFor self.old older → DecoderStandsFor self.new (reverse (take result bytes.now) ++ older) }
        ensures lines { (older : List ℕ) → DecoderStandsFor self.old older → text.new.items ≡ text.old.items ++ lines_with older (take result bytes.now) }
        ensures sized { length text.new.items ≤ length text.old.items + Self.ROOM_OF_MANY }
    {
        let place = self.count;
        let s1 = self.s1.word(bits.s1);
        let s2 = self.s2.word(bits.s2);
        let mut marks = s1.marks | s2.marks;
        let mut read_s1 = 0;
        let mut read_s2 = 0;
        let mut passed = 0;
        'marks: while marks.leading_zeros() < bits.known && passed < Self::MOST_PLACES {
            let last = marks.leading_zeros();
            read_s1 = self
                .s1
                .decode_mark_at(text, Wire::S1, &s1, read_s1, last, place);
            read_s2 = self
                .s2
                .decode_mark_at(text, Wire::S2, &s2, read_s2, last, place);
            marks %= 1 << (63 - last);
            passed += 1;
        }
        let to = marks.leading_zeros().min(bits.known);
        self.s1.read_between(&s1, read_s1, to, place);
        self.s2.read_between(&s2, read_s2, to, place);
        self.count = place + to;
        to as usize
    }

    /// Reads a few bytes of the record one after another.
    #[inline(never)]
    fn step_each(&mut self, bytes: &[u8], text: &mut Text)
        requires short { length bytes.now ≤ 8 }
        requires few { self.old.count + length bytes.now ≤ Self.MAX_BYTES }
        requires room { length text.old.items + Self.ROOM_OF_MANY ≤ 8192 }
        ensures count { self.new.count ≡ self.old.count + length bytes.now }
        ensures stands { (older : List ℕ) → DecoderStandsFor self.old older → DecoderStandsFor self.new (reverse bytes.now ++ older) }
        ensures lines { (older : List ℕ) → DecoderStandsFor self.old older → text.new.items ≡ text.old.items ++ lines_with older bytes.now }
        ensures sized { length text.new.items ≤ length text.old.items + Self.ROOM_OF_MANY }
    {
        for byte in bytes {
            self.step(*byte, text);
        }
    }

    /// Appends the last line of what is written for a record: how many bytes were read.
    pub fn finish(&self, text: &mut Text)
        requires room { length text.old.items + Self.ROOM ≤ 8192 }
        ensures line { text.new.items ≡ text.old.items ++ last_line self.now.count }
    {
        push_text(text, b"done ");
        push_decimal(text, self.count);
        push_text(text, b"\n");
    }

    /// Reads a break in both directions.
    fn read_breaks(&mut self, text: &mut Text)
        requires { length text.old.items + Self.ROOM ≤ 8192 }
        ensures count { self.new.count ≡ self.old.count }
        ensures reads_s1 { (place : ℕ) (older : List ReadSymbol) → ReadsSignal self.old.s1 older
            → ReadsSignal self.new.s1 (with_reading (Some break) place older) }
        ensures reads_s2 { (place : ℕ) (older : List ReadSymbol) → ReadsSignal self.old.s2 older
            → ReadsSignal self.new.s2 (with_reading (Some break) place older) }
        ensures lines { (first second : List ReadSymbol) → ReadsSignal self.old.s1 first → ReadsSignal self.old.s2 second
            → text.new.items ≡ text.old.items ++ line_with Wire.S1 (Some break) first ++ line_with Wire.S2 (Some break) second }
        ensures sized { length text.new.items ≤ length text.old.items + Self.ROOM }
    {
        self.s1.decode_break(text, Wire::S1);
        self.s2.decode_break(text, Wire::S2);
    }

    /// Reads a byte of the record as `step` does, and appends the frames that it gives, that of S1 first. A frame that is refused
    /// gives none.
    #[inline]
    pub fn hear(&mut self, byte: u8, frames: &mut Frames)
        requires few { self.old.count < Self.MAX_BYTES }
        requires room { length frames.old.items + 2 ≤ 16 }
        ensures count { self.new.count ≡ self.old.count + 1 }
        ensures stands { (bytes : List ℕ) → DecoderStandsFor self.old bytes → DecoderStandsFor self.new (byte ∷ bytes) }
        ensures heard { (bytes : List ℕ) → DecoderStandsFor self.old bytes
            → frames.new.items ≡ frames.old.items ++ frame_given Wire.S1 (byte ∷ bytes) ++ frame_given Wire.S2 (byte ∷ bytes) }
        ensures sized { length frames.new.items ≤ length frames.old.items + 2 }
    {
        let place = self.count;
        self.count += 1;
        match period_of(byte) {
            Some(Period::Bits { s1, s2 }) => {
                self.s1.hear_bit(frames, Wire::S1, s1, place);
                self.s2.hear_bit(frames, Wire::S2, s2, place);
            }
            Some(Period::Suspended | Period::ResumeAsked) => {}
            Some(Period::Deactivated) => self.hear_breaks(frames),
            None => self.hear_breaks(frames),
        }
    }

    /// Reads the first of these bytes of the record as `step_many` does, at least one, and appends the frames that they give, at
    /// most sixteen. It answers how many bytes it read.
    #[inline(always)]
    pub fn hear_many(&mut self, bytes: &[u8; 64], frames: &mut Frames) -> usize
        requires few { self.old.count + 64 ≤ Self.MAX_BYTES }
        requires room { frames.old.items ≡ [] }
        ensures some { 0 < result }
        ensures within { result ≤ 64 }
        ensures count { self.new.count ≡ self.old.count + result }
        ensures stands { (older : List ℕ) → DecoderStandsFor self.old older → DecoderStandsFor self.new (reverse (take result bytes.now) ++ older) }
        ensures heard { (older : List ℕ) → DecoderStandsFor self.old older → frames.new.items ≡ frames_with older (take result bytes.now) }
        ensures sized { length frames.new.items ≤ 2 * result }
    {
        let bits = many_bits(bytes);
        if bits.known == 0 {
            self.hear_each(&bytes[..8], frames);
            return 8;
        }
        self.hear_bits(bits, bytes, frames)
    }

    /// Reads periods with bits, as `step_bits` does.
    #[inline(never)]
    fn hear_bits(&mut self, bits: ManyBits, bytes: &[u8; 64], frames: &mut Frames) -> usize
        requires known { 0 < bits.known }
        requires most { bits.known ≤ 64 }
        requires s1 { AreBits Wire.S1 (take bits.known bytes.now) (take bits.known (low_bits 64 bits.s1)) }
        requires s2 { AreBits Wire.S2 (take bits.known bytes.now) (take bits.known (low_bits 64 bits.s2)) }
        requires few { self.old.count + 64 ≤ Self.MAX_BYTES }
        requires room { frames.old.items ≡ [] }
        ensures some { 0 < result }
        ensures within { result ≤ 64 }
        ensures count { self.new.count ≡ self.old.count + result }
        ensures stands { (older : List ℕ) → DecoderStandsFor self.old older → DecoderStandsFor self.new (reverse (take result bytes.now) ++ older) }
        ensures heard { (older : List ℕ) → DecoderStandsFor self.old older → frames.new.items ≡ frames_with older (take result bytes.now) }
        ensures sized { length frames.new.items ≤ 2 * result }
    {
        let place = self.count;
        let s1 = self.s1.word(bits.s1);
        let s2 = self.s2.word(bits.s2);
        let mut marks = s1.marks | s2.marks;
        let mut read_s1 = 0;
        let mut read_s2 = 0;
        let mut passed = 0;
        'marks: while marks.leading_zeros() < bits.known && passed < Self::MOST_PLACES {
            let last = marks.leading_zeros();
            read_s1 = self
                .s1
                .hear_mark_at(frames, Wire::S1, &s1, read_s1, last, place);
            read_s2 = self
                .s2
                .hear_mark_at(frames, Wire::S2, &s2, read_s2, last, place);
            marks %= 1 << (63 - last);
            passed += 1;
        }
        let to = marks.leading_zeros().min(bits.known);
        self.s1.read_between(&s1, read_s1, to, place);
        self.s2.read_between(&s2, read_s2, to, place);
        self.count = place + to;
        to as usize
    }

    /// Reads a few bytes of the record one after another.
    #[inline(never)]
    fn hear_each(&mut self, bytes: &[u8], frames: &mut Frames)
        requires short { length bytes.now ≤ 8 }
        requires few { self.old.count + length bytes.now ≤ Self.MAX_BYTES }
        requires room { frames.old.items ≡ [] }
        ensures count { self.new.count ≡ self.old.count + length bytes.now }
        ensures stands { (older : List ℕ) → DecoderStandsFor self.old older → DecoderStandsFor self.new (reverse bytes.now ++ older) }
        ensures heard { (older : List ℕ) → DecoderStandsFor self.old older → frames.new.items ≡ frames_with older bytes.now }
        ensures sized { length frames.new.items ≤ 2 * length bytes.now }
    {
        for byte in bytes {
            self.hear(*byte, frames);
        }
    }

    /// Reads a break in both directions.
    fn hear_breaks(&mut self, frames: &mut Frames)
        requires { length frames.old.items + 2 ≤ 16 }
        ensures count { self.new.count ≡ self.old.count }
        ensures reads_s1 { (place : ℕ) (older : List ReadSymbol) → ReadsSignal self.old.s1 older
            → ReadsSignal self.new.s1 (with_reading (Some break) place older) }
        ensures reads_s2 { (place : ℕ) (older : List ReadSymbol) → ReadsSignal self.old.s2 older
            → ReadsSignal self.new.s2 (with_reading (Some break) place older) }
        ensures heard { (first second : List ReadSymbol) → ReadsSignal self.old.s1 first → ReadsSignal self.old.s2 second
            → frames.new.items ≡ frames.old.items ++ frame_with Wire.S1 (Some break) first ++ frame_with Wire.S2 (Some break) second }
        ensures sized { length frames.new.items ≤ length frames.old.items + 2 }
    {
        self.s1.hear_break(frames, Wire::S1);
        self.s2.hear_break(frames, Wire::S2);
    }
}
