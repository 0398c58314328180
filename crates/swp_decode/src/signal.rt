//! The frames of one direction, and where they start.
ghost use Rattle.std.specs.Prelude.{ℕ, List, take, [], ◌∷◌, ◌++◌, ◌≡◌, ◌+◌, ◌-◌, ◌^◌, ◌<◌, ◌≤◌, length};
ghost use Rattle.swp_base.specs.Bits.{bit};

use crate::frames::{Frames, push_frame, push_heard};
use crate::line::{Wire, push_frame_line, push_line};
use crate::words::Text;
use swp_frame::{Deframer, Fed, Found, Part, Word};

/// Reads one direction of a record.
#[derive(Drop)]
pub struct SignalReader {
    pub deframer: Deframer,
    /// The place of the 0 in front of the last run of 1 bits, or of the first 1 where this 0 was only read in.
    pub front: Option<u32>,
    /// The place of the first bit of the last start of frame.
    pub start: u32,
}

impl SignalReader {
    ghost use Rattle.swp_frame.specs.Signal.{break, bit_0, bit_1, symbol_of, run_of, HasNoMark};
    ghost use Rattle.swp_frame.specs.Words.{word_bits, part_bits, IsWordBehind, IsPartBehind};
    ghost use Rattle.swp_frame.specs.Verdicts.{verdict};
    ghost use Rattle.swp_frame.specs.Found.{fed_lying_in, HasPayload};
    ghost use Rattle.swp_frame.specs.Kept.{lying_bytes};
    ghost use Rattle.swp_decode.specs.Readings.{ReadSymbol, symbols, with_reading, readings_on};
    ghost use Rattle.swp_decode.specs.Decoded.{line_with};
    ghost use Rattle.swp_decode.specs.Frames.{frame_with};
    ghost use Rattle.swp_decode.specs.Kept.{ReadsSignal, NoMarkEnds};

    pub fn new() -> Self
        ensures { ReadsSignal result [] }
    {
        Self {
            deframer: Deframer::new(),
            front: None,
            start: 0,
        }
    }

    /// Reads a bit at a place. The payload of a frame that ended stays where it lies.
    #[inline(always)]
    fn read_bit(&mut self, bit: bool, place: u32) -> Found
        ensures reads { (older : List ReadSymbol) → ReadsSignal self.old older → ReadsSignal self.new (with_reading (Some (symbol_of bit)) place older) }
        ensures answer { (older : List ReadSymbol) → ReadsSignal self.old older
            → fed_lying_in (lying_bytes self.new.deframer) result ≡ verdict (symbol_of bit ∷ symbols older) }
        ensures sized { HasPayload result }
    {
        if !bit && self.deframer.is_before_start() {
            self.start = self.front.unwrap_or(0);
        }
        let first = self.front.unwrap_or(place);
        self.front = Some(if bit { first } else { place });
        self.deframer.feed_in_place(bit)
    }

    /// What sixty-four bits are behind those that were read, the most significant first.
    #[inline(always)]
    pub fn word(&self, bits: u64) -> Word
        ensures bits { result.bits ≡ bits }
        ensures behind { (older : List ReadSymbol) → ReadsSignal self.now older → IsWordBehind result (run_of (symbols older)) }
    {
        self.deframer.word(bits)
    }

    /// Reads some neighbouring bits of a word at once, at a place and those behind it, where no mark ends with one of them.
    #[inline(always)]
    fn read_part(&mut self, part: Part, place: u32)
        requires some { 0 < part.width }
        requires place { place + part.width < 2 ^ 32 }
        ensures { (older : List ReadSymbol) → ReadsSignal self.old older → IsPartBehind part (run_of (symbols older))
            → HasNoMark (symbols older) (part_bits part)
            → ReadsSignal self.new (readings_on place (part_bits part) older) }
    {
        self.deframer.feed_part(part);
        let ones = part.bits.trailing_ones();
        self.front = Some(if ones < part.width {
            // The last 0 stands in front of the 1 bits at the end.
            place + part.width - 1 - ones
        } else {
            self.front.unwrap_or(place)
        });
    }

    /// Reads the bits of a word, whose oldest is at this place, from one up to another, where no mark ends with one of them.
    #[inline(always)]
    pub fn read_between(&mut self, word: &Word, from: u32, to: u32, place: u32)
        requires order { from ≤ to }
        requires within { to ≤ 64 }
        requires place { place + 64 < 2 ^ 32 }
        ensures { (older : List ReadSymbol) → IsWordBehind word.now (run_of (symbols older)) → NoMarkEnds word.now from to
            → ReadsSignal self.old (readings_on place (take from (word_bits word.now)) older)
            → ReadsSignal self.new (readings_on place (take to (word_bits word.now)) older) }
    {
        if from < to {
            self.read_part(word.part(from, to), place + from);
        }
    }

    /// Where a mark ends with a bit of a word, whose oldest is at this place: reads the bits through it from one on with which no
    /// mark ends before, and appends the line of what came with it. It answers up to which bit the word is read then.
    #[inline(always)]
    pub fn decode_mark_at(
        &mut self,
        text: &mut Text,
        wire: Wire,
        word: &Word,
        from: u32,
        last: u32,
        place: u32,
    ) -> u32
        requires order { from ≤ last }
        requires within { last < 64 }
        requires place { place + 64 < 2 ^ 32 }
        requires room { length text.old.items + 128 ≤ 8192 }
        ensures order { from ≤ result }
        ensures within { result ≤ last + 1 }
        ensures quiet { NoMarkEnds word.now from last → NoMarkEnds word.now result (last + 1) }
        ensures reads { (older : List ReadSymbol) → IsWordBehind word.now (run_of (symbols older)) → NoMarkEnds word.now from last
            → ReadsSignal self.old (readings_on place (take from (word_bits word.now)) older)
            → ReadsSignal self.new (readings_on place (take result (word_bits word.now)) older) }
        ensures items { (older : List ReadSymbol) → IsWordBehind word.now (run_of (symbols older)) → NoMarkEnds word.now from last
            → ReadsSignal self.old (readings_on place (take from (word_bits word.now)) older)
            → text.new.items ≡ text.old.items ++ line_with wire (Some (symbol_of (bit word.now.bits (63 - last))))
            (readings_on place (take last (word_bits word.now)) older) }
        ensures sized { length text.new.items ≤ length text.old.items + 128 }
    {
        if (word.marks >> (63 - last)) % 2 == 0 {
            return from;
        }
        self.read_between(word, from, last, place);
        let bit = (word.bits >> (63 - last)) % 2 == 1;
        self.decode_mark(text, wire, bit, place + last);
        last + 1
    }

    /// Reads a break.
    #[inline]
    pub fn read_break(&mut self) -> Fed
        ensures reads { (place : ℕ) (older : List ReadSymbol) → ReadsSignal self.old older → ReadsSignal self.new (with_reading (Some break) place older) }
        ensures answer { (older : List ReadSymbol) → ReadsSignal self.old older → result ≡ verdict (break ∷ symbols older) }
    {
        self.front = None;
        self.deframer.break_off()
    }

    /// Reads a bit at a place, and appends the line of what came with it.
    #[inline(always)]
    pub fn decode_bit(&mut self, text: &mut Text, wire: Wire, bit: bool, place: u32)
        requires { length text.old.items + 128 ≤ 8192 }
        ensures reads { (older : List ReadSymbol) → ReadsSignal self.old older → ReadsSignal self.new (with_reading (Some (symbol_of bit)) place older) }
        ensures items { (older : List ReadSymbol) → ReadsSignal self.old older
            → text.new.items ≡ text.old.items ++ line_with wire (Some (symbol_of bit)) older }
        ensures sized { length text.new.items ≤ length text.old.items + 128 }
    {
        if self.deframer.is_before_start() {
            self.decode_mark(text, wire, bit, place);
        } else {
            // Nothing comes with a bit that ends no mark.
            let _nothing = self.read_bit(bit, place);
        }
    }

    /// Reads a bit with which a mark ends, and appends the line of what came with it.
    #[inline(always)]
    fn decode_mark(&mut self, text: &mut Text, wire: Wire, bit: bool, place: u32)
        requires { length text.old.items + 128 ≤ 8192 }
        ensures reads { (older : List ReadSymbol) → ReadsSignal self.old older → ReadsSignal self.new (with_reading (Some (symbol_of bit)) place older) }
        ensures items { (older : List ReadSymbol) → ReadsSignal self.old older
            → text.new.items ≡ text.old.items ++ line_with wire (Some (symbol_of bit)) older }
        ensures sized { length text.new.items ≤ length text.old.items + 128 }
    {
        if bit {
            self.decode_end(text, wire, place);
        } else {
            self.decode_start(text, wire, place);
        }
    }

    /// Reads the last 1 of an end of frame, and appends the line of what came with it.
    #[cold]
    #[inline(never)]
    fn decode_end(&mut self, text: &mut Text, wire: Wire, place: u32)
        requires { length text.old.items + 128 ≤ 8192 }
        ensures reads { (older : List ReadSymbol) → ReadsSignal self.old older → ReadsSignal self.new (with_reading (Some bit_1) place older) }
        ensures items { (older : List ReadSymbol) → ReadsSignal self.old older
            → text.new.items ≡ text.old.items ++ line_with wire (Some bit_1) older }
        ensures sized { length text.new.items ≤ length text.old.items + 128 }
    {
        self.decode_any(text, wire, true, place);
    }

    /// Reads the 0 with which a start of frame ends, and appends the line of what came with it.
    #[cold]
    #[inline(never)]
    fn decode_start(&mut self, text: &mut Text, wire: Wire, place: u32)
        requires { length text.old.items + 128 ≤ 8192 }
        ensures reads { (older : List ReadSymbol) → ReadsSignal self.old older → ReadsSignal self.new (with_reading (Some bit_0) place older) }
        ensures items { (older : List ReadSymbol) → ReadsSignal self.old older
            → text.new.items ≡ text.old.items ++ line_with wire (Some bit_0) older }
        ensures sized { length text.new.items ≤ length text.old.items + 128 }
    {
        self.decode_any(text, wire, false, place);
    }

    /// Reads a bit at a place, whatever it ends, and appends the line of what came with it.
    #[inline(always)]
    fn decode_any(&mut self, text: &mut Text, wire: Wire, bit: bool, place: u32)
        requires { length text.old.items + 128 ≤ 8192 }
        ensures reads { (older : List ReadSymbol) → ReadsSignal self.old older → ReadsSignal self.new (with_reading (Some (symbol_of bit)) place older) }
        ensures items { (older : List ReadSymbol) → ReadsSignal self.old older
            → text.new.items ≡ text.old.items ++ line_with wire (Some (symbol_of bit)) older }
        ensures sized { length text.new.items ≤ length text.old.items + 128 }
    {
        let start = self.start;
        match self.read_bit(bit, place) {
            Found::Nothing => {}
            Found::Frame(len) => push_frame_line(text, wire, start, self.deframer.payload(len)),
            Found::Refused(fault) => push_line(text, wire, start, &Fed::Refused(fault)),
        }
    }

    /// Reads a break, and appends the line of what came with it.
    #[inline]
    pub fn decode_break(&mut self, text: &mut Text, wire: Wire)
        requires { length text.old.items + 128 ≤ 8192 }
        ensures reads { (place : ℕ) (older : List ReadSymbol) → ReadsSignal self.old older → ReadsSignal self.new (with_reading (Some break) place older) }
        ensures items { (older : List ReadSymbol) → ReadsSignal self.old older
            → text.new.items ≡ text.old.items ++ line_with wire (Some break) older }
        ensures sized { length text.new.items ≤ length text.old.items + 128 }
    {
        let start = self.start;
        let fed = self.read_break();
        push_line(text, wire, start, &fed);
    }

    /// Where a mark ends with a bit of a word, whose oldest is at this place: reads the bits through it from one on with which no
    /// mark ends before, and appends the frame that came with it. It answers up to which bit the word is read then.
    #[inline(always)]
    pub fn hear_mark_at(
        &mut self,
        frames: &mut Frames,
        wire: Wire,
        word: &Word,
        from: u32,
        last: u32,
        place: u32,
    ) -> u32
        requires order { from ≤ last }
        requires within { last < 64 }
        requires place { place + 64 < 2 ^ 32 }
        requires room { length frames.old.items < 16 }
        ensures order { from ≤ result }
        ensures within { result ≤ last + 1 }
        ensures quiet { NoMarkEnds word.now from last → NoMarkEnds word.now result (last + 1) }
        ensures reads { (older : List ReadSymbol) → IsWordBehind word.now (run_of (symbols older)) → NoMarkEnds word.now from last
            → ReadsSignal self.old (readings_on place (take from (word_bits word.now)) older)
            → ReadsSignal self.new (readings_on place (take result (word_bits word.now)) older) }
        ensures items { (older : List ReadSymbol) → IsWordBehind word.now (run_of (symbols older)) → NoMarkEnds word.now from last
            → ReadsSignal self.old (readings_on place (take from (word_bits word.now)) older)
            → frames.new.items ≡ frames.old.items ++ frame_with wire (Some (symbol_of (bit word.now.bits (63 - last))))
            (readings_on place (take last (word_bits word.now)) older) }
        ensures sized { length frames.new.items ≤ length frames.old.items + 1 }
    {
        if (word.marks >> (63 - last)) % 2 == 0 {
            return from;
        }
        self.read_between(word, from, last, place);
        let bit = (word.bits >> (63 - last)) % 2 == 1;
        self.hear_bit(frames, wire, bit, place + last);
        last + 1
    }

    /// Reads a bit at a place, and appends the frame that came with it.
    #[inline(always)]
    pub fn hear_bit(&mut self, frames: &mut Frames, wire: Wire, bit: bool, place: u32)
        requires { length frames.old.items < 16 }
        ensures reads { (older : List ReadSymbol) → ReadsSignal self.old older → ReadsSignal self.new (with_reading (Some (symbol_of bit)) place older) }
        ensures items { (older : List ReadSymbol) → ReadsSignal self.old older
            → frames.new.items ≡ frames.old.items ++ frame_with wire (Some (symbol_of bit)) older }
        ensures sized { length frames.new.items ≤ length frames.old.items + 1 }
    {
        if bit {
            self.hear_one(frames, wire, place);
        } else {
            self.hear_zero(frames, wire, place);
        }
    }

    /// Reads a 1 at a place, and appends the frame that ended with it.
    #[inline(never)]
    fn hear_one(&mut self, frames: &mut Frames, wire: Wire, place: u32)
        requires { length frames.old.items < 16 }
        ensures reads { (older : List ReadSymbol) → ReadsSignal self.old older → ReadsSignal self.new (with_reading (Some bit_1) place older) }
        ensures items { (older : List ReadSymbol) → ReadsSignal self.old older
            → frames.new.items ≡ frames.old.items ++ frame_with wire (Some bit_1) older }
        ensures sized { length frames.new.items ≤ length frames.old.items + 1 }
    {
        self.hear_any(frames, wire, true, place);
    }

    /// Reads a 0 at a place. No frame ends with it.
    #[inline(never)]
    fn hear_zero(&mut self, frames: &mut Frames, wire: Wire, place: u32)
        requires { length frames.old.items < 16 }
        ensures reads { (older : List ReadSymbol) → ReadsSignal self.old older → ReadsSignal self.new (with_reading (Some bit_0) place older) }
        ensures items { (older : List ReadSymbol) → ReadsSignal self.old older
            → frames.new.items ≡ frames.old.items ++ frame_with wire (Some bit_0) older }
        ensures sized { length frames.new.items ≤ length frames.old.items + 1 }
    {
        self.hear_any(frames, wire, false, place);
    }

    /// Reads a bit at a place, and appends the frame that ended with it.
    #[inline(always)]
    fn hear_any(&mut self, frames: &mut Frames, wire: Wire, bit: bool, place: u32)
        requires { length frames.old.items < 16 }
        ensures reads { (older : List ReadSymbol) → ReadsSignal self.old older → ReadsSignal self.new (with_reading (Some (symbol_of bit)) place older) }
        ensures items { (older : List ReadSymbol) → ReadsSignal self.old older
            → frames.new.items ≡ frames.old.items ++ frame_with wire (Some (symbol_of bit)) older }
        ensures sized { length frames.new.items ≤ length frames.old.items + 1 }
    {
        match self.read_bit(bit, place) {
            Found::Nothing | Found::Refused(_) => {}
            Found::Frame(len) => push_heard(frames, wire, self.deframer.payload(len)),
        }
    }

    /// Reads a break, and appends the frame that came with it.
    #[inline]
    pub fn hear_break(&mut self, frames: &mut Frames, wire: Wire)
        requires { length frames.old.items < 16 }
        ensures reads { (place : ℕ) (older : List ReadSymbol) → ReadsSignal self.old older → ReadsSignal self.new (with_reading (Some break) place older) }
        ensures items { (older : List ReadSymbol) → ReadsSignal self.old older
            → frames.new.items ≡ frames.old.items ++ frame_with wire (Some break) older }
        ensures sized { length frames.new.items ≤ length frames.old.items + 1 }
    {
        let fed = self.read_break();
        push_frame(frames, wire, fed);
    }
}
