//! Finds the frames in what is read bit by bit.
ghost use Rattle.std.specs.Prelude.{IsTrue, ◌↔◌, List, ◌≡◌, ◌≢◌, ◌≤◌, ◌∷◌, [], length, take};

use crate::content::Content;
use crate::fed::{Fed, Found};
use crate::word::{Part, Word};
use swp_base::{FrameFault, Lpdu};

/// The length of a start of frame's run of 1 bits; one more ends a frame.
const START_ONES: u8 = 6;

/// Finds the frames in the bits of one direction of a line (ETSI TS 102 613, section 9.2). It takes no memory, however long a frame is.
///
/// A run of exactly six 1 bits and a 0 behind it starts a frame, and the seventh 1 bit in a row ends one. The bits are
/// read as if one 0 stood before them and after each break. A start of frame inside an open frame refuses this frame as
/// broken, and opens a new one.
#[derive(Drop)]
pub struct Deframer {
    /// The 1 bits in a row that were read last; 7 stands for any greater number too.
    ones: u8,
    /// Whether a frame is open.
    is_open: bool,
    /// The content of the frame that is open.
    content: Content,
    ghost short: { ones ≤ 7 },
}

impl Deframer {
    ghost use Rattle.swp_base.specs.declared.link_terms.FrameFault.TheVariants.{Broken};
    ghost use Rattle.swp_frame.specs.declared.fed.Fed.TheVariants.{Nothing, Refused};
    ghost use Rattle.swp_frame.specs.Signal.{Symbol, bit_0, bit_1, break, symbol_of, mark_of, start_mark, run_of, read_on, HasNoMark};
    ghost use Rattle.swp_frame.specs.Words.{part_bits, IsWordBehind, IsPartBehind};
    ghost use Rattle.swp_frame.specs.Verdicts.{verdict};
    ghost use Rattle.swp_frame.specs.Found.{fed_lying_in, HasPayload};
    ghost use Rattle.swp_frame.specs.Kept.{DeframerStandsFor, lying_bytes};

    /// A deframer that has read nothing.
    pub fn new() -> Self
        ensures { DeframerStandsFor result [] }
    {
        Self {
            ones: 0,
            is_open: false,
            content: Content::new(),
        }
    }

    /// Reads a bit. The faults of a frame are tested in the order of its length in bits without those put in (24 to 256),
    /// their alignment to bytes, and the CRC.
    #[inline(always)]
    pub fn feed(&mut self, bit: bool) -> Fed
        ensures stands { (seen : List Symbol) → DeframerStandsFor self.old seen → DeframerStandsFor self.new (symbol_of bit ∷ seen) }
        ensures answer { (seen : List Symbol) → DeframerStandsFor self.old seen → result ≡ verdict (symbol_of bit ∷ seen) }
    {
        match self.feed_in_place(bit) {
            Found::Nothing => Fed::Nothing,
            Found::Frame(len) => Fed::Frame(Lpdu::new(self.payload(len))),
            Found::Refused(fault) => Fed::Refused(fault),
        }
    }

    /// Reads a bit as `feed` does. The payload of a frame that ended stays where it lies, until the next bit is read: `payload` lends it.
    #[inline(always)]
    pub fn feed_in_place(&mut self, bit: bool) -> Found
        ensures stands { (seen : List Symbol) → DeframerStandsFor self.old seen → DeframerStandsFor self.new (symbol_of bit ∷ seen) }
        ensures answer { (seen : List Symbol) → DeframerStandsFor self.old seen
            → fed_lying_in (lying_bytes self.new) result ≡ verdict (symbol_of bit ∷ seen) }
        ensures sized { HasPayload result }
    {
        if self.ones == START_ONES {
            return self.read_mark(bit);
        }
        self.read_plain(bit);
        Found::Nothing
    }

    /// The payload of the frame that ended with the bit that was read last, of so many bytes.
    #[inline(always)]
    pub fn payload(&self, len: usize) -> &[u8]
        requires { len ≤ 40 }
        ensures value { result.now ≡ take len (lying_bytes self.now) }
        ensures sized { length result.now ≡ len }
    {
        &self.content.bytes[..len]
    }

    /// What sixty-four bits are behind those that were read, the most significant first: with which of them a mark ends, and
    /// which were put in.
    #[inline(always)]
    pub fn word(&self, bits: u64) -> Word
        ensures bits { result.bits ≡ bits }
        ensures behind { (seen : List Symbol) → DeframerStandsFor self.now seen → IsWordBehind result (run_of seen) }
    {
        Word::new(bits, self.ones)
    }

    /// Reads some neighbouring bits of a word at once, where no mark ends with one of them.
    #[inline(always)]
    pub fn feed_part(&mut self, part: Part)
        ensures { (seen : List Symbol) → DeframerStandsFor self.old seen → IsPartBehind part (run_of seen) → HasNoMark seen (part_bits part)
            → DeframerStandsFor self.new (read_on seen (part_bits part)) }
    {
        self.ones = part.run_behind(self.ones);
        if self.is_open {
            self.content.push_part(part);
        }
    }

    /// Reads a break: an open frame is refused as broken, and a start of frame is awaited.
    #[inline]
    pub fn break_off(&mut self) -> Fed
        ensures stands { (seen : List Symbol) → DeframerStandsFor self.old seen → DeframerStandsFor self.new (break ∷ seen) }
        ensures answer { (seen : List Symbol) → DeframerStandsFor self.old seen → result ≡ verdict (break ∷ seen) }
    {
        self.ones = 0; // A 0 is read in behind a break.
        if !self.is_open {
            return Fed::Nothing;
        }
        self.is_open = false;
        Fed::Refused(FrameFault::Broken)
    }

    /// Whether a 0 bit now would end a start of frame.
    #[inline]
    pub fn is_before_start(&self) -> bool
        ensures { (seen : List Symbol) → DeframerStandsFor self.now seen → IsTrue result ↔ (mark_of (bit_0 ∷ seen) ≡ start_mark) }
    {
        self.ones == START_ONES
    }

    /// Reads a bit that ends no mark.
    #[inline(always)]
    fn read_plain(&mut self, bit: bool)
        requires { self.old.ones ≢ 6 }
        ensures stands { (seen : List Symbol) → DeframerStandsFor self.old seen → DeframerStandsFor self.new (symbol_of bit ∷ seen) }
        ensures quiet { (seen : List Symbol) → DeframerStandsFor self.old seen → verdict (symbol_of bit ∷ seen) ≡ Nothing }
    {
        let ones = self.ones;
        self.ones = if bit {
            (ones + 1).min(START_ONES + 1)
        } else {
            0
        };
        if self.is_open {
            self.content.push_bit(bit, ones);
        }
    }

    /// Reads a bit behind six 1 bits, which ends a mark.
    #[inline(always)]
    fn read_mark(&mut self, bit: bool) -> Found
        requires { self.old.ones ≡ 6 }
        ensures stands { (seen : List Symbol) → DeframerStandsFor self.old seen → DeframerStandsFor self.new (symbol_of bit ∷ seen) }
        ensures answer { (seen : List Symbol) → DeframerStandsFor self.old seen
            → fed_lying_in (lying_bytes self.new) result ≡ verdict (symbol_of bit ∷ seen) }
        ensures sized { HasPayload result }
    {
        if bit {
            self.read_end()
        } else {
            self.read_start()
        }
    }

    /// Reads the seventh 1 bit in a row: a frame that is open ends.
    #[inline(always)]
    fn read_end(&mut self) -> Found
        requires { self.old.ones ≡ 6 }
        ensures stands { (seen : List Symbol) → DeframerStandsFor self.old seen → DeframerStandsFor self.new (bit_1 ∷ seen) }
        ensures answer { (seen : List Symbol) → DeframerStandsFor self.old seen → fed_lying_in (lying_bytes self.new) result ≡ verdict (bit_1 ∷ seen) }
        ensures sized { HasPayload result }
    {
        self.ones = START_ONES + 1;
        if self.is_open {
            self.is_open = false;
            self.content.judge()
        } else {
            Found::Nothing
        }
    }

    /// Reads a 0 behind six 1 bits: a frame starts, and one that is open is refused.
    #[inline(always)]
    fn read_start(&mut self) -> Found
        requires { self.old.ones ≡ 6 }
        ensures stands { (seen : List Symbol) → DeframerStandsFor self.old seen → DeframerStandsFor self.new (bit_0 ∷ seen) }
        ensures answer { (seen : List Symbol) → DeframerStandsFor self.old seen → fed_lying_in (lying_bytes self.new) result ≡ verdict (bit_0 ∷ seen) }
        ensures sized { HasPayload result }
    {
        let was_open = self.is_open;
        self.ones = 0;
        self.is_open = true;
        self.content.start();
        if was_open {
            Found::Refused(FrameFault::Broken)
        } else {
            Found::Nothing
        }
    }
}
