//! Reads a line for the node at one of its ends.
ghost use Rattle.std.specs.Prelude.{◌≡◌, ◌==◌, ◌&&◌, ◌<◌, ◌≤◌, ◌∷◌, ◌++◌, [], not, is_some, List, ℕ, length, reverse, take, true, false};

use crate::reading::Brought;
use swp_decode::{ManyBits, many_bits};
use swp_frame::{Deframer, Fed};
use swp_line::{Period, period_of};

/// So many periods of a line are one tick.
const PERIODS_OF_A_TICK: u16 = 512;

/// Reads the bytes of the record of a line for the node at one of its ends.
#[derive(Drop)]
pub struct LineReader {
    /// Whether this is the CLF, which reads S2. The UICC reads S1.
    is_clf: bool,
    deframer: Deframer,
    /// Whether no period with bits came since the line began, or since it was deactivated.
    is_unstarted: bool,
    /// How many periods came since the last tick.
    periods: u16,
    ghost few: { periods < 512 },
}

impl LineReader {
    ghost use Rattle.swp_line.specs.declared.period.Period.{Period as Told};
    ghost use Rattle.swp_line.specs.Periods.{period_at};
    ghost use Rattle.swp_frame.specs.Signal.{Symbol};
    ghost use Rattle.swp_frame.specs.Kept.{DeframerStandsFor};
    ghost use Rattle.swp_decode.specs.Readings.{symbol_on};
    ghost use Rattle.lone_laws.specs.alone.Ends.{line_brings, bytes_bring, reading_brings, verdict_brings, has_bits, is_deactivation};
    ghost use Rattle.lone_laws.specs.alone.Ends.EndForm.{OnLine};
    ghost use Rattle.one_end.specs.Reading.{LineStandsFor, causes_brought, wire_of, symbols_with, unstarted_with, periods_with};

    /// Nothing came on the line.
    pub fn new(is_clf: bool) -> Self
        ensures { (number : ℕ) → (number == 0) ≡ is_clf → LineStandsFor result number [] }
    {
        Self {
            is_clf,
            deframer: Deframer::new(),
            is_unstarted: true,
            periods: 0,
        }
    }

    /// Takes a byte, and gives what it brings to the node.
    #[inline(always)]
    pub fn hear(&mut self, byte: u8) -> Brought
        ensures stands { (number : ℕ) (older : List ℕ) → LineStandsFor self.old number older → LineStandsFor self.new number (byte ∷ older) }
        ensures brings { (number : ℕ) (older : List ℕ) → LineStandsFor self.old number older → causes_brought result ≡ line_brings number byte older }
    {
        let period = period_of(byte);
        let starts = self.starts_with(period);
        let fed = self.read(period);
        let stops = period == Some(Period::Deactivated);
        let ticks = self.ticks_with(period);
        Brought {
            starts,
            fed,
            stops,
            ticks,
        }
    }

    /// Takes the first of these bytes, at most sixty-four, up to a period with which something may come: they are periods with bits and bring
    /// nothing. It answers how many they are.
    #[inline(always)]
    pub fn pass(&mut self, bytes: &[u8]) -> usize
        ensures within { result ≤ length bytes.now }
        ensures stands { (number : ℕ) (older : List ℕ) → LineStandsFor self.old number older
            → LineStandsFor self.new number (reverse (take result bytes.now) ++ older) }
        ensures quiet { (number : ℕ) (older : List ℕ) → LineStandsFor self.old number older
            → bytes_bring OnLine number older (take result bytes.now) ≡ [] }
    {
        if self.is_unstarted {
            return 0;
        }
        let Some((first, _)) = bytes.split_first_chunk::<64>() else {
            return 0;
        };
        self.pass_bits(first)
    }

    // The same of sixty-four bytes, where a period with bits came since the line began or was deactivated. They end before a mark on the wire
    // that is read, before a tick, and before the first sixteen of which one is no period with bits.
    #[inline(never)]
    fn pass_bits(&mut self, bytes: &[u8; 64]) -> usize
        requires started { self.old.is_unstarted ≡ false }
        ensures within { result ≤ 64 }
        ensures stands { (number : ℕ) (older : List ℕ) → LineStandsFor self.old number older
            → LineStandsFor self.new number (reverse (take result bytes.now) ++ older) }
        ensures quiet { (number : ℕ) (older : List ℕ) → LineStandsFor self.old number older
            → bytes_bring OnLine number older (take result bytes.now) ≡ [] }
    {
        let many = many_bits(bytes);
        let given = self.bits_read(many);
        let word = self.deframer.word(given);
        let left = u32::from(PERIODS_OF_A_TICK - 1 - self.periods);
        let most = left.min(many.known);
        let to = word.marks.leading_zeros().min(most);
        if to == 0 {
            return 0;
        }
        let part = word.part(0, to);
        self.deframer.feed_part(part);
        self.periods += to as u16;
        to as usize
    }

    // The bits of many periods on the wire that is read.
    #[inline(always)]
    fn bits_read(&self, many: ManyBits) -> u64
        ensures clf { self.now.is_clf ≡ true → result ≡ many.s2 }
        ensures uicc { self.now.is_clf ≡ false → result ≡ many.s1 }
    {
        if self.is_clf { many.s2 } else { many.s1 }
    }

    // Whether activation of a UICC begins with a period: with the first one with bits.
    #[inline(always)]
    fn starts_with(&mut self, period: Option<Period>) -> bool
        ensures unstarted { self.new ≡ record self.old { is_unstarted = unstarted_with period self.old.is_unstarted } }
        ensures answer { result ≡ (not self.old.is_clf && has_bits period && self.old.is_unstarted) }
    {
        match period {
            Some(Period::Bits { .. }) => {
                let first = self.is_unstarted;
                self.is_unstarted = false;
                first && !self.is_clf
            }
            Some(Period::Deactivated) => {
                self.is_unstarted = true;
                false
            }
            Some(Period::Suspended | Period::ResumeAsked) | None => false,
        }
    }

    // The frame or the refusal that a period gives on the wire that is read.
    #[inline(always)]
    fn read(&mut self, period: Option<Period>) -> Fed
        ensures same { self.new ≡ record self.old { deframer = self.new.deframer } }
        ensures stands { (seen : List Symbol) → DeframerStandsFor self.old.deframer seen
            → DeframerStandsFor self.new.deframer (symbols_with (symbol_on (wire_of self.old.is_clf) period) seen) }
        ensures answer { (seen : List Symbol) → DeframerStandsFor self.old.deframer seen
            → verdict_brings result ≡ reading_brings (symbol_on (wire_of self.old.is_clf) period) seen }
    {
        match period {
            Some(Period::Bits { s1, s2 }) => self.deframer.feed(if self.is_clf { s2 } else { s1 }),
            Some(Period::Suspended | Period::ResumeAsked) => Fed::Nothing,
            Some(Period::Deactivated) => self.deframer.break_off(),
            None => self.deframer.break_off(),
        }
    }

    // Whether a tick comes with a period: with each 512th.
    #[inline(always)]
    fn ticks_with(&mut self, period: Option<Period>) -> bool
        ensures counted { self.new.periods ≡ periods_with period self.old.periods }
        ensures role { self.new.is_clf ≡ self.old.is_clf }
        ensures deframer { self.new.deframer ≡ self.old.deframer }
        ensures unstarted { self.new.is_unstarted ≡ self.old.is_unstarted }
        ensures answer { result ≡ (is_some period && (periods_with period self.old.periods == 0)) }
    {
        if period.is_none() {
            return false;
        }
        self.periods = (self.periods + 1) % PERIODS_OF_A_TICK;
        self.periods == 0
    }
}
