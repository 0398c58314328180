//! Sixty-four bits at once. All of it is this project's own.
ghost use Rattle.std.specs.Prelude.{ℕ, List, ◌≡◌, ◌≤◌, ◌<◌, ◌+◌, ◌-◌, ◌/◌, ◌%◌, ◌^◌, ◌++◌, min, take, drop, reverse};
ghost use Rattle.swp_frame.specs.Signal.{Symbol, run_of, unstuffed, read_on};

/// Sixty-four bits of one direction as a number, the oldest the most significant, and which of them have a meaning of their own.
#[derive(Clone, Copy)]
pub struct Word {
    pub bits: u64,
    /// The bits with which a mark ends: those directly behind exactly six 1 bits.
    pub marks: u64,
    /// The bits that were put in: each 0 directly behind exactly five 1 bits.
    pub put_in: u64,
}

/// Some neighbouring bits of a word.
#[derive(Clone, Copy)]
pub struct Part {
    pub bits: u64,
    pub put_in: u64,
    /// How many bits they are.
    pub width: u32,
    ghost few: { width ≤ 64 },
    ghost bits_fit: { bits < 2 ^ width },
    ghost put_in_fit: { put_in < 2 ^ width },
}

/// Some bits as a number, the oldest the most significant.
#[derive(Clone, Copy)]
pub struct Kept {
    pub bits: u64,
    /// How many they are.
    pub width: u32,
    ghost few: { width ≤ 64 },
    ghost fits: { bits < 2 ^ width },
}

impl Word {
    ghost use Rattle.swp_frame.specs.Words.{low_bits, run_after, word_bits, part_bits, IsWordBehind, IsPartBehind};

    /// What these bits are where so many 1 bits in a row stand before them; 7 stands for any greater number too.
    #[inline(always)]
    pub fn new(bits: u64, ones: u8) -> Self
        requires { ones ≤ 7 }
        ensures bits { result.bits ≡ bits }
        ensures behind { IsWordBehind result ones }
    {
        // The 1 bits that stand before them, and a 0 in front of these.
        let all = (((1 << ones) - 1) << 64) + u128::from(bits);
        let five = before(all, 1)
            & before(all, 2)
            & before(all, 3)
            & before(all, 4)
            & before(all, 5);
        let six = before(all, 6);
        Self {
            bits,
            marks: five & six & !before(all, 7),
            put_in: five & !six & !bits,
        }
    }

    /// The bits from one place up to another, counted from the oldest.
    #[inline(always)]
    pub fn part(&self, from: u32, to: u32) -> Part
        requires some { from < to }
        requires within { to ≤ 64 }
        ensures width { result.width ≡ to - from }
        ensures bits { part_bits result ≡ take (to - from) (drop from (word_bits self.now)) }
        ensures behind { (ones : ℕ) → IsWordBehind self.now ones → IsPartBehind result (run_after ones (take from (word_bits self.now))) }
    {
        let width = to - from;
        Part {
            bits: field(self.bits, from, width),
            put_in: field(self.put_in, from, width),
            width,
        }
    }
}

/// The bits that stand so many places before those of a word.
#[inline(always)]
fn before(all: u128, places: u32) -> u64
    requires { places ≤ 7 }
    ensures { result ≡ all / 2 ^ places % 2 ^ 64 }
{
    ((all >> places) % (1 << 64)) as u64
}

/// So many bits of a word from one place on, counted from the most significant.
#[inline(always)]
fn field(word: u64, from: u32, width: u32) -> u64
    requires some { 0 < width }
    requires within { from + width ≤ 64 }
    ensures { result ≡ word / 2 ^ (64 - (from + width)) % 2 ^ width }
{
    (word << from) >> (64 - width)
}

impl Part {
    ghost use Rattle.swp_frame.specs.Words.{low_bits, run_after, part_bits, IsPartBehind};
    ghost use Rattle.swp_frame.specs.Kept.{CountsLastZero};

    /// The bits without those that were put in.
    #[inline(always)]
    pub fn without_put_in(self) -> Kept
        ensures { (since : List Symbol) → IsPartBehind self (run_of since)
            → reverse (unstuffed since) ++ low_bits result.width result.bits ≡ reverse (unstuffed (read_on since (part_bits self))) }
    {
        let mut bits = self.bits;
        let mut put_in = self.put_in;
        let mut width = self.width;
        while put_in != 0 {
            // What stands in front of the last one moves up to its place.
            let place = put_in.trailing_zeros();
            bits = ((bits >> place >> 1) << place) + bits % (1 << place);
            put_in = (put_in >> place >> 1) << place;
            width -= 1;
        }
        Kept { bits, width }
    }

    /// Whether the last 0 that was read is content behind these bits, where it was content before them or not.
    #[inline(always)]
    pub fn is_last_zero_content(self, before: bool) -> bool
        ensures { (since : List Symbol) → CountsLastZero before since → IsPartBehind self (run_of since)
            → CountsLastZero result (read_on since (part_bits self)) }
    {
        let ones = self.bits.trailing_ones();
        if ones < self.width {
            (self.put_in >> ones) % 2 == 0
        } else {
            before
        }
    }

    /// The 1 bits in a row behind these bits, where so many stood before them; 7 stands for any greater number too.
    #[inline(always)]
    pub fn run_behind(self, ones: u8) -> u8
        requires { ones ≤ 7 }
        ensures { result ≡ min 7 (run_after ones (part_bits self)) }
    {
        let last = self.bits.trailing_ones();
        if last < self.width {
            last.min(7) as u8
        } else {
            (u32::from(ones) + self.width).min(7) as u8
        }
    }
}
