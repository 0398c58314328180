//! The content of the frame that is open.
ghost use Rattle.std.specs.Prelude.{ℕ, Bool, List, ◌≡◌, ◌+◌, ◌*◌, ◌/◌, ◌%◌, ◌^◌, ◌<◌, ◌≤◌, ◌++◌, [], ◌∷◌, length, take};
ghost use Rattle.std.specs.Int.{w64, to_be_bytes};
ghost use Rattle.swp_frame.specs.Content.{judged_bytes};
ghost use Rattle.swp_frame.specs.Found.{fed_lying_in, HasPayload};

use crate::fed::Found;
use crate::word::Part;
use swp_base::FrameFault;
use swp_crc::crc;

/// The most bits of a content: those of 30 bytes and of the CRC.
const MAX_BITS: u32 = 256;

/// The fewest bits of a content: those of one byte and of the CRC.
const MIN_BITS: u32 = 24;

/// The most bits that are kept: those of the longest content, and seven of the end of its frame.
const MAX_KEPT: u32 = 263;

/// The 1 bits of the end of a frame, but for the one with which it ends.
const END_ONES: u32 = 6;

/// The greatest number of bits that is told; it stands for any greater number too.
const MOST_TOLD: u32 = 65_535;

/// The bits that were read since the start of the frame, without those put in. What stands at the end of the frame is among
/// them. This project's own.
#[derive(Drop)]
pub struct Content {
    /// The bytes of the whole words of 64 bits. What stands behind them says nothing.
    pub bytes: [u8; 40],
    /// The bits of the word under way, as a number.
    pub partial: u64,
    /// How many bits there are; 4,294,967,295 stands for any greater number too.
    pub bits: u32,
    /// Whether the last 0 that was read is among the bits: it isn't where it was put in, or where none was read.
    pub zero: bool,
    ghost within_word: { bits ≤ 263 → partial < 2 ^ (bits % 64) },
}

impl Content {
    ghost use Rattle.swp_frame.specs.Kept.{KeepsContent, KeepsSince, run_bits};
    ghost use Rattle.swp_frame.specs.Signal.{Symbol, symbol_of, run_of, read_on};
    ghost use Rattle.swp_frame.specs.Words.{part_bits, IsPartBehind};
    ghost use Rattle.swp_crc.specs.Division.{spelled_number};
    ghost use Rattle.swp_frame.specs.Content.{judged};

    /// A content of no bits.
    pub fn new() -> Self
        ensures { KeepsSince result [] }
    {
        Self {
            bytes: [0; 40],
            partial: 0,
            bits: 0,
            zero: false,
        }
    }

    /// A frame starts: there are no bits from now on.
    #[inline(always)]
    pub fn start(&mut self)
        ensures { KeepsSince self.new [] }
    {
        self.partial = 0;
        self.bits = 0;
        self.zero = false;
    }

    /// Appends the bits of a number, at most 64 of them, the most significant first.
    #[inline(always)]
    fn push_bits(&mut self, value: u64, width: u32)
        requires width { width ≤ 64 }
        requires value { value < 2 ^ width }
        ensures bits { (bits more : List Bool) → KeepsContent self.old bits → length more ≡ width → spelled_number more ≡ value
            → KeepsContent self.new (bits ++ more) }
        ensures zero { self.new.zero ≡ self.old.zero }
    {
        let read = self.bits;
        let filled = read % 64;
        self.bits = self.bits.saturating_add(width);
        if self.bits > MAX_KEPT {
            return;
        }
        if filled + width < 64 {
            self.partial = (self.partial << width) + value;
            return;
        }
        let rest = filled + width - 64;
        let word = (self.partial << (63 - filled) << 1) + (value >> rest);
        put_word(&mut self.bytes, read / 64, word);
        self.partial = value % (1 << rest);
    }

    /// Appends a bit that comes behind so many 1 bits in a row, unless it is a 0 that was put in: one behind five.
    #[inline(always)]
    pub fn push_bit(&mut self, bit: bool, ones: u8)
        ensures { (since : List Symbol) → KeepsSince self.old since → run_of since ≡ ones → KeepsSince self.new (symbol_of bit ∷ since) }
    {
        let is_content = bit || ones != 5;
        self.push_bits(u64::from(bit), u32::from(is_content));
        self.zero = if bit { self.zero } else { is_content };
    }

    /// Appends a part of a word, without the bits that were put in.
    #[inline(always)]
    pub fn push_part(&mut self, part: Part)
        ensures { (since : List Symbol) → KeepsSince self.old since → IsPartBehind part (run_of since)
            → KeepsSince self.new (read_on since (part_bits part)) }
    {
        let kept = part.without_put_in();
        self.push_bits(kept.bits, kept.width);
        self.zero = part.is_last_zero_content(self.zero);
    }

    /// The verdict on a content behind which six 1 bits of the end of its frame were read, and the 0 in front of these. The payload of
    /// a frame is then the first of the bytes.
    #[inline(always)]
    pub fn judge(&mut self) -> Found
        ensures judged { (bits : List Bool) → KeepsContent self.old (bits ++ run_bits self.old.zero 6) → fed_lying_in self.new.bytes result ≡ judged bits }
        ensures sized { HasPayload result }
    {
        let end = END_ONES + u32::from(self.zero);
        let bits = self.bits.saturating_sub(end).min(MOST_TOLD);
        if bits < MIN_BITS || bits > MAX_BITS {
            return Found::Refused(FrameFault::Length { bits });
        }
        if bits % 8 != 0 {
            return Found::Refused(FrameFault::Alignment { bits });
        }
        // The word under way is moved to the top.
        let last = self.partial << (64 - self.bits % 64);
        put_word(&mut self.bytes, self.bits / 64, last);
        judge_bytes(&self.bytes[..bits as usize / 8])
    }
}

/// Puts a word at its place among the words of some bytes, its highest byte first. What stands before it stays.
#[inline(always)]
fn put_word(bytes: &mut [u8; 40], place: u32, word: u64)
    requires { place < 5 }
    ensures { take (8 * place + 8) bytes.new ≡ take (8 * place) bytes.old ++ to_be_bytes w64 word }
{
    let at = 8 * place as usize;
    bytes[at..at + 8].copy_from_slice(&word.to_be_bytes());
}

/// The verdict on the bytes of a content, the last two of which are to be the CRC of those before them.
#[inline(always)]
fn judge_bytes(bytes: &[u8]) -> Found
    requires few { 3 ≤ length bytes.now }
    requires most { length bytes.now ≤ 32 }
    ensures judged { (more : List ℕ) → fed_lying_in (bytes.now ++ more) result ≡ judged_bytes bytes.now }
    ensures sized { HasPayload result }
{
    let len = bytes.len() - 2;
    let (body, end) = bytes.split_at(len);
    let want = crc(body);
    let got = u16::from_be_bytes([end[0], end[1]]);
    if want != got {
        return Found::Refused(FrameFault::Crc { want, got });
    }
    Found::Frame(len)
}
