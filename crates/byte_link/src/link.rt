//! Reads the units of a byte link.
ghost use Rattle.std.specs.Prelude.{ℕ, List, [], ◌∷◌, ◌++◌, ◌≡◌, ◌+◌, ◌<◌, ◌≤◌, length, reverse, take};
ghost use Rattle.std.specs.Prelude.{IfSome, IfOk, IfErr};
ghost use Rattle.swp_base.specs.DataUnits.{IsLpdu};
ghost use Rattle.swp_crc.specs.Crc.{crc_of};
ghost use Rattle.byte_link.specs.Units.{checked, BeginsWithUnit};

use crate::unit::Unit;
use arrayvec::ArrayVec;
use swp_base::{FrameFault, Lpdu};
use swp_crc::crc;

/// The greatest length of an LPDU.
const MAX_COUNT: u16 = 30;

/// Reads the units of a byte link, however they are cut into pieces.
#[derive(Drop)]
pub struct ByteLink {
    /// The bytes of the unit under way.
    unit: ArrayVec<u8, 34>,
    /// Whether a length above 30 came: nothing is read after it.
    lost: bool,
    ghost room: { length unit.items < 34 },
}

impl ByteLink {
    ghost use Rattle.byte_link.specs.Reading.{unit_given};
    ghost use Rattle.byte_link.specs.Kept.{ByteLinkStandsFor, IsPartial};
    ghost use Rattle.byte_link.specs.Written.{units_behind};

    /// A link on which nothing came.
    pub fn new() -> Self
        ensures { ByteLinkStandsFor result [] }
    {
        Self {
            unit: ArrayVec::new(),
            lost: false,
        }
    }

    /// Takes a byte. A unit whose CRC differs is refused, and the next one is read as usual; a length above 30 is refused,
    /// and each later byte gives nothing.
    pub fn feed(&mut self, byte: u8) -> Unit
        ensures stands { (seen : List ℕ) → ByteLinkStandsFor self.old seen → ByteLinkStandsFor self.new (byte ∷ seen) }
        ensures answer { (seen : List ℕ) → ByteLinkStandsFor self.old seen → result ≡ unit_given (byte ∷ seen) }
    {
        if self.lost {
            return Unit::Nothing;
        }
        self.unit.push(byte);
        let [high, low, bytes @ ..] = self.unit.as_slice() else {
            return Unit::Nothing;
        };
        let count = u16::from_be_bytes([*high, *low]);
        if count == 0 {
            self.unit.clear();
            return Unit::Tick;
        }
        if count > MAX_COUNT {
            self.unit.clear();
            self.lost = true;
            let bits = 8 * u32::from(count);
            return Unit::Refused(FrameFault::Length { bits });
        }
        if bytes.len() < usize::from(count) + 2 {
            return Unit::Nothing;
        }
        let unit = checked_unit(bytes);
        self.unit.clear();
        unit
    }

    /// Takes the first of these bytes, with which no unit ends: those of the unit under way but its last one, or all where nothing is read any
    /// more. It answers how many they are.
    #[inline]
    pub fn pass(&mut self, bytes: &[u8]) -> usize
        ensures within { result ≤ length bytes.now }
        ensures stands { (seen : List ℕ) → ByteLinkStandsFor self.old seen → ByteLinkStandsFor self.new (reverse (take result bytes.now) ++ seen) }
        ensures quiet { (seen : List ℕ) → ByteLinkStandsFor self.old seen → units_behind seen (take result bytes.now) ≡ [] }
    {
        if self.lost {
            return bytes.len();
        }
        let before = self.bytes_before_last(bytes);
        let left = before.saturating_sub(self.unit.len());
        let few = left.min(bytes.len());
        self.append(&bytes[..few]);
        few
    }

    /// The LPDU of the unit with which these bytes begin, where no unit is under way and this one is whole; its CRC is right. The link is behind
    /// the unit, four bytes longer than the LPDU, as it was before it.
    #[inline(always)]
    pub fn whole_lpdu<'a>(&self, bytes: &'a [u8]) -> Option<&'a [u8]>
        ensures lpdu { IfSome result (λ lpdu. IsLpdu lpdu.now) }
        ensures within { IfSome result (λ lpdu. length lpdu.now + 4 ≤ length bytes.now) }
        ensures stands { IfSome result (λ lpdu. (seen : List ℕ) → ByteLinkStandsFor self.now seen
            → ByteLinkStandsFor self.now (reverse (take (length lpdu.now + 4) bytes.now) ++ seen)) }
        ensures answer { IfSome result (λ lpdu. (seen : List ℕ) → ByteLinkStandsFor self.now seen
            → units_behind seen (take (length lpdu.now + 4) bytes.now) ≡ Unit.Frame lpdu.now ∷ []) }
    {
        if self.lost || !self.unit.is_empty() {
            return None;
        }
        first_lpdu(bytes)
    }

    // Appends bytes to the unit under way.
    #[inline(always)]
    fn append(&mut self, bytes: &[u8])
        requires room { length self.old.unit.items + length bytes.now < 34 }
        ensures unit { self.new.unit.items ≡ self.old.unit.items ++ bytes.now }
        ensures lost { self.new.lost ≡ self.old.lost }
    {
        let _fits = self.unit.try_extend_from_slice(bytes);
    }

    // How many bytes of the unit under way, with these behind them, come before its last one; none where its length isn't among them.
    #[inline(always)]
    fn bytes_before_last(&self, bytes: &[u8]) -> usize
        ensures most { result ≤ 33 }
        ensures partial { IsPartial (take result (self.now.unit.items ++ bytes.now)) }
    {
        if self.unit.is_empty() {
            return Self::bytes_before_last_of(bytes);
        }
        Self::bytes_before_last_of(self.unit.as_slice())
    }

    // How many bytes of a unit that begins with these come before its last one; none where its length isn't among them, or isn't that of an LPDU.
    #[inline(always)]
    fn bytes_before_last_of(front: &[u8]) -> usize
        ensures most { result ≤ 33 }
        ensures partial { (more : List ℕ) → IsPartial (take result (front.now ++ more)) }
    {
        let [high, low, ..] = front else {
            return 0;
        };
        let count = u16::from_be_bytes([*high, *low]);
        if count == 0 || count > MAX_COUNT {
            return 0;
        }
        usize::from(count) + 3
    }
}

/// The LPDU that a unit says at the front of these bytes; none where no such unit stands there whole.
#[inline(always)]
fn first_lpdu(bytes: &[u8]) -> Option<&[u8]>
    ensures { IfSome result (λ lpdu. BeginsWithUnit bytes.now lpdu.now) }
{
    let [high, low, rest @ ..] = bytes else {
        return None;
    };
    if *high != 0 || *low == 0 || u16::from(*low) > MAX_COUNT {
        return None;
    }
    let count = usize::from(*low) + 2;
    if rest.len() < count {
        return None;
    }
    match checked_bytes(&rest[..count]) {
        Ok(lpdu) => Some(lpdu),
        Err(_) => None,
    }
}

/// What the bytes of an LPDU say with their CRC behind them.
fn checked_unit(bytes: &[u8]) -> Unit
    requires more { 3 ≤ length bytes.now }
    requires less { length bytes.now ≤ 32 }
    ensures { result ≡ checked bytes.now }
{
    match checked_bytes(bytes) {
        Ok(body) => Unit::Frame(Lpdu::new(body)),
        Err(fault) => Unit::Refused(fault),
    }
}

/// The CRC of an LPDU. Most acknowledgements have a single byte.
#[inline(always)]
fn crc_of_lpdu(lpdu: &[u8]) -> u16
    ensures { result ≡ crc_of lpdu.now }
{
    match lpdu {
        [byte] => crc(&[*byte]),
        _ => crc(lpdu),
    }
}

/// The bytes before the last two, which are to be their CRC.
#[inline(always)]
fn checked_bytes(bytes: &[u8]) -> Result<&[u8], FrameFault>
    requires more { 3 ≤ length bytes.now }
    requires less { length bytes.now ≤ 32 }
    ensures said { IfOk result (λ body. checked bytes.now ≡ Unit.Frame body.now) }
    ensures length { IfOk result (λ body. length body.now + 2 ≡ length bytes.now) }
    ensures refused { IfErr result (λ fault. checked bytes.now ≡ Unit.Refused fault) }
{
    let (body, crc_bytes) = bytes.split_at(bytes.len() - 2);
    let want = crc_of_lpdu(body);
    let got = u16::from_be_bytes([crc_bytes[0], crc_bytes[1]]);
    if want != got {
        return Err(FrameFault::Crc { want, got });
    }
    Ok(body)
}
