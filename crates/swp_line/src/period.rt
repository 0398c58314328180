//! One period of a line record.
ghost use Rattle.std.specs.Prelude.{◌≡◌, ◌↔◌};
ghost use Rattle.swp_line.specs.Periods.{byte_of_period, period_at};

/// What one byte of a line record says.
#[derive(Clone, Copy, Debug, PartialEq, Eq)]
pub enum Period {
    /// One bit in each direction.
    Bits { s1: bool, s2: bool },
    /// The line is suspended: no bits.
    Suspended,
    /// The UICC asks for the line to be resumed: no bits.
    ResumeAsked,
    /// The line is deactivated: no bits.
    Deactivated,
}

/// The period that a byte stands for; none for a byte outside the table of the line record.
///
/// In a period with bits the second quarter tells S1 and the first tells S2. So those two are read first, and one
/// comparison tells whether the byte has these bits: over a record of bits it comes out the same at each byte.
#[inline]
pub fn period_of(byte: u8) -> Option<Period>
    ensures value { result ≡ period_at byte }
    ensures table { (p : Period) → (result ≡ Some p) ↔ (byte ≡ byte_of_period p) }
{
    let s1 = byte & 0x10 != 0;
    let s2 = byte & 0x80 != 0;
    if byte == byte_of_bits(s1, s2) {
        return Some(Period::Bits { s1, s2 });
    }
    match byte {
        0x55 => Some(Period::Suspended),
        0xFF => Some(Period::ResumeAsked),
        0x00 => Some(Period::Deactivated),
        _ => None,
    }
}

/// The byte that reads as this period.
#[inline]
pub fn byte_of(period: &Period) -> u8
    ensures value { result ≡ byte_of_period period.now }
    ensures read_again { period_at result ≡ Some period.now }
{
    match period {
        Period::Bits { s1, s2 } => byte_of_bits(*s1, *s2),
        Period::Suspended => 0x55,
        Period::ResumeAsked => 0xFF,
        Period::Deactivated => 0x00,
    }
}

/// The bytes of the periods with bits, by S1 and twice S2.
static BYTES_WITH_BITS: [u8; 4] = [0x40, 0x54, 0xC0, 0xFC];

/// The byte of a period with these bits.
#[inline]
fn byte_of_bits(s1: bool, s2: bool) -> u8
    ensures { result ≡ byte_of_period (Period.Bits s1 s2) }
{
    BYTES_WITH_BITS[usize::from(s1) + 2 * usize::from(s2)]
}
