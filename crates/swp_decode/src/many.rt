//! The bits of many periods at once.
ghost use Rattle.std.specs.Prelude.{Bool, List, IfSome, IfNone, ◌≡◌, ◌+◌, ◌*◌, ◌<◌, ◌≤◌, ◌^◌, ◌==◌, map, take};
ghost use Rattle.swp_crc.specs.Division.{spelled_number};
ghost use Rattle.swp_frame.specs.Words.{low_bits};
ghost use Rattle.swp_decode.specs.Readings.{AreBits};

use crate::line::Wire;
use std::simd::prelude::*;

/// The bits of up to sixty-four periods in both directions, the oldest the most significant.
#[derive(Clone, Copy)]
pub struct ManyBits {
    pub s1: u64,
    pub s2: u64,
    /// How many periods: 0, 16, 32, 48 or 64. The bits behind them say nothing.
    pub known: u32,
}

/// The same of sixteen periods.
#[derive(Clone, Copy)]
struct SixteenBits {
    s1: u16,
    s2: u16,
}

/// The bits of the first of sixty-four bytes, sixteen by sixteen, up to sixteen of which one is no period with bits.
#[inline(always)]
pub fn many_bits(bytes: &[u8; 64]) -> ManyBits
    ensures s1 { AreBits Wire.S1 (take result.known bytes.now) (take result.known (low_bits 64 result.s1)) }
    ensures s2 { AreBits Wire.S2 (take result.known bytes.now) (take result.known (low_bits 64 result.s2)) }
    ensures within { result.known ≤ 64 }
    ensures most { result.known < 64 → (bits : List Bool) → ¬ AreBits Wire.S1 (take (result.known + 16) bytes.now) bits }
{
    let mut s1 = 0;
    let mut s2 = 0;
    let mut read = 0;
    'sixteens: while let Some((sixteen, _)) = bytes[read..].split_first_chunk::<16>() {
        let Some(bits) = sixteen_bits(sixteen) else {
            return first_bits(s1, s2, read);
        };
        s1 = (s1 << 16) + u64::from(bits.s1);
        s2 = (s2 << 16) + u64::from(bits.s2);
        read += 16;
    }
    ManyBits { s1, s2, known: 64 }
}

/// The bits of so many periods, the oldest the most significant.
fn first_bits(s1: u64, s2: u64, read: usize) -> ManyBits
    requires { read < 64 }
    ensures known { result.known ≡ read }
    ensures s1 { take read (low_bits 64 result.s1) ≡ low_bits read s1 }
    ensures s2 { take read (low_bits 64 result.s2) ≡ low_bits read s2 }
{
    if read == 0 {
        return ManyBits {
            s1: 0,
            s2: 0,
            known: 0,
        };
    }
    let rest = 64 - read as u32;
    ManyBits {
        s1: s1 << rest,
        s2: s2 << rest,
        known: read as u32,
    }
}

/// The bits of sixteen bytes; none where one of them is no period with bits.
///
/// There are four such periods: with a 1 on neither wire, on S1, on S2, and on both.
#[inline(always)]
fn sixteen_bits(bytes: &[u8; 16]) -> Option<SixteenBits>
    ensures s1 { IfSome result (λ sixteen. AreBits Wire.S1 bytes.now (low_bits 16 sixteen.s1)) }
    ensures s2 { IfSome result (λ sixteen. AreBits Wire.S2 bytes.now (low_bits 16 sixteen.s2)) }
    ensures none { IfNone result ((bits : List Bool) → ¬ AreBits Wire.S1 bytes.now bits) }
{
    let neither = places_of(bytes, 0x40);
    let first = places_of(bytes, 0x54);
    let second = places_of(bytes, 0xC0);
    let both = places_of(bytes, 0xFC);
    if neither + first + second + both != 0xFFFF {
        return None;
    }
    Some(SixteenBits {
        s1: (first + both) as u16,
        s2: (second + both) as u16,
    })
}

/// Which of sixteen bytes are this one, as a number, the first byte the most significant.
#[inline(always)]
fn places_of(bytes: &[u8; 16], byte: u8) -> u64
    ensures value { result ≡ spelled_number (map (λ x. x == byte) bytes.now) }
    ensures small { result < 2 ^ 16 }
{
    let lanes = u8x16::from_array(*bytes).reverse();
    lanes.simd_eq(u8x16::splat(byte)).to_bitmask()
}
