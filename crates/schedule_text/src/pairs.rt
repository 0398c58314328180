//! The bytes that pairs of hexadecimal digits stand for, many at once.
ghost use Rattle.std.specs.Prelude.{◌≡◌, ◌<◌, Some, true, IfSome};
ghost use Rattle.std.specs.List.{list_all};
ghost use Rattle.hex.specs.Hex.{hex_digit_value, is_hex_digit};
ghost use Rattle.schedule_text.specs.Values.{bytes_value};
ghost use Rattle.schedule_text.specs.Pairs.{IsPairs};

use crate::rules::is_hex;
use crate::values::pair_of;
use std::mem::replace;

/// How many digits are read at once.
const AT_ONCE: usize = 32;

/// The bytes of pairs of hexadecimal digits, of either case, if there is memory for them. They lie in memory that is left over, which
/// goes where there are none. It takes a quarter of the instructions of the kit's decoder, which reads digit by digit.
#[inline(always)]
pub(crate) fn bytes_of(spare: &mut Vec<u8>, digits: &[u8]) -> Option<Vec<u8>>
    ensures { IfSome result (λ bytes. bytes_value digits.now ≡ Some bytes.items) }
{
    let alloc = *spare.allocator();
    let mut bytes = replace(spare, Vec::new(alloc));
    bytes.clear();
    let mut left = digits;
    'pieces: while let Some((piece, more)) = left.split_first_chunk::<AT_ONCE>() {
        if !all_hex(piece) {
            return None;
        }
        match bytes.extend_from_slice(&many_bytes(piece)) {
            Ok(()) => {}
            Err(_) => return None,
        }
        left = more;
    }
    'pairs: while let [high, low, more @ ..] = left {
        let byte = pair_of(*high, *low)?;
        match bytes.push(byte) {
            Ok(()) => {}
            Err(_) => return None,
        }
        left = more;
    }
    if left.is_empty() { Some(bytes) } else { None }
}

/// Whether all digits are hexadecimal. All of them are looked at, so that many are tested at once.
#[inline(always)]
fn all_hex(digits: &[u8; AT_ONCE]) -> bool
    ensures { result ≡ list_all is_hex_digit digits.now }
{
    let mut right = true;
    for digit in digits {
        right &= is_hex(*digit);
    }
    right
}

/// The bytes of pairs of hexadecimal digits.
#[inline(always)]
fn many_bytes(digits: &[u8; AT_ONCE]) -> [u8; 16]
    requires { list_all is_hex_digit digits.now ≡ true }
    ensures { IsPairs digits.now result }
{
    let mut bytes = [0; 16];
    'bytes: for i in 0..16 {
        bytes[i] = value_of(digits[2 * i]) * 16 + value_of(digits[2 * i + 1]);
    }
    bytes
}

/// The value of a hexadecimal digit, without a branch, so that many values are made at once.
#[inline(always)]
fn value_of(digit: u8) -> u8
    ensures value { is_hex_digit digit ≡ true → hex_digit_value digit ≡ Some result }
    ensures small { result < 16 }
{
    (digit % 16 + digit / 64 * 9) % 16
}
