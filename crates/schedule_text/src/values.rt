//! What one word of a line stands for.
ghost use Rattle.std.specs.Prelude.{◌≡◌, ◌<◌, ◌≤◌, [], ◌∷◌, length, nat_le, Some, IfSome};
ghost use Rattle.hex.specs.Hex.{hex_digit_value};
ghost use Rattle.std.specs.Option.{option_map};
ghost use Rattle.schedule_text.specs.Values.{byte_value, bytes_value, sized_value, two_bytes_value, end_value, number_in, digits_number, option_if, side_value};

use arrayvec::ArrayVec;
use trace_model::End;

/// The byte of two hexadecimal digits, of either case.
#[inline]
pub(crate) fn byte_of(word: &[u8]) -> Option<u8>
    ensures { result ≡ byte_value word.now }
{
    match word {
        [high, low] => pair_of(*high, *low),
        _ => None,
    }
}

#[inline(always)]
pub(crate) fn pair_of(high: u8, low: u8) -> Option<u8>
    ensures { result ≡ byte_value (high ∷ low ∷ []) }
{
    let first = digit_of(high)?;
    let second = digit_of(low)?;
    Some(first * 16 + second)
}

/// The value of a hexadecimal digit, of either case.
#[inline(always)]
fn digit_of(digit: u8) -> Option<u8>
    ensures value { result ≡ hex_digit_value digit }
    ensures small { IfSome result (λ n. n < 16) }
{
    match digit {
        b'0'..=b'9' => Some(digit - b'0'),
        b'A'..=b'F' => Some(digit - (b'A' - 10)),
        b'a'..=b'f' => Some(digit - (b'a' - 10)),
        _ => None,
    }
}

/// The end that a word names, as `02c` or `02h`.
#[inline(always)]
pub(crate) fn end_of(word: &[u8]) -> Option<End>
    ensures { result ≡ end_value word.now }
{
    match word {
        [high, low, letter] => {
            let link = pair_of(*high, *low)?;
            let at_host = side_of(*letter)?;
            Some(End { link, at_host })
        }
        _ => None,
    }
}

/// Whether the letter of a side names the host's end.
pub(crate) fn side_of(letter: u8) -> Option<bool>
    ensures { result ≡ side_value letter }
{
    match letter {
        b'c' => Some(false),
        b'h' => Some(true),
        _ => None,
    }
}

/// The bytes of sixteen hexadecimal digits.
pub(crate) fn eight_of(word: &[u8]) -> Option<[u8; 8]>
    ensures { result ≡ sized_value 8 word.now }
{
    let mut bytes = [0u8; 8];
    match hex::decode_to_slice(word, &mut bytes) {
        Ok(()) => Some(bytes),
        Err(_) => None,
    }
}

/// The bytes of six hexadecimal digits.
pub(crate) fn three_of(word: &[u8]) -> Option<[u8; 3]>
    ensures { result ≡ sized_value 3 word.now }
{
    let mut bytes = [0u8; 3];
    match hex::decode_to_slice(word, &mut bytes) {
        Ok(()) => Some(bytes),
        Err(_) => None,
    }
}

/// The number of four hexadecimal digits.
pub(crate) fn two_of(word: &[u8]) -> Option<u16>
    ensures { result ≡ two_bytes_value word.now }
{
    let mut bytes = [0u8; 2];
    match hex::decode_to_slice(word, &mut bytes) {
        Ok(()) => {
            let [high, low] = bytes;
            Some(u16::from(high) * 256 + u16::from(low))
        }
        Err(_) => None,
    }
}

/// The bytes of up to 128 hexadecimal digits.
pub(crate) fn fill_of(word: &[u8]) -> Option<ArrayVec<u8, 64>>
    requires { IfSome (bytes_value word.now) (λ bytes. length bytes ≤ 64) }
    ensures { option_map (λ fill. fill.items) result ≡ bytes_value word.now }
{
    let mut bytes = [0u8; 64];
    let count = word.len() / 2;
    if count > 64 {
        return None;
    }
    let (front, _) = bytes.split_at_mut(count);
    match hex::decode_to_slice(word, front) {
        Ok(()) => kept(front),
        Err(_) => None,
    }
}

/// The bytes, of which there are 64 at most.
fn kept(bytes: &[u8]) -> Option<ArrayVec<u8, 64>>
    requires { length bytes.now ≤ 64 }
    ensures { option_map (λ fill. fill.items) result ≡ Some bytes.now }
{
    let mut fill = ArrayVec::new();
    match fill.try_extend_from_slice(bytes) {
        Ok(()) => Some(fill),
        Err(_) => None,
    }
}

/// The decimal number of a word, without leading zero, if it is from `low` to `high`.
pub(crate) fn number_of(word: &[u8], low: u32, high: u16) -> Option<u16>
    ensures { result ≡ number_in low high word.now }
{
    if word.is_empty() || (word[0] == b'0' && word.len() > 1) {
        return None;
    }
    let number = number_up_to(word, high)?;
    if u32::from(number) < low {
        None
    } else {
        Some(number)
    }
}

/// The number that decimal digits write, if it is at most `high`.
fn number_up_to(word: &[u8], high: u16) -> Option<u16>
    ensures { result ≡ option_if (λ n. nat_le n high) (digits_number word.now) }
{
    let mut number: u16 = 0;
    for digit in word {
        if !digit.is_ascii_digit() {
            return None;
        }
        let next = u32::from(number) * 10 + u32::from(*digit - b'0');
        if next > u32::from(high) {
            return None;
        }
        number = next as u16;
    }
    Some(number)
}
