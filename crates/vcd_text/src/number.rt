//! Numbers of a text.

/// The number that these digits are, where there is one below 2^64.
pub(crate) fn number_of(digits: &[u8]) -> Option<u64> {
    if digits.is_empty() {
        return None;
    }
    let mut number = 0u64;
    for digit in digits {
        if !digit.is_ascii_digit() {
            return None;
        }
        number = number
            .checked_mul(10)?
            .checked_add(u64::from(*digit - b'0'))?;
    }
    Some(number)
}

/// How many femtoseconds a time scale has, such as `10ns`; none for what is no time scale.
pub(crate) fn femtoseconds_of(scale: &[u8]) -> Option<u64> {
    let (count, unit) = match scale {
        [b'1', b'0', b'0', unit @ ..] => (100, unit),
        [b'1', b'0', unit @ ..] => (10, unit),
        [b'1', unit @ ..] => (1, unit),
        _ => return None,
    };
    let of_unit = match unit {
        b"s" => 1_000_000_000_000_000,
        b"ms" => 1_000_000_000_000,
        b"us" => 1_000_000_000,
        b"ns" => 1_000_000,
        b"ps" => 1000,
        b"fs" => 1,
        _ => return None,
    };
    Some(count * of_unit)
}
