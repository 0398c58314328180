//! The shape of one period.
ghost use Rattle.std.specs.Prelude.{◌≡◌, ◌+◌, ◌*◌, ◌^◌, ◌≤◌, ◌<◌};
ghost use Rattle.line_capture.specs.Reading.{byte_of_shape, share, is_lone, shape_of, periods_off};

/// How long S1 is high in a period.
#[derive(Clone, Copy, Debug, PartialEq, Eq)]
pub enum Shape {
    /// For a quarter: a logical 0.
    Zero,
    /// For three quarters: a logical 1.
    One,
    /// Throughout: no bit.
    Whole,
    /// None of these.
    Neither,
}

/// The byte of a period of this shape.
pub(crate) fn byte_of(shape: Shape, s2: bool) -> u8
    ensures { result ≡ byte_of_shape shape s2 }
{
    match (shape, s2) {
        (Shape::Zero, false) => 0x40,
        (Shape::Zero, true) => 0xC0,
        (Shape::One, false) => 0x54,
        (Shape::One, true) => 0xFC,
        (Shape::Whole, false) => 0x55,
        (Shape::Whole, true) => 0xFF,
        (Shape::Neither, false) => 0x50,
        (Shape::Neither, true) => 0xF0,
    }
}

/// The bit of a period of `whole` that S1 is high for `high` of.
fn shape_by_share(high: u64, whole: u64) -> Shape
    requires high { high < 2 ^ 58 }
    requires whole { whole < 2 ^ 58 }
    ensures { result ≡ share high whole }
{
    if 2 * whole <= 16 * high && 16 * high < 7 * whole {
        Shape::Zero
    } else if 9 * whole < 16 * high && 16 * high <= 14 * whole {
        Shape::One
    } else {
        Shape::Neither
    }
}

/// Whether S1 was high for no more than a period, and high and low together for about one.
pub(crate) fn is_single(unit: u64, high: u64, whole: u64) -> bool
    requires { unit ≤ 2 ^ 32 }
    ensures { result ≡ is_lone unit high whole }
{
    high <= 16 * unit && 11 * unit < whole && whole < 21 * unit
}

/// The shape of the last period that began while S1 was high: S1 was high for `high` in all and for `tail` of that period, and
/// then low for `low`.
pub(crate) fn last_shape(unit: u64, high: u64, tail: u64, low: u64) -> Shape
    requires unit { unit ≤ 2 ^ 32 }
    requires tail { tail ≤ 18 * unit }
    requires whole { high + low < 2 ^ 63 }
    ensures { result ≡ shape_of unit high tail low }
{
    if is_single(unit, high, high + low) {
        shape_by_share(high, high + low)
    } else if low < 14 * unit {
        shape_by_share(16 * unit - low, 16 * unit)
    } else if 14 * unit < tail {
        Shape::Whole
    } else {
        shape_by_share(tail, 16 * unit)
    }
}

/// How many periods of a stretch of S1 low have no bit.
pub(crate) fn count_off(unit: u64, low: u64) -> u64
    requires some { 0 < unit }
    requires unit { unit ≤ 2 ^ 32 }
    requires low { low < 2 ^ 63 }
    ensures { result ≡ periods_off unit low }
{
    (low + 2 * unit) / (16 * unit)
}
