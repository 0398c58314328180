//! What a node alone writes.
ghost use Rattle.std.specs.Prelude.{◌≡◌, ◌==◌, ◌++◌, ◌≤◌, ◌+◌, ℕ, length, map, take, if◌then◌else◌};
ghost use Rattle.lone_laws.specs.alone.Ends.{frame_written, bit_written};
ghost use Rattle.lone_laws.specs.alone.Ends.EndForm.{OnLine};
ghost use Rattle.one_end.specs.Writing.{form_named};

use arrayvec::ArrayVec;
use byte_link::append_unit;
use swp_base::Lpdu;
use swp_frame::{BitBytes, append_frame};
use swp_line::{Period, byte_of};

/// What the bytes are that a node alone reads and writes.
#[derive(Clone, Copy, Debug, PartialEq, Eq)]
pub enum Form {
    /// The record of a line.
    Line,
    /// A byte link.
    Bytes,
}

/// What a node alone writes for bytes that come one behind another.
pub type Output = ArrayVec<u8, 52_224>;

/// How much room in an output a byte asks for.
pub const ROOM: usize = 44_032;

/// Appends a frame as its end writes it: a unit of a byte link, or a period of a line for each bit, which the CLF writes as S1 and the
/// UICC as S2.
pub fn write_out(form: Form, is_clf: bool, lpdu: &Lpdu, out: &mut Output)
    requires room { length out.old.items + 323 ≤ 52224 }
    ensures written { (number : ℕ) → (number == 0) ≡ is_clf
        → out.new.items ≡ out.old.items ++ frame_written (form_named form) number lpdu.now }
    ensures sized { length out.new.items ≤ length out.old.items + 323 }
{
    match form {
        Form::Line => write_periods(is_clf, lpdu, out),
        Form::Bytes => append_unit(lpdu, out),
    }
}

/// Appends the periods of a frame.
fn write_periods(is_clf: bool, lpdu: &Lpdu, out: &mut Output)
    requires room { length out.old.items + 323 ≤ 52224 }
    ensures written { (number : ℕ) → (number == 0) ≡ is_clf → out.new.items ≡ out.old.items ++ frame_written OnLine number lpdu.now }
    ensures sized { length out.new.items ≤ length out.old.items + 323 }
{
    let periods = BitBytes {
        zero: period_of_bit(is_clf, false),
        one: period_of_bit(is_clf, true),
    };
    append_frame(lpdu, periods, out);
}

/// The period that carries a bit of one end, while the other end sends nothing.
fn period_of_bit(is_clf: bool, bit: bool) -> u8
    ensures { (number : ℕ) → (number == 0) ≡ is_clf → result ≡ bit_written number bit }
{
    if is_clf {
        byte_of(&Period::Bits { s1: bit, s2: false })
    } else {
        byte_of(&Period::Bits { s1: false, s2: bit })
    }
}
