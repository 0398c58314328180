//! What a byte link carries.
ghost use Rattle.std.specs.Prelude.{◌≡◌, ◌≤◌, ◌+◌, ◌++◌, ◌∷◌, [], length};
ghost use Rattle.byte_link.specs.Units.{unit_of};
ghost use Rattle.byte_link.specs.Reading.{units};

use arrayvec::ArrayVec;
use swp_base::{FrameFault, Lpdu};
use swp_crc::crc;

/// What one byte gave.
#[derive(Debug, Drop, PartialEq, Eq)]
pub enum Unit {
    /// No unit ended here.
    Nothing,
    /// A tick.
    Tick,
    /// A unit ended, and this is its LPDU.
    Frame(Lpdu),
    /// A unit was refused: its CRC differs, or its length is above 30 (`bits` is eight times it).
    Refused(FrameFault),
}

/// The unit of an LPDU.
pub fn write_unit(lpdu: &Lpdu) -> ArrayVec<u8, 34>
    ensures spelled { result.items ≡ unit_of lpdu.now }
    ensures read_again { units result.items ≡ Unit.Frame lpdu.now ∷ [] }
{
    spelled_unit(lpdu.bytes())
}

fn spelled_unit(bytes: &[u8]) -> ArrayVec<u8, 34>
    requires { length bytes.now ≤ 30 }
    ensures { result.items ≡ unit_of bytes.now }
{
    let mut unit = ArrayVec::new();
    append_spelled(bytes, &mut unit);
    unit
}

/// Appends the unit of an LPDU as `write_unit` spells it, at most 34 bytes.
pub fn append_unit<const N: usize>(lpdu: &Lpdu, out: &mut ArrayVec<u8, N>)
    requires room { length out.old.items + 34 ≤ N }
    ensures written { out.new.items ≡ out.old.items ++ unit_of lpdu.now }
    ensures sized { length out.new.items ≤ length out.old.items + 34 }
{
    append_spelled(lpdu.bytes(), out);
}

fn append_spelled<const N: usize>(bytes: &[u8], out: &mut ArrayVec<u8, N>)
    requires short { length bytes.now ≤ 30 }
    requires room { length out.old.items + length bytes.now + 4 ≤ N }
    ensures { out.new.items ≡ out.old.items ++ unit_of bytes.now }
{
    // Most acknowledgements have a single byte.
    if let [byte] = bytes {
        let [high, low] = crc(&[*byte]).to_be_bytes();
        append(&[0, 1, *byte, high, low], out);
        return;
    }
    append(&[0, bytes.len() as u8], out);
    append(bytes, out);
    append(&crc(bytes).to_be_bytes(), out);
}

/// Appends bytes for which there is room.
#[inline(always)]
fn append<const N: usize>(bytes: &[u8], out: &mut ArrayVec<u8, N>)
    requires room { length out.old.items + length bytes.now ≤ N }
    ensures { out.new.items ≡ out.old.items ++ bytes.now }
{
    let _fits = out.try_extend_from_slice(bytes);
}
