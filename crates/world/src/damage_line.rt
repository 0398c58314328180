//! A line that damages a frame.
ghost use Rattle.std.specs.Prelude.{◌≡◌, ℕ, ◌+◌, ◌<◌, ◌≤◌, ◌^◌, [], List, length, OnOk, OnErr, None};
ghost use Rattle.trace_model.specs.declared.line.Line.TheVariants as line;
ghost use Rattle.link_laws.specs.messages.Links.{Link};
ghost use Rattle.history.specs.Follows.{machine_of, misread};
ghost use Rattle.world.specs.Lines.{SidesStandFor, Does, IsMisread};

use crate::side::Side;
use crate::steps::take_frame;
use arrayvec::ArrayVec;
use link_wires::{Damaged, Misread, damaged_first, lose_first};
use std::alloc::AllocError;
use trace_model::{End, Entry};

/// A line `damage`: the first frame on the wire to the end is taken as it was, or lost, or the line is refused. Where another
/// frame is read in its place, both are put into `other`, which was none before, and nothing happens.
pub(crate) fn damage_line(
    spare: &mut Vec<u8>,
    at: End,
    places: &ArrayVec<u16, 16>,
    near: &mut Side,
    far: &mut Side,
    resets: &mut u32,
    entries: &mut Vec<Entry>,
    other: &mut Option<Misread>,
) -> Result<(), AllocError>
    requires state { (l : Link) × SidesStandFor near.old far.old resets.old at l × (length (machine_of l at).sent < 2 ^ 32) }
    requires room { resets.old + 12 < 2 ^ 32 }
    requires nothing { entries.old.items ≡ [] }
    requires none { other.old ≡ None }
    ensures stands { (l : Link) → SidesStandFor near.old far.old resets.old at l → length (machine_of l at).sent < 2 ^ 32
        → OnOk result (other.new ≡ None → Does near.new far.new resets.new at l (line.Damage at places.now) entries.new.items) }
    ensures misread { (l : Link) → SidesStandFor near.old far.old resets.old at l
        → OnOk result (IsMisread l (line.Damage at places.now) other.new) }
    ensures told { (l : Link) → SidesStandFor near.old far.old resets.old at l
        → OnErr result (misread l (line.Damage at places.now) ≡ None) }
    ensures grows { resets.new ≤ resets.old + 12 }
{
    match damaged_first(&near.wire, places.as_slice()) {
        Damaged::Refused(cause) => {
            entries.push(Entry::No { cause })?;
            Ok(())
        }
        Damaged::Same => take_frame(spare, at, near, far, resets, entries),
        Damaged::Lost(cause) => lose_first(at, cause, &mut near.wire, entries),
        Damaged::Undetected(misread) => {
            *other = Some(misread);
            Ok(())
        }
    }
}
