//! A round of a link: each end takes all that stands on its wire then, and time passes once.
ghost use Rattle.std.specs.Prelude.{◌≡◌, ◌+◌, ◌<◌, ◌≤◌, ◌^◌, [], ◌∷◌, false, OnOk};
ghost use Rattle.trace_model.specs.Ends.{other_end};
ghost use Rattle.link_laws.specs.messages.Links.{Link};
ghost use Rattle.lines_told.specs.lines.Plays.{round_on, taking_on};
ghost use Rattle.world.specs.Lines.{SidesStandFor, DoesAll, HaveSent};

use crate::repeats::{take_frames, tick};
use crate::side::Side;
use std::alloc::AllocError;
use trace_model::{End, Entry};

// The end takes all frames that stand on the wire to it.
fn take_all(
    spare: &mut Vec<u8>,
    at: End,
    near: &mut Side,
    far: &mut Side,
    resets: &mut u32,
    entries: &mut Vec<Entry>,
) -> Result<(), AllocError>
    requires state { (l : Link) × SidesStandFor near.old far.old resets.old at l × HaveSent l 320000 }
    requires room { resets.old + 768 < 2 ^ 32 }
    ensures stands { (l : Link) → SidesStandFor near.old far.old resets.old at l → HaveSent l 320000
        → OnOk result (DoesAll near.new far.new resets.new at l (taking_on l at) entries.old.items entries.new.items) }
    ensures grows { resets.new ≤ resets.old + 768 }
{
    let times = near.wire.len();
    take_frames(spare, at, times, near, far, resets, entries)
}

/// A round, seen from the controller's end, which takes first what stands on its wire.
///
/// # Errors
///
/// No memory is left; what the sides stand for then isn't said.
pub(crate) fn play_round(
    spare: &mut Vec<u8>,
    at: End,
    near: &mut Side,
    far: &mut Side,
    resets: &mut u32,
    entries: &mut Vec<Entry>,
) -> Result<(), AllocError>
    requires state { (l : Link) × SidesStandFor near.old far.old resets.old at l × HaveSent l 320000 }
    requires controller { at.at_host ≡ false }
    requires room { resets.old + 1560 < 2 ^ 32 }
    requires nothing { entries.old.items ≡ [] }
    ensures { (l : Link) → SidesStandFor near.old far.old resets.old at l → HaveSent l 320000
        → OnOk result (DoesAll near.new far.new resets.new at l (round_on at.link l (at ∷ other_end at ∷ [])) [] entries.new.items) }
{
    take_all(spare, at, near, far, resets, entries)?;
    take_all(spare, at.other(), far, near, resets, entries)?;
    tick(at, near, far, resets, entries)
}
