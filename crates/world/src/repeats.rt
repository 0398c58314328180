//! Lines on which the same happens again and again: frames are taken one after another, and time passes tick by tick.
ghost use Rattle.std.specs.Prelude.{◌≡◌, ℕ, ◌+◌, ◌*◌, ◌<◌, ◌≤◌, ◌^◌, [], List, length, false, OnOk, IfSome};
ghost use Rattle.trace_model.specs.declared.line.Line.TheVariants as line;
ghost use Rattle.link_laws.specs.messages.Links.{Link};
ghost use Rattle.history.specs.Histories.Cause.{Taken, Ticked};
ghost use Rattle.world.specs.Lines.{SidesStandFor, Does, HasCaused, HasRepeated, HaveSent};

use crate::side::Side;
use crate::steps::{take_frame, tick_end};
use link_wires::{grow_older, taken};
use std::alloc::AllocError;
use trace_model::{End, Entry, NoCause};

/// The end takes so many of the frames that stand on the wire to it, one after another.
pub(crate) fn take_frames(
    spare: &mut Vec<u8>,
    at: End,
    times: usize,
    near: &mut Side,
    far: &mut Side,
    resets: &mut u32,
    entries: &mut Vec<Entry>,
) -> Result<(), AllocError>
    requires state { (l : Link) × SidesStandFor near.old far.old resets.old at l × HaveSent l 320000 }
    requires times { times ≤ 64 }
    requires room { resets.old + 768 < 2 ^ 32 }
    ensures stands { (l : Link) → SidesStandFor near.old far.old resets.old at l → HaveSent l 320000
        → OnOk result (HasRepeated near.new far.new resets.new at l (Taken at) times entries.old.items entries.new.items) }
    ensures grows { resets.new ≤ resets.old + 768 }
{
    for _ in 0..times {
        take_frame(spare, at, near, far, resets, entries)?;
    }
    Ok(())
}

/// A line `deliver`: the end takes so many of the frames that stand on the wire to it, or all of them, or the line is refused
/// where there is none.
pub(crate) fn deliver_line(
    spare: &mut Vec<u8>,
    at: End,
    count: Option<u8>,
    near: &mut Side,
    far: &mut Side,
    resets: &mut u32,
    entries: &mut Vec<Entry>,
) -> Result<(), AllocError>
    requires state { (l : Link) × SidesStandFor near.old far.old resets.old at l × HaveSent l 320000 }
    requires room { resets.old + 768 < 2 ^ 32 }
    requires nothing { entries.old.items ≡ [] }
    ensures stands { (l : Link) → SidesStandFor near.old far.old resets.old at l → HaveSent l 320000
        → OnOk result (Does near.new far.new resets.new at l (line.Deliver at count) entries.new.items) }
    ensures grows { resets.new ≤ resets.old + 768 }
{
    if near.wire.is_empty() {
        entries.push(Entry::No {
            cause: NoCause::Empty,
        })?;
        return Ok(());
    }
    let times = taken(count, near.wire.len());
    take_frames(spare, at, times, near, far, resets, entries)
}

/// One tick of the link, seen from the controller's end: all frames grow older, and then each end has its tick.
pub(crate) fn tick(
    at: End,
    near: &mut Side,
    far: &mut Side,
    resets: &mut u32,
    entries: &mut Vec<Entry>,
) -> Result<(), AllocError>
    requires state { (l : Link) × SidesStandFor near.old far.old resets.old at l × HaveSent l 320000 }
    requires controller { at.at_host ≡ false }
    requires room { resets.old + 24 < 2 ^ 32 }
    ensures stands { (l : Link) → SidesStandFor near.old far.old resets.old at l → HaveSent l 320000
        → OnOk result (HasCaused near.new far.new resets.new at l Ticked entries.old.items entries.new.items) }
    ensures grows { resets.new ≤ resets.old + 24 }
{
    grow_older(at, &mut near.wire, entries)?;
    grow_older(at.other(), &mut far.wire, entries)?;
    tick_end(at, near, far, resets, entries)?;
    tick_end(at.other(), far, near, resets, entries)
}

/// A line `tick`, seen from the controller's end: time passes, one tick or as many as the line says.
pub(crate) fn tick_line(
    at: End,
    times: Option<u8>,
    near: &mut Side,
    far: &mut Side,
    resets: &mut u32,
    entries: &mut Vec<Entry>,
) -> Result<(), AllocError>
    requires state { (l : Link) × SidesStandFor near.old far.old resets.old at l × HaveSent l 320000 }
    requires controller { at.at_host ≡ false }
    requires few { IfSome times (λ n. n ≤ 100) }
    requires room { resets.old + 2400 < 2 ^ 32 }
    requires nothing { entries.old.items ≡ [] }
    ensures stands { (l : Link) → SidesStandFor near.old far.old resets.old at l → HaveSent l 320000
        → OnOk result (Does near.new far.new resets.new at l (line.Tick times) entries.new.items) }
    ensures grows { resets.new ≤ resets.old + 2400 }
{
    for _ in 0..times.unwrap_or(1) {
        tick(at, near, far, resets, entries)?;
    }
    Ok(())
}
