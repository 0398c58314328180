//! What happens at one end of a link, the near one, and what is noted of it. All of it is this project's own: two sides stand for
//! a link, of which at most 2^32 - 12 RSETs may have been put on their wires before a step.
ghost use Rattle.std.specs.Prelude.{◌+◌, ◌<◌, ◌≤◌, ◌^◌, [], ◌∷◌, length, not, OnOk};
ghost use Rattle.link_laws.specs.machine.Machine.{LinkEnd as Machine, frames_out};
ghost use Rattle.link_laws.specs.machine.Machine.Turn.{Hold, FetchMessage};
ghost use Rattle.link_laws.specs.messages.Links.{Link, becomes, ticks_at_controller};
ghost use Rattle.link_laws.specs.messages.Links.Ending.{GoesOut};
ghost use Rattle.link_laws.specs.messages.Links.Comes.{NextFrame, NoInput};
ghost use Rattle.link_laws.specs.messages.Links.EndEvent.{Step};
ghost use Rattle.link_laws.specs.entries.Entries.{puts_entries, tick_entries};
ghost use Rattle.history.specs.Steps.{idle};
ghost use Rattle.link_wires.specs.Notes.{side_of};
ghost use Rattle.world.specs.Sides.{LinkStandsFor, IsMidway, HasHappened};
ghost use Rattle.link_wires.specs.Notes.{AreNoted};

use crate::side::Side;
use link_wires::put_frame;
use std::alloc::AllocError;
use swp_lpdu::read_lpdu;
use trace_model::{End, Entry};

/// The most frames that a bare end sends at one moment: 8 control frames and 4 fragments.
const MOST_FRAMES: u8 = 12;

/// The end of the near side sends all that is due.
///
/// # Errors
///
/// No memory is left; what the sides stand for then isn't said.
pub(crate) fn send_all(
    at: End,
    near: &mut Side,
    far: &mut Side,
    resets: &mut u32,
    entries: &mut Vec<Entry>,
) -> Result<(), AllocError>
    requires state { (l : Link) × (m : Machine) × IsMidway near.old far.old resets.old l m }
    requires room { resets.old + 12 < 2 ^ 32 }
    ensures stands { (l : Link) (m : Machine) → IsMidway near.old far.old resets.old l m
        → OnOk result (LinkStandsFor near.new far.new resets.new (becomes l m)
        × AreNoted at entries.old.items entries.new.items (puts_entries (side_of at) l (frames_out m))) }
    ensures grows { resets.new ≤ resets.old + 12 }
{
    for _ in 0..MOST_FRAMES {
        let Some(lpdu) = near.node.end.next_out(&near.node.pool) else {
            return Ok(());
        };
        put_frame(at, lpdu, &mut near.emitted, &mut far.wire, resets, entries)?;
    }
    Ok(())
}

/// The end takes the first frame on the wire to it, and the message that it brought is fetched. Where there is no frame, nothing
/// happens.
///
/// # Errors
///
/// No memory is left; what the sides stand for then isn't said.
pub(crate) fn take_frame(
    spare: &mut Vec<u8>,
    at: End,
    near: &mut Side,
    far: &mut Side,
    resets: &mut u32,
    entries: &mut Vec<Entry>,
) -> Result<(), AllocError>
    requires state { (l : Link) × LinkStandsFor near.old far.old resets.old l × (length l.controller.side.sent < 2 ^ 32) }
    requires room { resets.old + 12 < 2 ^ 32 }
    ensures stands { (l : Link) → LinkStandsFor near.old far.old resets.old l → length l.controller.side.sent < 2 ^ 32
        → OnOk result (HasHappened near.new far.new resets.new l (Step NextFrame (FetchMessage ∷ []) GoesOut) at entries.old.items entries.new.items) }
    ensures grows { resets.new ≤ resets.old + 12 }
{
    let Some(flying) = near.wire.pop_front() else {
        return Ok(());
    };
    let read = read_lpdu(&flying.lpdu);
    entries.push(Entry::Took {
        at,
        lpdu: flying.lpdu,
    })?;
    near.took = near.took.max(flying.number);
    let place = near.place(at);
    near.node.take(spare, place, &read, entries)?;
    send_all(at, near, far, resets, entries)
}

/// The end has its tick.
///
/// # Errors
///
/// No memory is left; what the sides stand for then isn't said.
pub(crate) fn tick_end(
    at: End,
    near: &mut Side,
    far: &mut Side,
    resets: &mut u32,
    entries: &mut Vec<Entry>,
) -> Result<(), AllocError>
    requires state { (l : Link) × LinkStandsFor near.old far.old resets.old l × (length l.controller.side.sent < 2 ^ 32) }
    requires room { resets.old + 12 < 2 ^ 32 }
    ensures stands { (l : Link) → LinkStandsFor near.old far.old resets.old l → length l.controller.side.sent < 2 ^ 32
        → OnOk result (LinkStandsFor near.new far.new resets.new (ticks_at_controller l [] GoesOut)
        × AreNoted at entries.old.items entries.new.items (tick_entries (side_of at) l idle)) }
    ensures grows { resets.new ≤ resets.old + 12 }
{
    if near.node.is_idle() {
        return Ok(());
    }
    let place = near.place(at);
    near.node.tick(place, entries)?;
    send_all(at, near, far, resets, entries)
}

/// The end is ready for fragments from now on, or it isn't.
///
/// # Errors
///
/// No memory is left; what the sides stand for then isn't said.
pub(crate) fn set_ready(
    at: End,
    near: &mut Side,
    far: &mut Side,
    resets: &mut u32,
    ready: bool,
    entries: &mut Vec<Entry>,
) -> Result<(), AllocError>
    requires state { (l : Link) × LinkStandsFor near.old far.old resets.old l }
    requires room { resets.old + 12 < 2 ^ 32 }
    ensures stands { (l : Link) → LinkStandsFor near.old far.old resets.old l
        → OnOk result (HasHappened near.new far.new resets.new l (Step NoInput (Hold (not ready) ∷ []) GoesOut) at entries.old.items entries.new.items) }
    ensures grows { resets.new ≤ resets.old + 12 }
{
    near.node.hold(!ready);
    send_all(at, near, far, resets, entries)
}
