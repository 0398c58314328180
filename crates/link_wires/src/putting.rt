//! A frame goes out of an end of a link, or the first one on the way to an end is lost.
ghost use Rattle.std.specs.Prelude.{◌≡◌, ℕ, ◌+◌, ◌<◌, ◌≤◌, ◌^◌, List, Ok, drop, OnOk};
ghost use Rattle.swp_base.specs.declared.control_frames.Control.{Control as Frame};
ghost use Rattle.swp_lpdu.specs.Controls.{lpdu_of, control_of};
ghost use Rattle.link_laws.specs.sessions.Sessions.{OnWire};
ghost use Rattle.link_laws.specs.messages.Links.{Link, Loss, put};
ghost use Rattle.link_laws.specs.entries.Entries.{put_entries, first_lost};
ghost use Rattle.history.specs.Steps.{lost_as};
ghost use Rattle.link_wires.specs.Notes.{side_of, AreNoted};
ghost use Rattle.link_wires.specs.Wires.{WireStandsFor};
ghost use Rattle.link_wires.specs.Putting.{GoesOutOf};

use crate::wire::{Flying, is_reset};
use circular_buffer::HeapCircularBuffer;
use std::alloc::AllocError;
use swp_base::Lpdu;
use trace_model::{End, Entry, LostCause};

/// An end puts a frame on the wire to the other end of its link, where it stands last. Where the wire is full, the oldest frame on it is lost.
/// RSETs are numbered from 1 as they are put on their link.
///
/// # Errors
///
/// No memory is left for what is noted.
pub fn put_frame(
    at: End,
    lpdu: Lpdu,
    emitted: &mut u32,
    wire: &mut HeapCircularBuffer<Flying>,
    resets: &mut u32,
    entries: &mut Vec<Entry>,
) -> Result<(), AllocError>
    requires { resets.old + 1 < 2 ^ 32 }
    ensures stands { (l : Link) (c : Frame) → GoesOutOf emitted.old wire.old resets.old l → lpdu ≡ lpdu_of c → control_of lpdu ≡ Ok c
        → OnOk result (GoesOutOf emitted.new wire.new resets.new (put l c)
        × AreNoted at entries.old.items entries.new.items (put_entries (side_of at) l c)) }
    ensures grows { resets.new ≤ resets.old + 1 }
{
    let mut number = 0;
    if is_reset(&lpdu) {
        *resets += 1;
        *emitted = *resets;
        number = *resets;
    }
    entries.push(Entry::Emit {
        at,
        lpdu: lpdu.copied(),
    })?;
    let flying = Flying {
        lpdu,
        age: 0,
        number,
    };
    if let Some(lost) = wire.push_back(flying) {
        entries.push(Entry::Lost {
            at: at.other(),
            lpdu: lost.lpdu,
            cause: LostCause::Full,
        })?;
    }
    Ok(())
}

/// The first frame on the wire to an end is lost. Where there is none, nothing happens.
///
/// # Errors
///
/// No memory is left for what is noted.
pub fn lose_first(
    to: End,
    cause: LostCause,
    wire: &mut HeapCircularBuffer<Flying>,
    entries: &mut Vec<Entry>,
) -> Result<(), AllocError>
    ensures { (frames : List OnWire) (why : Loss) → WireStandsFor wire.old frames → cause ≡ lost_as why
        → OnOk result (WireStandsFor wire.new (drop 1 frames)
        × AreNoted to entries.old.items entries.new.items (first_lost (side_of to) why frames)) }
{
    if let Some(flying) = wire.pop_front() {
        entries.push(Entry::Lost {
            at: to,
            lpdu: flying.lpdu,
            cause,
        })?;
    }
    Ok(())
}
