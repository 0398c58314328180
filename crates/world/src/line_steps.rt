//! What each line does, seen from the end that it speaks of.
ghost use Rattle.std.specs.Prelude.{◌≡◌, ◌+◌, ◌<◌, ◌≤◌, ◌^◌, [], OnOk, OnErr, None, false};
ghost use Rattle.trace_model.specs.declared.line.Header.{Header};
ghost use Rattle.trace_model.specs.declared.line.Line.TheVariants as line;
ghost use Rattle.trace_model.specs.declared.line.End.{End as NamedEnd};
ghost use Rattle.trace_model.specs.Lines.{IsLineOf};
ghost use Rattle.link_laws.specs.messages.Links.{Link};
ghost use Rattle.history.specs.Follows.{misread};
ghost use Rattle.world.specs.Lines.{SidesStandFor, Does, HaveSent, IsMisread, end_for};

use crate::damage_line::damage_line;
use crate::lines::{lose_line, reset_line, send_line};
use crate::repeats::{deliver_line, tick_line};
use crate::side::Side;
use crate::steps::set_ready;
use link_wires::Misread;
use std::alloc::AllocError;
use trace_model::{End, Entry, Line};

/// The end that a line speaks of; where it speaks of none, the controller's.
pub(crate) fn end_of(line: &Line, controller: End) -> End
    ensures { result ≡ end_for controller line.now }
{
    match line {
        Line::Send { at, .. } => *at,
        Line::Deliver { at, .. } => *at,
        Line::Lose { at } => *at,
        Line::Damage { at, .. } => *at,
        Line::Reset { at, .. } => *at,
        Line::Busy { at } => *at,
        Line::Ready { at } => *at,
        _ => controller,
    }
}

/// Plays a line on a link, seen from the end that it speaks of; the near side is that of this end. Where the line damages a frame
/// so that another one is read in its place, both are put into `other`, which was none before, and nothing happens.
pub(crate) fn play_line(
    spare: &mut Vec<u8>,
    line: &Line,
    at: End,
    near: &mut Side,
    far: &mut Side,
    resets: &mut u32,
    entries: &mut Vec<Entry>,
    other: &mut Option<Misread>,
) -> Result<(), AllocError>
    requires state { (l : Link) × SidesStandFor near.old far.old resets.old at l × HaveSent l 320000 }
    requires line { (header : Header) × IsLineOf header line.now }
    requires seen { (controller : NamedEnd) × (controller.at_host ≡ false) × (at ≡ end_for controller line.now) }
    requires room { resets.old + 2400 < 2 ^ 32 }
    requires nothing { entries.old.items ≡ [] }
    requires none { other.old ≡ None }
    ensures stands { (l : Link) → SidesStandFor near.old far.old resets.old at l → HaveSent l 320000
        → OnOk result (other.new ≡ None → Does near.new far.new resets.new at l line.now entries.new.items) }
    ensures misread { (l : Link) → SidesStandFor near.old far.old resets.old at l → OnOk result (IsMisread l line.now other.new) }
    ensures told { (l : Link) → SidesStandFor near.old far.old resets.old at l → OnErr result (misread l line.now ≡ None) }
    ensures grows { resets.new ≤ resets.old + 2400 }
{
    match line {
        Line::Send { pid, message, .. } => send_line(
            at, near, far, resets, *pid, message, spare, entries,
        ),
        Line::Deliver { count, .. } => deliver_line(spare, at, *count, near, far, resets, entries),
        Line::Lose { .. } => lose_line(at, near, far, *resets, entries),
        Line::Damage { places, .. } => {
            damage_line(spare, at, places, near, far, resets, entries, other)
        }
        Line::Tick { times } => tick_line(at, *times, near, far, resets, entries),
        Line::Reset { window, .. } => reset_line(at, near, far, resets, *window, entries),
        Line::Busy { .. } => set_ready(at, near, far, resets, false, entries),
        Line::Ready { .. } => set_ready(at, near, far, resets, true, entries),
        Line::Boot { .. } => Ok(()),
        Line::Cut { .. } => Ok(()),
        Line::Activate { .. } => Ok(()),
        Line::Arm { .. } => Ok(()),
        Line::Init { .. } => Ok(()),
        Line::Tables { .. } => Ok(()),
        Line::Settle { .. } => Ok(()),
    }
}
