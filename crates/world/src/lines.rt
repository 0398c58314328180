//! What a line does on a link, and what is noted of it: the near side is that of the end that the line speaks of.
ghost use Rattle.std.specs.Prelude.{◌≡◌, ◌+◌, ◌<◌, ◌≤◌, ◌^◌, [], length, OnOk, IfSome};
ghost use Rattle.hcp_packet.specs.Packets.{IsSendable};
ghost use Rattle.trace_model.specs.declared.line.Line.TheVariants as line;
ghost use Rattle.link_laws.specs.messages.Links.{Link};
ghost use Rattle.history.specs.Follows.{machine_of};
ghost use Rattle.world.specs.Lines.{SidesStandFor, Does};

use crate::side::Side;
use crate::steps::send_all;
use link_wires::lose_first;
use std::alloc::AllocError;
use std::mem::replace;
use trace_model::{End, Entry, LostCause, NoCause, Octets};

/// A line `send`: the message, which isn't empty, is given to the end to send on a pipe of 0 to 111, or the line is refused.
pub(crate) fn send_line(
    at: End,
    near: &mut Side,
    far: &mut Side,
    resets: &mut u32,
    pid: u8,
    message: &Octets,
    spare: &mut Vec<u8>,
    entries: &mut Vec<Entry>,
) -> Result<(), AllocError>
    requires state { (l : Link) × SidesStandFor near.old far.old resets.old at l }
    requires sendable { IsSendable (pid, message.now) }
    requires room { resets.old + 12 < 2 ^ 32 }
    requires nothing { entries.old.items ≡ [] }
    ensures stands { (l : Link) → SidesStandFor near.old far.old resets.old at l
        → OnOk result (Does near.new far.new resets.new at l (line.Send at pid message.now) entries.new.items) }
    ensures grows { resets.new ≤ resets.old + 12 }
{
    let refused = near.node.give(pid, message.as_slice());
    if let Some(cause) = refused {
        entries.push(Entry::No { cause })?;
        return Ok(());
    }
    let alloc = *spare.allocator();
    let mut bytes = replace(spare, Vec::new(alloc));
    bytes.clear();
    bytes.extend_from_slice(message.as_slice())?;
    entries.push(Entry::Sent {
        at,
        session: near.session(),
        pid,
        message: Octets { bytes },
    })?;
    send_all(at, near, far, resets, entries)
}

/// A line `reset`: a reset is asked for at the end, with a window of 1 to 4 or with the end's own one, or the line is refused.
pub(crate) fn reset_line(
    at: End,
    near: &mut Side,
    far: &mut Side,
    resets: &mut u32,
    window: Option<u8>,
    entries: &mut Vec<Entry>,
) -> Result<(), AllocError>
    requires state { (l : Link) × SidesStandFor near.old far.old resets.old at l × (length (machine_of l at).sent < 2 ^ 32) }
    requires window { IfSome window (λ w. (1 ≤ w) × (w ≤ 4)) }
    requires room { resets.old + 12 < 2 ^ 32 }
    requires nothing { entries.old.items ≡ [] }
    ensures stands { (l : Link) → SidesStandFor near.old far.old resets.old at l → length (machine_of l at).sent < 2 ^ 32
        → OnOk result (Does near.new far.new resets.new at l (line.Reset at window) entries.new.items) }
    ensures grows { resets.new ≤ resets.old + 12 }
{
    let place = near.place(at);
    if let Some(cause) = near.node.reset(place, window, entries)? {
        entries.push(Entry::No { cause })?;
        return Ok(());
    }
    send_all(at, near, far, resets, entries)
}

/// A line `lose`: the first frame on the wire to the end is lost, or the line is refused where there is none.
pub(crate) fn lose_line(
    at: End,
    near: &mut Side,
    far: &Side,
    resets: u32,
    entries: &mut Vec<Entry>,
) -> Result<(), AllocError>
    requires nothing { entries.old.items ≡ [] }
    ensures stands { (l : Link) → SidesStandFor near.old far.now resets at l
        → OnOk result (Does near.new far.now resets at l (line.Lose at) entries.new.items) }
{
    if near.wire.is_empty() {
        entries.push(Entry::No {
            cause: NoCause::Empty,
        })?;
        return Ok(());
    }
    lose_first(at, LostCause::Asked, &mut near.wire, entries)
}
