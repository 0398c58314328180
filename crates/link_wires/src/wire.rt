//! The frames on the way to an end.
ghost use Rattle.std.specs.Prelude.{◌≡◌, ℕ, ◌+◌, ◌<◌, ◌≤◌, ◌^◌, [], ◌∷◌, ◌++◌, List, length, OnOk, OnSome, IfOk, IfSome, IfNone, Ok, IsTrue, ◌↔◌};
ghost use Rattle.swp_base.specs.declared.control_frames.Control.{Control as Frame};
ghost use Rattle.swp_lpdu.specs.Controls.{lpdu_of, control_of};
ghost use Rattle.link_laws.specs.sessions.Sessions.{OnWire, is_rset, aged_wire};
ghost use Rattle.history.specs.Follows.{taken_of};
ghost use Rattle.link_laws.specs.entries.Entries.{aged_entries, far};
ghost use Rattle.link_wires.specs.Notes.{side_of};
ghost use Rattle.link_wires.specs.Wires.{WireStandsFor};
ghost use Rattle.link_wires.specs.Notes.{AreNoted};

use circular_buffer::HeapCircularBuffer;
use std::alloc::{AllocError, Global};
use swp_base::{Lpdu, NoMemory};
use trace_model::{End, Entry, LostCause};

/// The most frames on one wire. This project's own.
const MOST: usize = 64;

/// The age in ticks at which a tick takes a frame away. This project's own.
const LIFE: u8 = 4;

/// The first byte of an RSET.
const RSET: u8 = 0xF9;

/// A frame on its way.
#[derive(Drop)]
pub struct Flying {
    /// Its bytes.
    pub lpdu: Lpdu,
    /// The ticks since it was put on the wire.
    pub age: u8,
    /// The number of an RSET among those of its link; 0 for any other frame.
    pub number: u32,
}

/// A wire without frames.
pub fn empty_wire(alloc: Global) -> Result<HeapCircularBuffer<Flying>, AllocError>
    ensures { IfOk result (λ wire. WireStandsFor wire []) }
{
    HeapCircularBuffer::with_capacity(alloc, MOST)
}

/// Whether a frame is an RSET.
pub fn is_reset(lpdu: &Lpdu) -> bool
    ensures { (c : Frame) → control_of lpdu.now ≡ Ok c → result ≡ is_rset c }
{
    lpdu.bytes()[0] == RSET
}

// The first frame on a wire to an end grows older by one tick and stands behind all others, or is lost where it is too old.
fn age_first(
    to: End,
    wire: &mut HeapCircularBuffer<Flying>,
    entries: &mut Vec<Entry>,
) -> Result<(), AllocError>
    ensures { (x : OnWire) (frames : List OnWire) → WireStandsFor wire.old (x ∷ frames)
        → OnOk result (WireStandsFor wire.new (frames ++ aged_wire (x ∷ []))
        × AreNoted to entries.old.items entries.new.items (aged_entries (side_of to) (x ∷ []))) }
{
    let Some(flying) = wire.pop_front() else {
        return Ok(());
    };
    if flying.age >= LIFE {
        entries.push(Entry::Lost {
            at: to,
            lpdu: flying.lpdu,
            cause: LostCause::Age,
        })?;
        return Ok(());
    }
    let older = Flying {
        lpdu: flying.lpdu,
        age: flying.age + 1,
        number: flying.number,
    };
    let _none = wire.push_back(older);
    Ok(())
}

/// All frames on a wire to an end grow older by one tick, and those that are too old are lost.
pub fn grow_older(
    to: End,
    wire: &mut HeapCircularBuffer<Flying>,
    entries: &mut Vec<Entry>,
) -> Result<(), AllocError>
    ensures { (frames : List OnWire) → WireStandsFor wire.old frames
        → OnOk result (WireStandsFor wire.new (aged_wire frames) × AreNoted to entries.old.items entries.new.items (aged_entries (side_of to) frames)) }
{
    for _ in 0..wire.len() {
        age_first(to, wire, entries)?;
    }
    Ok(())
}

/// How many frames a line takes of so many on a wire: that many, or all.
pub fn taken(count: Option<u8>, on_wire: usize) -> usize
    ensures { (wire : List OnWire) → length wire ≡ on_wire → result ≡ taken_of count wire }
{
    match count {
        None => on_wire,
        Some(most) => usize::from(most).min(on_wire),
    }
}
