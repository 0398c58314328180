//! The wires of a link of the world, with the numbers of RSETs that its ends know.
ghost use Rattle.std.specs.Prelude.{◌≡◌, List, OnOk};
ghost use Rattle.link_laws.specs.sessions.Sessions.{OnWire, aged_wire};
ghost use Rattle.link_laws.specs.entries.Entries.{aged_entries};
ghost use Rattle.link_wires.specs.Notes.{side_of, AreNoted};
ghost use Rattle.link_wires.specs.Wires.{WireStandsFor};

use crate::incoming::{Arrived, Incoming};
use circular_buffer::HeapCircularBuffer;
use link_wires::{Damaged, Flying, damaged_first, empty_wire, grow_older, lose_first, put_frame};
use std::alloc::{AllocError, Global};
use swp_base::Lpdu;
use swp_lpdu::read_lpdu;
use trace_model::{End, Entry, LostCause};

/// What is kept of one end of a link beside its machine.
#[derive(Drop)]
pub struct WireEnd {
    /// The frames on the way to the end, the oldest first.
    pub wire: HeapCircularBuffer<Flying>,
    /// The greatest number of an RSET that the end put on the link; 0 where there is none.
    pub emitted: u32,
    /// The greatest number of an RSET that it took; 0 where there is none.
    pub took: u32,
}

/// What is kept of a link beside the machines of its ends.
#[derive(Drop)]
pub struct Wires {
    pub controller: WireEnd,
    pub host: WireEnd,
    /// How many RSETs were put on the link.
    pub resets: u32,
}

impl WireEnd {
    ghost use Rattle.std.specs.Prelude.{◌≡◌, [], IfOk, max};
    ghost use Rattle.link_laws.specs.machine.Machine.{LinkEnd};
    ghost use Rattle.link_laws.specs.messages.Links.{Link, new_numbered_end};
    ghost use Rattle.node_sites.specs.LinksKept.{WireEndIs, without_first, IsTakenFirst};

    // An end that put and took no RSET yet, with no frame on the way to it.
    fn make(alloc: Global) -> Result<WireEnd, AllocError>
        ensures { (e : LinkEnd) → IfOk result (λ k. WireEndIs k (new_numbered_end e) []) }
    {
        Ok(WireEnd {
            wire: empty_wire(alloc)?,
            emitted: 0,
            took: 0,
        })
    }

    /// The number of its session: the greatest of an RSET that it put on the link or took.
    pub fn session(&self) -> u32
        ensures { result ≡ max self.now.emitted self.now.took }
    {
        self.emitted.max(self.took)
    }

    // The first frame on the way to the end, which has this name, is taken, and noted: what has come, or `None` where there is none.
    #[inline(always)]
    fn take_first(
        &mut self,
        at: End,
        entries: &mut Vec<Entry>,
    ) -> Result<Option<Arrived>, AllocError>
        ensures { (l : Link) → WireEndIs self.old l.controller l.to_controller
            → IfOk result (IsTakenFirst at l (WireEndIs self.new (without_first l).controller (without_first l).to_controller)
            entries.old.items entries.new.items) }
    {
        let Some(flying) = self.wire.pop_front() else {
            return Ok(None);
        };
        let read = read_lpdu(&flying.lpdu);
        entries.push(Entry::Took {
            at,
            lpdu: flying.lpdu,
        })?;
        self.took = self.took.max(flying.number);
        Ok(Some(Arrived::Frame(read)))
    }
}

// All frames on a wire to an end grow older by one tick, and those that are too old are lost. Most wires are empty.
fn age_wire(
    to: End,
    wire: &mut HeapCircularBuffer<Flying>,
    entries: &mut Vec<Entry>,
) -> Result<(), AllocError>
    ensures { (frames : List OnWire) → WireStandsFor wire.old frames
        → OnOk result (WireStandsFor wire.new (aged_wire frames) × AreNoted to entries.old.items entries.new.items (aged_entries (side_of to) frames)) }
{
    if wire.is_empty() {
        return Ok(());
    }
    grow_older(to, wire, entries)
}

impl Wires {
    ghost use Rattle.std.specs.Prelude.{◌≡◌, ◌+◌, ◌<◌, ◌^◌, ◌≤◌, ◌++◌, List, ℕ, length, Ok, IfOk, OnOk};
    ghost use Rattle.swp_base.specs.declared.control_frames.Control.{Control as Frame};
    ghost use Rattle.swp_lpdu.specs.Controls.{lpdu_of, control_of};
    ghost use Rattle.link_laws.specs.machine.Machine.{Role};
    ghost use Rattle.link_laws.specs.messages.Links.{Link, Loss, new_link, aged, happens, put};
    ghost use Rattle.link_laws.specs.messages.Links.EndEvent.{Lose};
    ghost use Rattle.link_laws.specs.entries.Entries.{aged_entries, first_lost, put_entries};
    ghost use Rattle.link_laws.specs.entries.Entries.End.{Controller, Host};
    ghost use Rattle.history.specs.Steps.{at, entries_for, lost_as};
    ghost use Rattle.history.specs.Follows.{seen_from, frames_to};
    ghost use Rattle.link_wires.specs.Notes.{side_of, AreNoted};
    ghost use Rattle.link_wires.specs.Damages.{Finds};
    ghost use Rattle.node_sites.specs.Arrivals.{ComesToEnd};
    ghost use Rattle.node_sites.specs.LinksKept.{WiresStandFor, with_bare_wires};

    /// The wires of a new link: no frame stands on them.
    ///
    /// # Errors
    ///
    /// No memory is left.
    pub fn make(alloc: Global) -> Result<Wires, AllocError>
        ensures { (c h : Role) → IfOk result (λ k. WiresStandFor k (new_link c h)) }
    {
        Ok(Wires {
            controller: WireEnd::make(alloc)?,
            host: WireEnd::make(alloc)?,
            resets: 0,
        })
    }

    /// The frames on both wires of the link with this host grow older by one tick, and those that are too old are lost.
    ///
    /// # Errors
    ///
    /// No memory is left; what the wires stand for then isn't said.
    pub fn grow_older(&mut self, host: u8, entries: &mut Vec<Entry>) -> Result<(), AllocError>
        ensures { (l : Link) → WiresStandFor self.old l → OnOk result (WiresStandFor self.new (aged l)
            × (entries.new.items ≡ entries.old.items ++ entries_for host (aged_entries Controller l.to_controller ++ aged_entries Host l.to_host))) }
    {
        let controller = End {
            link: host,
            at_host: false,
        };
        age_wire(controller, &mut self.controller.wire, entries)?;
        age_wire(controller.other(), &mut self.host.wire, entries)
    }

    /// The first frame on the way to an end is lost. Where there is none, nothing happens.
    ///
    /// # Errors
    ///
    /// No memory is left; what the wires stand for then isn't said.
    pub fn lose(
        &mut self,
        to: End,
        cause: LostCause,
        entries: &mut Vec<Entry>,
    ) -> Result<(), AllocError>
        ensures { (l : Link) (why : Loss) → WiresStandFor self.old l → cause ≡ lost_as why
            → OnOk result (WiresStandFor self.new (happens l (at to (Lose why)))
            × AreNoted to entries.old.items entries.new.items (first_lost (side_of to) why (frames_to l to))) }
    {
        if to.at_host {
            lose_first(to, cause, &mut self.host.wire, entries)
        } else {
            lose_first(to, cause, &mut self.controller.wire, entries)
        }
    }

    /// Nothing stands on either wire any more.
    pub fn empty(&mut self)
        ensures { (l : Link) → WiresStandFor self.old l → WiresStandFor self.new (with_bare_wires l) }
    {
        self.controller.wire.clear();
        self.host.wire.clear();
    }

    /// This comes to an end of the link: the first frame on its way there is taken and noted, or activation empties both wires. `None`
    /// where no frame is on its way: nothing happens then.
    ///
    /// # Errors
    ///
    /// No memory is left; what the wires stand for then isn't said.
    #[inline(always)]
    pub fn comes(
        &mut self,
        to: End,
        what: Incoming,
        entries: &mut Vec<Entry>,
    ) -> Result<Option<Arrived>, AllocError>
        ensures { (l : Link) → WiresStandFor self.old (seen_from to l)
            → IfOk result (ComesToEnd self.new to l what entries.old.items entries.new.items) }
    {
        match what {
            Incoming::NextFrame => {
                if to.at_host {
                    self.host.take_first(to, entries)
                } else {
                    self.controller.take_first(to, entries)
                }
            }
            Incoming::Reset(window) => Ok(Some(Arrived::Reset(window))),
            Incoming::Start(value) => {
                self.empty();
                Ok(Some(Arrived::Start(value)))
            }
        }
    }

    /// How many frames stand on the wire to an end.
    pub fn standing(&self, to: End) -> usize
        ensures { (l : Link) → WiresStandFor self.now l → result ≡ length (frames_to l to) }
    {
        if to.at_host {
            self.host.wire.len()
        } else {
            self.controller.wire.len()
        }
    }

    /// What a line that damages the first frame on the way to an end at these places finds there.
    pub fn damaged(&self, to: End, places: &[u16]) -> Damaged
        ensures { (l : Link) → WiresStandFor self.now l → Finds (frames_to l to) places.now result }
    {
        if to.at_host {
            damaged_first(&self.host.wire, places)
        } else {
            damaged_first(&self.controller.wire, places)
        }
    }

    /// An end puts a frame on the wire to the other end.
    ///
    /// # Errors
    ///
    /// No memory is left; what the wires stand for then isn't said.
    pub fn put(&mut self, at: End, lpdu: Lpdu, entries: &mut Vec<Entry>) -> Result<(), AllocError>
        requires room { self.old.resets + 1 < 2 ^ 32 }
        ensures stands { (l : Link) (c : Frame) → WiresStandFor self.old (seen_from at l) → lpdu ≡ lpdu_of c → control_of lpdu ≡ Ok c
            → OnOk result (WiresStandFor self.new (seen_from at (put l c))
            × AreNoted at entries.old.items entries.new.items (put_entries (side_of at) l c)) }
        ensures grows { self.new.resets ≤ self.old.resets + 1 }
    {
        if at.at_host {
            put_frame(
                at,
                lpdu,
                &mut self.host.emitted,
                &mut self.controller.wire,
                &mut self.resets,
                entries,
            )
        } else {
            put_frame(
                at,
                lpdu,
                &mut self.controller.emitted,
                &mut self.host.wire,
                &mut self.resets,
                entries,
            )
        }
    }
}
