//! What a line that damages a frame finds on a wire.
ghost use Rattle.std.specs.Prelude.{◌≡◌, List};
ghost use Rattle.link_laws.specs.sessions.Sessions.{OnWire};
ghost use Rattle.link_wires.specs.Wires.{WireStandsFor};
ghost use Rattle.link_wires.specs.Damages.{Finds, first_lpdu};

use crate::damage::{Verdict, past, verdict_in};
use crate::wire::Flying;
use circular_buffer::HeapCircularBuffer;
use swp_base::Lpdu;
use swp_frame::write_frame;
use trace_model::{LostCause, NoCause};

/// A damaged frame, and the other frame that is read in its place.
#[derive(Drop)]
pub struct Misread {
    pub sent: Lpdu,
    pub read: Lpdu,
}

/// What a line `damage` finds.
#[derive(Drop)]
pub enum Damaged {
    /// The line is refused for this.
    Refused(NoCause),
    /// The frame is read as it was.
    Same,
    /// No frame is read, and this is why it is lost.
    Lost(LostCause),
    /// Another frame is read in place of the one that was sent.
    Undetected(Misread),
}

// The first frame on a wire, where there is one.
fn first_frame(kept: &HeapCircularBuffer<Flying>) -> Option<Lpdu>
    ensures { (wire : List OnWire) → WireStandsFor kept.now wire → result ≡ first_lpdu wire }
{
    match kept.front() {
        Some(flying) => Some(flying.lpdu.copied()),
        None => None,
    }
}

/// What a line `damage` finds on the wire to an end.
pub fn damaged_first(kept: &HeapCircularBuffer<Flying>, places: &[u16]) -> Damaged
    ensures { (wire : List OnWire) → WireStandsFor kept.now wire → Finds wire places.now result }
{
    let Some(sent) = first_frame(kept) else {
        return Damaged::Refused(NoCause::Empty);
    };
    let mut frame = write_frame(&sent);
    if let Some(cause) = past(frame.bits.len() as u16, places) {
        return Damaged::Refused(cause);
    }
    match verdict_in(&sent, &mut frame, places) {
        Verdict::Same => Damaged::Same,
        Verdict::Lost(cause) => Damaged::Lost(cause),
        Verdict::Undetected(read) => Damaged::Undetected(Misread { sent, read }),
    }
}
