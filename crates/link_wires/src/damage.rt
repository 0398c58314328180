//! What becomes of a frame whose bits are changed on its way.
ghost use Rattle.std.specs.Prelude.{◌≡◌, ℕ, ◌≤◌, ◌++◌, List, false, map, length, replicate};
ghost use Rattle.swp_frame.specs.Signal.{symbol_of};
ghost use Rattle.swp_frame.specs.Stuffing.{frame_of};
ghost use Rattle.swp_frame.specs.Verdicts.{verdicts};
ghost use Rattle.link_laws.specs.messages.Links.Loss.{Broken};
ghost use Rattle.history.specs.Damage.{flipped, flipped_at, judged_by_first, verdict_on};
ghost use Rattle.history.specs.Steps.{lost_as};
ghost use Rattle.history.specs.Follows.{if_beyond};
ghost use Rattle.link_wires.specs.Damages.{told_as, told_verdict};

use swp_base::{FrameFault, Lpdu};
use swp_frame::{Deframer, Fed, FrameBits};
use trace_model::{LostCause, NoCause};

/// What a reader makes of a damaged frame.
#[derive(Drop)]
pub enum Verdict {
    /// The frame is read as it was.
    Same,
    /// None is read, and this is why it is lost.
    Lost(LostCause),
    /// Another frame is read.
    Undetected(Lpdu),
}

// The bit at this place is changed, where there is one.
fn flip(bits: &mut [bool], place: u16)
    ensures { bits.new ≡ flipped place bits.old }
{
    let place = usize::from(place);
    if place < bits.len() {
        bits[place] = !bits[place];
    }
}

// The bits at these places are changed.
fn flip_all(bits: &mut [bool], places: &[u16])
    ensures { bits.new ≡ flipped_at places.now bits.old }
{
    for place in places {
        flip(bits, *place);
    }
}

// Why a frame that is refused is lost.
fn lost_for(fault: FrameFault) -> LostCause
    ensures { result ≡ lost_as (Broken fault) }
{
    match fault {
        FrameFault::Length { .. } => LostCause::Length,
        FrameFault::Alignment { .. } => LostCause::Alignment,
        FrameFault::Crc { .. } => LostCause::Crc,
        FrameFault::Broken => LostCause::Broken,
    }
}

// The first frame that is read of these bits, or why none is: the first refusal, where there is one.
fn first_read(bits: &[bool]) -> Result<Lpdu, LostCause>
    ensures { (lpdu : List ℕ) → told_verdict lpdu result ≡ told_as (judged_by_first lpdu (verdicts (map symbol_of bits.now))) }
{
    let mut deframer = Deframer::new();
    let mut refused = None;
    for bit in bits {
        match deframer.feed(*bit) {
            Fed::Nothing => {}
            Fed::Frame(read) => return Ok(read),
            Fed::Refused(fault) => refused = refused.or(Some(lost_for(fault))),
        }
    }
    Err(refused.unwrap_or(LostCause::Nothing))
}

// The bits of a frame are changed at these places, and eight 0 bits stand behind it.
fn damage(frame: &mut FrameBits, places: &[u16])
    requires { length frame.old.bits.items ≤ 323 }
    ensures { frame.new.bits.items ≡ flipped_at places.now frame.old.bits.items ++ replicate 8 false }
{
    flip_all(&mut frame.bits, places);
    let _fits = frame.bits.try_extend_from_slice(&[false; 8]);
}

// The verdict on a frame where this one was read in its place, or none for this cause.
fn verdict_of(lpdu: &Lpdu, read: Result<Lpdu, LostCause>) -> Verdict
    ensures { result ≡ told_verdict lpdu.now read }
{
    match read {
        Ok(read) => {
            if read == *lpdu {
                Verdict::Same
            } else {
                Verdict::Undetected(read)
            }
        }
        Err(cause) => Verdict::Lost(cause),
    }
}

/// What is read of a frame, which is written already, whose bits at these places are changed, with eight 0 bits behind it.
pub(crate) fn verdict_in(lpdu: &Lpdu, frame: &mut FrameBits, places: &[u16]) -> Verdict
    requires frame { frame.old.bits.items ≡ frame_of lpdu.now }
    requires sized { length frame.old.bits.items ≤ 323 }
    ensures { result ≡ told_as (verdict_on lpdu.now places.now) }
{
    damage(frame, places);
    verdict_of(lpdu, first_read(frame.bits.as_slice()))
}

/// Where one of these places is past so many bits.
pub(crate) fn past(bits: u16, places: &[u16]) -> Option<NoCause>
    ensures { result ≡ if_beyond bits places.now }
{
    for place in places {
        if *place >= bits {
            return Some(NoCause::Beyond { bits });
        }
    }
    None
}
