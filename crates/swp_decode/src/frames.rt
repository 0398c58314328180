//! The frames of a record.
ghost use Rattle.std.specs.Prelude.{◌≡◌, ◌+◌, ◌≤◌, ◌<◌, ◌++◌, length};
ghost use Rattle.swp_base.specs.DataUnits.{IsLpdu};
ghost use Rattle.swp_frame.specs.declared.fed.Fed.TheVariants.{Frame};
ghost use Rattle.swp_decode.specs.Frames.{is_of_clf, frame_in};

use crate::line::Wire;
use arrayvec::ArrayVec;
use swp_base::Lpdu;
use swp_frame::Fed;

/// The frames that a step gives, at most sixteen, each with whether it is the CLF's.
pub type Frames = ArrayVec<(bool, Lpdu), 16>;

/// Appends the frame that came on a wire; nothing where none came, or one that was refused.
#[inline(always)]
pub fn push_frame(frames: &mut Frames, wire: Wire, fed: Fed)
    requires { length frames.old.items < 16 }
    ensures items { frames.new.items ≡ frames.old.items ++ frame_in wire fed }
    ensures sized { length frames.new.items ≤ length frames.old.items + 1 }
{
    match fed {
        Fed::Nothing | Fed::Refused(_) => {}
        Fed::Frame(lpdu) => frames.push((is_from_clf(wire), lpdu)),
    }
}

/// Appends the frame with this payload, which came on a wire.
#[inline(always)]
pub fn push_heard(frames: &mut Frames, wire: Wire, payload: &[u8])
    requires room { length frames.old.items < 16 }
    requires payload { IsLpdu payload.now }
    ensures items { frames.new.items ≡ frames.old.items ++ frame_in wire (Frame payload.now) }
    ensures sized { length frames.new.items ≤ length frames.old.items + 1 }
{
    frames.push((is_from_clf(wire), Lpdu::new(payload)));
}

#[inline(always)]
fn is_from_clf(wire: Wire) -> bool
    ensures { result ≡ is_of_clf wire }
{
    match wire {
        Wire::S1 => true,
        Wire::S2 => false,
    }
}
