//! What comes to a node alone.
ghost use Rattle.std.specs.Prelude.{◌≡◌, ◌==◌, ℕ, map};
ghost use Rattle.lone_laws.specs.alone.Ends.{first_comes};
ghost use Rattle.one_end.specs.Reading.{causes_brought};
ghost use Rattle.one_end.specs.Running.{cause_of};
ghost use Rattle.one_end.specs.Writing.{form_named};

use crate::reading::Brought;
use crate::writing::Form;
use arrayvec::ArrayVec;
use swp_base::{FrameFault, Lpdu};
use swp_frame::Fed;

/// What comes to a node.
#[derive(Debug, Default, Drop, PartialEq, Eq)]
pub(crate) enum Coming {
    /// A frame is taken.
    Frame(Lpdu),
    /// A frame was refused on its way.
    Refused(FrameFault),
    /// Time passes.
    #[default]
    Tick,
    /// Activation begins: a UICC has the identifier 0001.
    Start,
    /// Activation ends.
    Stop,
}

/// What a byte brings, one after another.
pub(crate) fn comings_of(brought: Brought) -> ArrayVec<Coming, 4>
    ensures causes { map cause_of result.items ≡ causes_brought brought }
{
    let Brought {
        starts,
        fed,
        stops,
        ticks,
    } = brought;
    let mut comings = ArrayVec::new();
    if starts {
        comings.push(Coming::Start);
    }
    match fed {
        Fed::Nothing => {}
        Fed::Frame(lpdu) => comings.push(Coming::Frame(lpdu)),
        Fed::Refused(fault) => comings.push(Coming::Refused(fault)),
    }
    if stops {
        comings.push(Coming::Stop);
    }
    if ticks {
        comings.push(Coming::Tick);
    }
    comings
}

/// What comes first to the node: a UICC on a byte link is activated.
pub(crate) fn first_comings(form: Form, is_clf: bool) -> ArrayVec<Coming, 4>
    ensures causes { (number : ℕ) → (number == 0) ≡ is_clf → map cause_of result.items ≡ first_comes (form_named form) number }
{
    let mut comings = ArrayVec::new();
    if form == Form::Bytes && !is_clf {
        comings.push(Coming::Start);
    }
    comings
}
