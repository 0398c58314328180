//! What comes to an end of a link of the world, and what has come once it is off its wire.
ghost use Rattle.std.specs.Prelude.{◌≡◌, Option};
ghost use Rattle.node_machine.specs.Parts.{Port};
ghost use Rattle.node_ends.specs.Inputs.{input_of_end, refusal_at, MayComeAt};
ghost use Rattle.node_sites.specs.Arrivals.{input_arrived, refusal_arrived, MayArriveAt};

use node_core::LinkInput;
use swp_base::Control;
use swp_lpdu::LpduFault;

/// What comes to an end of a link.
#[derive(Clone, Copy)]
pub enum Incoming {
    /// The first frame on the way to it, where there is one.
    NextFrame,
    /// A reset of the link is asked for, with this window, which is 1 to 4, or with the end's own one.
    Reset(Option<u8>),
    /// Activation begins anew there, with the power mode of a controller, which is 00 or 01, or the sync identifier of a host.
    Start(u16),
}

/// What has come to an end.
#[derive(Drop)]
pub enum Arrived {
    /// A frame, whose LPDU says this.
    Frame(Result<Control, LpduFault>),
    /// A reset is asked for.
    Reset(Option<u8>),
    /// Activation begins anew.
    Start(u16),
}

impl Arrived {
    /// It, as what comes to the end of a node.
    #[inline(always)]
    pub fn as_input(&self) -> LinkInput<'_>
        ensures input { input_of_end result ≡ input_arrived self.now }
        ensures refusal { (port : Option Port) → refusal_at result port ≡ refusal_arrived self.now port }
        ensures may { (port : Option Port) → MayArriveAt self.now port → MayComeAt result port }
    {
        match self {
            Arrived::Frame(read) => LinkInput::Frame(read),
            Arrived::Reset(window) => LinkInput::Reset(*window),
            Arrived::Start(value) => LinkInput::Start(*value),
        }
    }
}
