//! What begins a step of a node, and what came in it.
use crate::node::InBuffer;
use node_ends::LinkInput;

/// What begins a step of a node.
#[derive(Clone, Copy)]
pub enum NodeInput<'a> {
    /// This comes to the end of the link with this host.
    At { host: u8, what: LinkInput<'a> },
    /// Time passes at all its ends.
    Tick,
}

/// What came as a step began, as far as the rest of the step asks for it.
#[derive(Clone, Copy)]
pub(crate) struct Came {
    /// The identifier that came, with its host.
    pub(crate) sync: Option<(u8, u16)>,
    /// The message that came.
    pub(crate) lies: Option<InBuffer>,
    /// Activation of the end was done.
    pub(crate) became_active: bool,
}

impl Came {
    ghost use Rattle.std.specs.Prelude.{◌≡◌, false, None};

    /// Nothing came.
    #[inline(always)]
    pub(crate) fn nothing() -> Came
        ensures { result ≡ record { sync = None; lies = None; became_active = false } }
    {
        Came {
            sync: None,
            lies: None,
            became_active: false,
        }
    }
}
