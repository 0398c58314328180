//! What one end of a link answers, and the words for its state.
ghost use Rattle.std.specs.Prelude.{◌≡◌};
ghost use Rattle.shdlc_core.specs.Machine.{nothing_taken, nothing_ticked};

use swp_base::{Cause, Info};

/// The state of one end of a link.
#[derive(Clone, Copy, Debug, PartialEq, Eq)]
pub enum LinkState {
    /// No session, and none is asked for.
    Down,
    /// A reset was sent, and its acceptance hasn't come.
    Waiting,
    /// A session runs.
    Up,
}

/// Why a fragment wasn't taken for sending. Nothing changed.
#[derive(Clone, Copy, Debug, PartialEq, Eq)]
pub enum OfferRefused {
    /// The end isn't Up.
    NotUp,
    /// As many fragments as an end keeps aren't acknowledged yet: `len`, which is 4.
    QueueFull { len: u8 },
}

/// What a frame from the other end did.
#[derive(Debug, Drop, PartialEq, Eq)]
pub struct Taken {
    /// Why the session ended, where it did.
    pub ended: Option<Cause>,
    /// A session began.
    pub began: bool,
    /// How many fragments the frame newly acknowledged.
    pub acked: u8,
    /// The fragment that the frame brought, where it was the one expected and the end is ready.
    pub accepted: Option<Info>,
}

impl Taken {
    // Nothing of this happened.
    pub(crate) fn nothing() -> Self
        ensures { result ≡ nothing_taken }
    {
        Self {
            ended: None,
            began: false,
            acked: 0,
            accepted: None,
        }
    }
}

/// What a tick did.
#[derive(Clone, Copy, Debug, PartialEq, Eq)]
pub struct Ticked {
    /// Why the session ended, where it did.
    pub ended: Option<Cause>,
    /// How many resets were sent in vain, where the end gave up.
    pub gave_up: Option<u8>,
}

impl Ticked {
    // Nothing of this happened.
    pub(crate) fn nothing() -> Self
        ensures { result ≡ nothing_ticked }
    {
        Self {
            ended: None,
            gave_up: None,
        }
    }
}

/// A control frame that was made and not yet fetched. Its numbers are filled in when it is fetched.
#[derive(Clone, Copy, Debug, Default, PartialEq, Eq)]
pub enum Due {
    #[default]
    Rr,
    Rej,
    Rnr,
    Rset,
    Ua,
}

/// A fragment that is to be sent, with the numbers of its I frame (ETSI TS 102 613, section 10.4).
#[derive(Clone, Copy)]
pub struct FragmentDue<'a> {
    /// N(S), 0 to 7.
    pub ns: u8,
    /// N(R), 0 to 7.
    pub nr: u8,
    /// The fragment.
    pub info: &'a Info,
}
