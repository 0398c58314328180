//! What a link end answers.
ghost use Rattle.std.specs.Prelude.{◌≡◌};
ghost use Rattle.link_end.specs.Reports.{nothing_told};

use swp_base::{Cause, FrameFault};

/// What an input to a link end did.
#[derive(Clone, Copy, Debug, PartialEq, Eq)]
pub struct LinkReport {
    /// Why the session ended, where it did.
    pub ended: Option<Cause>,
    /// A session began.
    pub began: bool,
    /// How many messages are newly acknowledged whole.
    pub acked: u16,
    /// A message came. It waits to be fetched.
    pub got: bool,
    /// Activation is done.
    pub became_active: bool,
    /// The UICC's identifier, where a CLF took it.
    pub sync: Option<u16>,
    /// After how many tries the end gave up, where it did: 5 of a reset, 3 of activation.
    pub gave_up: Option<u8>,
    /// What is wrong with a frame that was refused on its way.
    pub refused: Option<FrameFault>,
}

impl LinkReport {
    /// Nothing of this happened.
    pub fn nothing() -> LinkReport
        ensures { result ≡ nothing_told }
    {
        LinkReport {
            ended: None,
            began: false,
            acked: 0,
            got: false,
            became_active: false,
            sync: None,
            gave_up: None,
            refused: None,
        }
    }
}

/// Why a message isn't taken for sending. Nothing changed.
#[derive(Clone, Copy, Debug, PartialEq, Eq)]
pub enum SendRefused {
    /// The end isn't Up.
    NotUp,
    /// The message has `len` bytes, more than 4,096.
    TooLong { len: u32 },
    /// It needs so many blocks, and so many are spare.
    Full { need: u16, spare: u16 },
}

/// Why a link isn't reset. Nothing changed.
#[derive(Clone, Copy, Debug, PartialEq, Eq)]
pub enum ResetRefused {
    /// Activation isn't done.
    Inactive,
    /// The end waits for the acceptance of a reset already.
    Waiting,
}
