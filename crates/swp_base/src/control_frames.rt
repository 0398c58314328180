//! What an LPDU says: the frames of the SHDLC link layer, of activation and of contactless tunnelling.
use crate::Info;

/// The kinds of supervisory frames (ETSI TS 102 613, section 10.4).
#[derive(Clone, Copy, Debug, PartialEq, Eq)]
pub enum Kind {
    /// Receive ready: what came before its number was taken, and more may come.
    Rr,
    /// Reject: what has its number and what follows is to be sent again.
    Rej,
    /// Receive not ready: what came before its number was taken, and nothing more may come for now.
    Rnr,
    /// Selective reject: what has its number alone is to be sent again.
    Srej,
}

/// The frames of interface activation (ETSI TS 102 613, section 9.4).
#[derive(Clone, Copy, Debug, PartialEq, Eq)]
pub enum Act {
    /// The UICC is ready to be used.
    Ready,
    /// The UICC's identifier for this activation.
    SyncId(u16),
    /// The CLF's power mode: 00 is low power, 01 is full power.
    PowerMode(u8),
}

/// What one LPDU says: a frame of activation (ETSI TS 102 613, section 9.4), of SHDLC (section 10.4) or of contactless
/// tunnelling (section 11).
#[derive(Debug, Drop, PartialEq, Eq)]
pub enum Control {
    /// An information frame: its number, the number expected next from the other end (each 0 to 7), and what it carries.
    I { ns: u8, nr: u8, info: Info },
    /// A supervisory frame, with the number expected next from the other end (0 to 7).
    S { kind: Kind, nr: u8 },
    /// A link is to be reset, with this window size and these capabilities.
    Rset { window: u8, caps: u8 },
    /// A reset is accepted.
    Ua,
    /// A frame of activation; `again` asks the receiver to send its last one again.
    Act { act: Act, again: bool },
    /// A frame of contactless tunnelling. It is recognised and not used.
    Clt,
}
