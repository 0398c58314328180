//! What a deframer answers.
use swp_base::{FrameFault, Lpdu};

/// What one bit or break gave. This project's own.
#[derive(Debug, Drop, PartialEq, Eq)]
pub enum Fed {
    /// No frame ended here.
    Nothing,
    /// A frame ended, and this is its payload.
    Frame(Lpdu),
    /// A frame was refused.
    Refused(FrameFault),
}

/// What one bit gave, where the payload of a frame that ended stays where it lies.
#[derive(Clone, Copy, Debug, PartialEq, Eq)]
pub enum Found {
    /// No frame ended here.
    Nothing,
    /// A frame ended, and its payload has so many bytes.
    Frame(usize),
    /// A frame was refused.
    Refused(FrameFault),
}
