//! The words that the layers of a link share: which end it is, why a session ended, what is wrong with a frame.

/// What is wrong with a frame that was refused.
#[derive(Clone, Copy, Debug, PartialEq, Eq)]
pub enum FrameFault {
    /// It has this many bits without stuffed ones, and a frame has from 24 to 256; on a byte link, eight times its length
    /// in bytes, and a unit has at most 30 bytes. On a line 65,535 stands for any greater number.
    Length { bits: u32 },
    /// It has this many bits without stuffed ones, which is not a multiple of 8.
    Alignment { bits: u32 },
    /// The CRC of its bytes is `want`, and `got` stands there.
    Crc { want: u16, got: u16 },
    /// It was broken off before its end.
    Broken,
}

/// Why a session of a link ended.
#[derive(Clone, Copy, Debug, PartialEq, Eq)]
pub enum Cause {
    /// It was reset on demand.
    Asked,
    /// The other end did not answer.
    NoAnswer,
    /// The other end reset it.
    Peer,
    /// Activation began anew, or ended.
    Act,
    /// Packets came that no chain can take.
    Chain,
}

/// Which end of which link: the contactless front end or the UICC of a line that is activated first, or one of the two
/// ends of a bare link, which is up from the start.
#[derive(Clone, Copy, Debug, PartialEq, Eq)]
pub enum Role {
    Clf,
    Uicc,
    Bare,
}
