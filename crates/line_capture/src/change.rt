//! What a line reader takes and gives.

/// From this time on, in the caller's unit, the signals have these levels.
#[derive(Clone, Copy, Debug, PartialEq, Eq)]
pub struct Change {
    /// The time.
    pub time: u64,
    /// The voltage signal to the UICC.
    pub s1: bool,
    /// The current signal to the CLF.
    pub s2: bool,
}

/// Bytes of a line record: one, where there is one, and then one byte so many times.
#[derive(Clone, Copy, Debug, PartialEq, Eq)]
pub struct Piece {
    /// The first byte.
    pub first: Option<u8>,
    /// The byte behind it.
    pub byte: u8,
    /// How many times that byte comes.
    pub times: u64,
}

/// Why a time is refused.
#[derive(Clone, Copy, Debug, PartialEq, Eq)]
pub enum CaptureFault {
    /// It lies before the last change.
    TimeBack,
    /// It is 2^63 or more.
    TooLate,
}

/// The first time that is too late.
pub const MOST_TIME: u64 = 0x8000_0000_0000_0000;

/// The most that a sixteenth of a period may be.
pub const MOST_UNIT: u64 = 0x1_0000_0000;
