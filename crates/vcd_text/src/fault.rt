//! Why a text is refused.

/// What is wrong with a text.
#[derive(Clone, Copy, Debug, PartialEq, Eq)]
pub enum VcdFault {
    /// A word in front of `$enddefinitions` begins no declaration.
    NoVcd,
    /// The text ends in front of `$enddefinitions`, or inside it.
    NoDefinitions,
    /// There is no `$timescale`.
    NoTimescale,
    /// The time scale is not 1, 10 or 100 of s, ms, us, ns, ps or fs.
    BadTimescale,
    /// A `$var` has no name, or S1 or S2 has a code of more than 32 bytes.
    BadVariable,
    /// No signal of one bit is named S1.
    NoS1,
    /// No signal of one bit is named S2.
    NoS2,
    /// More than one signal of one bit is named S1.
    TwoS1,
    /// More than one signal of one bit is named S2.
    TwoS2,
    /// S1 and S2 are one signal.
    SameSignal,
    /// A time is no number.
    BadTime,
    /// A time lies before the one in front of it.
    TimeBack,
    /// A time is 2^63 femtoseconds, some 2 hours and 33 minutes, or more.
    TimeTooLarge,
    /// A word is no change.
    BadChange,
    /// There is no time in the text.
    NoTime,
}

/// What is wrong, and the number of the line, from 1.
#[derive(Clone, Copy, Debug, PartialEq, Eq)]
pub struct VcdRefusal {
    /// The number of the line.
    pub line: u64,
    /// What is wrong there.
    pub fault: VcdFault,
}
