//! The two banks of a memory.
ghost use Rattle.std.specs.Prelude.{◌≡◌};

/// One of the two banks of a memory of 65,536 bytes. This project's own.
#[derive(Clone, Copy, Debug, PartialEq, Eq)]
pub enum Side {
    First,
    Second,
}

impl Side {
    ghost use Rattle.journal_laws.specs.Banks.{bank_place, other};

    /// Where the bank begins in the memory: at place 0 or 32,768.
    pub fn place(self) -> u32
        ensures { result ≡ bank_place self }
    {
        match self {
            Side::First => 0,
            Side::Second => 32_768,
        }
    }

    /// The other bank.
    pub fn other(self) -> Side
        ensures { result ≡ other self }
    {
        match self {
            Side::First => Side::Second,
            Side::Second => Side::First,
        }
    }
}
