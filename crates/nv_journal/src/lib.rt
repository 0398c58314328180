//! The journal of a node: records in a memory of 65,536 bytes with two banks, so that a power cut inside any write leaves the
//! records from before it or those from after it. All of it is this project's own.
#![tactic(auto)]

mod ahead;
mod banks;
mod gates;
mod heads;
mod journal;
mod records;
mod scan;
mod snapshot;

pub use journal::Journal;
pub use scan::{Scan, StartRefused};
pub use snapshot::Snapshot;
use swp_base::Failed;
use thiserror::Error;

/// Why a memory image can't be used, or a record not kept. All of it is this project's own.
#[derive(Clone, Copy, Debug, PartialEq, Eq, Error)]
pub enum JournalFault {
    /// A read or a write of the memory failed.
    #[error("memory failed")]
    NvFault,
    /// The bank in use is of a format that isn't known.
    #[error("unknown format {version}")]
    UnknownFormat { version: u8 },
    /// The record at this place of the memory, from 0, is outside the record grammar.
    #[error("bad record at place {at}")]
    BadRecord { at: u32 },
    /// A new generation of the bank is needed, and the present one is the last, 4,294,967,295.
    #[error("generations spent")]
    GenerationsSpent,
}

impl From<Failed> for JournalFault {
    ghost use Rattle.std.specs.Prelude.{◌≡◌};
    ghost use Rattle.nv_journal.specs.declared.JournalFault.TheVariants.{NvFault};

    ghost from_gives = { λ _ f. f ≡ NvFault };

    fn from(_: Failed) -> Self {
        JournalFault::NvFault
    }
}
