//! How a node boots.
ghost use Rattle.std.specs.Prelude.{◌≡◌, ℕ, List};
ghost use Rattle.journal_laws.specs.Journal.{state_of};
ghost use Rattle.journal_laws.specs.Operations.{started_state};
ghost use Rattle.hci_store.specs.Starting.{ready_writes};
ghost use Rattle.node_machine.specs.Node.{found, boot_writes};
ghost use Rattle.node_core.specs.Booting.{found_in_memory};

use nv_journal::JournalFault;
use thiserror::Error;

/// Why a node doesn't boot.
#[derive(Debug, Drop, Error)]
pub enum BootFault {
    /// There is no memory for its ends.
    #[error("out of memory")]
    NoMemory,
    /// Its store doesn't start.
    #[error("{0}")]
    Journal(JournalFault),
}

/// A boot that was refused: the memory is handed back.
#[derive(Drop)]
pub struct BootRefused<N> {
    pub nv: N,
    pub fault: BootFault,
}

/// Over a memory that says nothing, or whose bank in use is of version 02, a boot finds and writes what a node of a world does: a node
/// of a world meets no other one.
pub fn a_boot_of_version_02_is_that_of_a_world()
    ensures found { (node : ℕ) (hosts content : List ℕ) → (started_state (state_of content)).version ≡ 2
        → found_in_memory node hosts content ≡ found node hosts content }
    ensures written { (content : List ℕ) → (started_state (state_of content)).version ≡ 2 → ready_writes content ≡ boot_writes content }
{}
