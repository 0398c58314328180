//! How a node that runs alone boots.
ghost use Rattle.std.specs.Prelude.{◌≡◌, ◌≢◌, ◌≤◌, [], None, true, IfOk, IfErr, OnOk, IsTrue, if◌then◌else◌};
ghost use Rattle.journal_laws.specs.Journal.{journal};
ghost use Rattle.hci_store.specs.Image.{image_fault};
ghost use Rattle.hci_store.specs.Starting.{ready_writes, HasWritten};
ghost use Rattle.lone_laws.specs.alone.Lone.{Lone};
ghost use Rattle.node_core.specs.Booting.{IsBootRefused};
ghost use Rattle.one_end.specs.Alone.{RunsAlone};
ghost use Rattle.one_end.specs.Standing.{HasBooted};

use node_core::{BootRefused, RunningNode};
use std::alloc::Global;
use swp_base::Nv;

/// The mask of host 02.
const HOST_MASK: u8 = 4;

/// The controller with one link, to host 02, or host 02 with its link boots from a memory of 65,536 bytes. It takes all its memory here. A
/// memory that says nothing is formatted; one of version 01 is written anew as a snapshot of version 02 before the node answers.
///
/// # Errors
///
/// No fault without memory: nothing is read or written then. Else its store doesn't start. The memory is handed back, and the next boot
/// finds what this one found. Where none of its calls failed, nothing was written.
pub fn boot<N: Nv + Drop>(
    alloc: Global,
    is_clf: bool,
    nv: N,
) -> Result<RunningNode<N>, BootRefused<N>>
    requires size { N.capacity nv ≡ 65536 }
    ensures number { IfOk result (λ n. n.number ≡ (if is_clf then 0 else 2)) }
    ensures may { IfOk result (λ n. (l : Lone) × RunsAlone n l []) }
    ensures booted { IsTrue N.tells → IfOk result (λ n. HasBooted N.writes (N.content nv) n.store.journal.nv n) }
    ensures image { IsTrue N.tells → OnOk result (image_fault (N.content nv) ≡ None) }
    ensures unspent { IsTrue N.tells → OnOk result ((journal (N.content nv)).head.version ≡ 1
        → (journal (N.content nv)).head.generation ≢ 4294967295) }
    ensures count { IfOk result (λ n. N.faults nv ≤ N.faults n.store.journal.nv) }
    ensures made { IsTrue N.tells
        → IfOk result (λ n. HasWritten N.reads N.writes N.content (ready_writes (N.content nv)) nv true n.store.journal.nv) }
    ensures refused { IfErr result (λ e. IsBootRefused N.reads N.writes N.faults N.tells N.content nv e.nv e.fault) }
{
    let number = if is_clf { 0 } else { 2 };
    match RunningNode::boot(alloc, number, HOST_MASK, nv) {
        Ok(node) => Ok(node),
        Err(refused) => Err(refused),
    }
}
