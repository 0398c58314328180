//! Laws of a node alone. No code.
ghost use Rattle.std.specs.Prelude.{◌≡◌, ℕ, Bool, true, List, IsTrue, if◌then◌else◌};
ghost use Rattle.hci_store.specs.Starting.{ready_writes, HasWritten};
ghost use Rattle.lone_laws.specs.alone.Ends.{EndForm};
ghost use Rattle.lone_laws.specs.alone.Memories.{IsTakenMemory};
ghost use Rattle.lone_laws.specs.alone.Runs.{IsAnsweredRun};
ghost use Rattle.one_end.specs.Standing.{HasRun, IsRunOfBytes};
ghost use Rattle.one_end.specs.WholeRuns.{IsRunAlone};
ghost use Rattle.one_end.specs.Writing.{form_named};

use crate::one_end::OneEnd;
use swp_base::Nv;

/// What was written for the bytes that came is what the definition of a whole run says of them.
pub fn a_run_is_that_of_its_bytes<N: Nv + Drop>(end: &OneEnd<N>)
    ensures { (is_clf : Bool) (content : List ℕ) (first : N) (stopped : Bool) (bytes written : List ℕ) → end.now.node.number ≡ (if is_clf then 0 else 2)
        → HasRun N.writes content first end.now stopped bytes written
        → IsRunOfBytes N.writes first end.now.node.store.journal.nv stopped (form_named end.now.form) is_clf content bytes written }
{
    let _ = end;
}

/// A whole run over any memory that a boot takes, with the writes of its boot in front, is one of the node alone of which `lone_laws` speaks: over
/// the memory that the boot has left, which keeps its bytes and fails as planned, and which ends as this one. So it is with a memory of version
/// 01 too, which the boot writes anew.
pub fn a_run_is_one_of_a_node_alone<N: Nv>()
    ensures { IsTrue N.tells → (old first new : N) (stopped : Bool) (form : EndForm) (is_clf : Bool) (bytes written : List ℕ)
        → IsTakenMemory (N.content old) → HasWritten N.reads N.writes N.content (ready_writes (N.content old)) old true first
        → IsRunOfBytes N.writes first new stopped form is_clf (N.content old) bytes written
        → IsRunAlone (N.content first) (N.content new) stopped form is_clf bytes written }
{}

/// So every message that comes in such a run is answered, and nothing else is, and the memory keeps its commands: at the end a boot finds the
/// tables that the first one found, with the commands that are noted carried out; where the power went in a write, all but the last one may be
/// found (`a_node_alone_answers_every_message`, `a_node_alone_keeps_its_commands`, `a_boot_makes_a_memory_ready`).
pub fn a_run_answers_every_message_and_keeps_its_commands<N: Nv>()
    ensures { IsTrue N.tells → (old first new : N) (stopped : Bool) (form : EndForm) (is_clf : Bool) (bytes written : List ℕ)
        → IsTakenMemory (N.content old) → HasWritten N.reads N.writes N.content (ready_writes (N.content old)) old true first
        → IsRunOfBytes N.writes first new stopped form is_clf (N.content old) bytes written
        → IsAnsweredRun (N.content old) (N.content new) stopped form is_clf bytes written }
{}
