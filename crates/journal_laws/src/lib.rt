//! What a memory of a node says, and what is left of that where the power goes inside a write. But for a few
//! plain types there is no code here: each law is the contract of a function with an empty body. All of it is this project's own.
#![tactic(auto)]

ghost use Rattle.std.specs.Prelude.{ℕ, Bool, not, List, [], ◌∷◌, ◌++◌, ◌≡◌, ◌⊎◌, ◌+◌, ◌-◌, ◌^◌, ◌≤◌, true, false, None, IsTrue, length, replicate, min};
ghost use Rattle.journal_laws.specs.Writes.{Write, after_writes, IsCut, AreMade, AreRead, AreCalled};
ghost use Rattle.journal_laws.specs.declared.state.State.{State};
ghost use Rattle.journal_laws.specs.Journal.{records, state_of, count_of, count, IsStarted};
ghost use Rattle.journal_laws.specs.Operations.{format_writes, append_writes, compact_writes, IsUnformatted, HasRoomForBody, CanCompact};
ghost use Rattle.journal_laws.specs.Operations.{formatted, appended, compacted, outcome, IsAllOrNothing};
ghost use Rattle.swp_base.specs.InMemory.{Memory, ReadsAsPlanned, WritesAsPlanned, ReadsSurely, WritesSurely};
ghost use Rattle.journal_laws.specs.Planned.{fails_within, after_planned};

use swp_base::Nv;

mod banks;
mod state;

pub use banks::Side;
pub use state::{Head, State};

/// Where no gate stands open, as in a memory of FF, a format makes a journal without records, or a cut leaves no gate open.
pub fn a_format_is_all_or_nothing()
    ensures fresh { (size : ℕ) → 65536 ≤ size → IsUnformatted (replicate size 255) }
    ensures state { (content : List ℕ) → IsUnformatted content → state_of (after_writes format_writes content) ≡ formatted }
    ensures records { (content : List ℕ) → IsUnformatted content → records (after_writes format_writes content) ≡ [] }
    ensures started { (content : List ℕ) → IsUnformatted content → IsStarted (after_writes format_writes content) }
    ensures cut { (content : List ℕ) → IsUnformatted content → IsAllOrNothing format_writes content }
    ensures left { (content : List ℕ) (k : ℕ) (left : List ℕ) → IsUnformatted content → IsCut k format_writes content left
        → IsUnformatted left ⊎ IsStarted left }
{}

/// An append adds its body to the records, or a cut leaves those before it.
pub fn an_append_is_all_or_nothing()
    ensures state { (content body : List ℕ) → IsStarted content → HasRoomForBody (state_of content) body
        → state_of (after_writes (append_writes (state_of content) body) content) ≡ appended (state_of content) body }
    ensures records { (content body : List ℕ) → IsStarted content → HasRoomForBody (state_of content) body
        → records (after_writes (append_writes (state_of content) body) content) ≡ records content ++ body ∷ [] }
    ensures started { (content body : List ℕ) → IsStarted content → HasRoomForBody (state_of content) body
        → IsStarted (after_writes (append_writes (state_of content) body) content) }
    ensures count { (s : State) (body : List ℕ) → s.snapshot ≤ s.base + s.many
        → count_of (appended s body) ≡ min (count_of s + 1) (2 ^ 32 - 1) }
    ensures cut { (content body : List ℕ) → IsStarted content → HasRoomForBody (state_of content) body
        → IsAllOrNothing (append_writes (state_of content) body) content }
{}

/// A compaction, of a bank of either version, goes on in the other bank with the records of the snapshot and the count from
/// before, or a cut leaves the records from before. So a cut never changes the count.
pub fn a_compaction_is_all_or_nothing()
    ensures state { (content : List ℕ) (bodies : List (List ℕ)) → IsStarted content → CanCompact (state_of content) bodies
        → state_of (after_writes (compact_writes (state_of content) bodies) content) ≡ compacted (state_of content) bodies }
    ensures records { (content : List ℕ) (bodies : List (List ℕ)) → IsStarted content → CanCompact (state_of content) bodies
        → records (after_writes (compact_writes (state_of content) bodies) content) ≡ bodies }
    ensures started { (content : List ℕ) (bodies : List (List ℕ)) → IsStarted content → CanCompact (state_of content) bodies
        → IsStarted (after_writes (compact_writes (state_of content) bodies) content) }
    ensures count { (s : State) (bodies : List (List ℕ)) → count_of (compacted s bodies) ≡ count_of s }
    ensures cut { (content : List ℕ) (bodies : List (List ℕ)) → IsStarted content → CanCompact (state_of content) bodies
        → IsAllOrNothing (compact_writes (state_of content) bodies) content }
{}

/// Writes that a memory made in order until one failed, and of which it tells its content: all of them stand in it, or it is one
/// that a cut leaves.
pub fn made_writes_are_told<N: Nv>()
    ensures whole { (writes : List Write) (old new : N) → IsTrue N.tells → AreMade N.writes writes old true new
        → N.content new ≡ after_writes writes (N.content old) }
    ensures cut { (writes : List Write) (old new : N) → IsTrue N.tells → AreMade N.writes writes old false new
        → (k : ℕ) × IsCut k writes (N.content old) (N.content new) }
{}

/// Of a memory in memory it is known which write fails: whether all of these writes were made, and the memory after them.
pub fn planned_writes_are_known()
    ensures answer { (writes : List Write) (old : Memory) (ok : Bool) (new : Memory) → AreMade WritesAsPlanned writes old ok new
        → ok ≡ not (fails_within (length writes) old.plan) }
    ensures memory { (writes : List Write) (old : Memory) (ok : Bool) (new : Memory) → AreMade WritesAsPlanned writes old ok new
        → new ≡ after_planned writes old }
{}

/// Reads leave the content of a memory in memory and the plan for its writes, and where no failing read is planned, all of them
/// go through.
pub fn planned_reads_are_known()
    ensures content { (most : ℕ) (old : Memory) (ok : Bool) (new : Memory) → AreRead ReadsAsPlanned most old ok new
        → new.content ≡ old.content }
    ensures plan { (most : ℕ) (old : Memory) (ok : Bool) (new : Memory) → AreRead ReadsAsPlanned most old ok new
        → new.plan ≡ old.plan }
    ensures answer { (most : ℕ) (old : Memory) (ok : Bool) (new : Memory) → AreRead ReadsAsPlanned most old ok new
        → old.failing_read ≡ None → ok ≡ true }
    ensures memory { (most : ℕ) (old : Memory) (ok : Bool) (new : Memory) → AreRead ReadsAsPlanned most old ok new
        → old.failing_read ≡ None → new ≡ old }
{}

/// Of a sure memory all reads and writes go through.
pub fn sure_calls_go_through()
    ensures answer { (most : ℕ) (writes : List Write) (old : List ℕ) (ok : Bool) (new : List ℕ)
        → AreCalled ReadsSurely WritesSurely most writes old ok new → ok ≡ true }
    ensures content { (most : ℕ) (writes : List Write) (old : List ℕ) (ok : Bool) (new : List ℕ)
        → AreCalled ReadsSurely WritesSurely most writes old ok new → new ≡ after_writes writes old }
{}

/// What a cut leaves of a started journal's memory is the memory of a started journal, with the records and the count from
/// before the writes, or from after all of them.
pub fn a_cut_leaves_a_started_journal()
    ensures started { (content : List ℕ) (writes : List Write) (k : ℕ) (left : List ℕ) → IsAllOrNothing writes content
        → IsStarted content → IsStarted (after_writes writes content) → IsCut k writes content left → IsStarted left }
    ensures records { (content : List ℕ) (writes : List Write) (k : ℕ) (left : List ℕ) → IsAllOrNothing writes content
        → IsCut k writes content left → records left ≡ records (outcome k writes content left) }
    ensures count { (content : List ℕ) (writes : List Write) (k : ℕ) (left : List ℕ) → IsAllOrNothing writes content
        → IsCut k writes content left → count left ≡ count (outcome k writes content left) }
{}
