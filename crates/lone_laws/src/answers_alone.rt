//! A node with one link, alone, answers every message that comes to it, whatever comes, and keeps its commands: so does a node of `end`
//! over any bytes. Nothing here runs.

ghost use Rattle.std.specs.Prelude.{◌≡◌, ◌⊎◌, ◌==◌, ◌≤◌, ◌++◌, ℕ, Bool, false, List, [], ◌∷◌, Some, if◌then◌else◌};
ghost use Rattle.swp_base.specs.InMemory.{Memory};
ghost use Rattle.trace_model.specs.declared.entry.Entry.{Entry};
ghost use Rattle.trace_model.specs.declared.entry.Entry.TheVariants.{Turn};
ghost use Rattle.trace_model.specs.declared.line.End.{End};
ghost use Rattle.link_laws.specs.machine.Machine.{oldest};
ghost use Rattle.node_machine.specs.Parts.{Core};
ghost use Rattle.node_machine.specs.Node.{found};
ghost use Rattle.node_laws.specs.answers.Moments.{unhandled_in};
ghost use Rattle.lone_laws.specs.alone.Lone.{LoneCause, LoneEvent, lone_events, lone_booted};
ghost use Rattle.lone_laws.specs.alone.Answers.{AnsweredAlone};
ghost use Rattle.lone_laws.specs.alone.Ends.{EndForm, end_causes, end_history, end_node};
ghost use Rattle.lone_laws.specs.alone.Answers.{entries_of_events_alone};
ghost use Rattle.lone_laws.specs.alone.Lone.{lone_after};
ghost use Rattle.lone_laws.specs.alone.Memories.{CountsAll, IsHeldBehind, IsReadyMemory, IsTakenMemory, behind_boot, commands_of_entries};
ghost use Rattle.journal_laws.specs.Journal.{journal};
ghost use Rattle.hci_store.specs.Stored.{FindsSame};

/// A node boots over a memory that isn't of version 01, whatever else it holds, with one link: it is the controller with a host of 01 to
/// 07, or such a host. Whatever comes to its end then, frames of any bytes, frames that are refused, ticks, resets, starts and stops:
/// messages have their turns in order, each is replied to exactly as is read of what was noted before, or is held for the blocks that are
/// read to lack; behind each event all have had their turns up to one that is held and lacks room; outside of turns only what is due is
/// answered; and sessions end by resets exactly where they are asked for. So it is with the node of `end`, over any bytes of a line or of a
/// byte link. Of version 01 nothing is said: a boot writes such a memory anew, as version 02, and its node isn't the one (`found`) of these
/// clauses.
pub fn a_node_alone_answers_every_message()
    ensures answered { (number link : ℕ) (m : Memory) → 1 ≤ link → link ≤ 7 → ((number == 0) ≡ false → number ≡ link) → (causes : List LoneCause) →
        AnsweredAlone (found number (link ∷ []) m.content).core link (lone_events (lone_booted number link m) causes) }
    ensures ends { (form : EndForm) (is_clf : Bool) (m : Memory) (bytes : List ℕ) →
        AnsweredAlone (found (if is_clf then 0 else 2) (2 ∷ []) m.content).core 2 (end_history form (end_node is_clf m) bytes) }
{}

/// In a history whose messages have their turns in order, each message that has its turn is the first of those that are read to have come there
/// since its node booted and to have had none: so it is with every node alone that answers.
pub fn messages_that_have_turns_are_the_first()
    ensures { (found : Core) (h : ℕ) (events : List LoneEvent) → AnsweredAlone found h events → (front back : List Entry) (e : End) (pid : ℕ) →
        (message : List ℕ) → entries_of_events_alone events ≡ front ++ (Turn e pid message ∷ back) → oldest (unhandled_in front e) ≡ Some (pid, message) }
{}

/// Over such a run the memory keeps the commands that are noted. At its end a boot finds the tables of the records at its beginning with
/// these commands carried out in their order, all pipes closed; where the power went in a write, all but the last one may be found. That is
/// said of each memory in which a boot finds something sound of version 02, or nothing at all (`IsReadyMemory`): a store has made of any memory that
/// it takes such a one before its node runs. Where the head names no more records of a snapshot than its base and its records make, a boot
/// counts so many more, up to 4,294,967,295; a count at its last value stays there. Where no generation is left, a command whose record doesn't
/// fit is refused, and isn't noted.
pub fn a_node_alone_keeps_its_commands()
    ensures held { (number link : ℕ) (m : Memory) → 1 ≤ link → link ≤ 7 → ((number == 0) ≡ false → number ≡ link) → IsReadyMemory m.content
        → (causes : List LoneCause) →
        IsHeldBehind m.content (commands_of_entries (entries_of_events_alone (lone_events (lone_booted number link m) causes)))
        (lone_after (lone_booted number link m) causes) }
    ensures ends { (form : EndForm) (is_clf : Bool) (m : Memory) → IsReadyMemory m.content → (bytes : List ℕ) →
        IsHeldBehind m.content (commands_of_entries (entries_of_events_alone (end_history form (end_node is_clf m) bytes)))
        (lone_after (end_node is_clf m) (end_causes form (end_node is_clf m) bytes)) }
{}

/// A boot makes of each memory that it takes one that is ready, in which the next boot finds the same tables and the same count: it formats one
/// that says nothing, and writes one of version 01 anew. Each further record counts in it where it was written anew, or where each counted before.
pub fn a_boot_makes_a_memory_ready()
    ensures ready { (content : List ℕ) → IsTakenMemory content → IsReadyMemory (behind_boot content) }
    ensures same { (content : List ℕ) → IsTakenMemory content → FindsSame content (behind_boot content) }
    ensures counts { (content : List ℕ) → IsTakenMemory content → ((journal content).head.version ≡ 1) ⊎ CountsAll content
        → CountsAll (behind_boot content) }
{}
