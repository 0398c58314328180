//! Which commit a boot finds where the power went in its writes: the law of a commit that was cut, over a memory whose failing write
//! is planned; and over whole histories exactly which commands each boot finds, and where the power goes. Nothing here runs.

ghost use Rattle.std.specs.List.{AllByRecursion};
ghost use Rattle.std.specs.Prelude.{◌≡◌, ◌⊎◌, ℕ, ◌-◌, ◌^◌, ◌<◌, ◌++◌, List, [], ◌∷◌, length, min, true, false, if◌then◌else◌, IsSome};
ghost use Rattle.swp_base.specs.InMemory.{Memory};
ghost use Rattle.journal_laws.specs.declared.state.State.{State};
ghost use Rattle.journal_laws.specs.Banks.{current};
ghost use Rattle.journal_laws.specs.Journal.{count_of, is_open_beside, state_of};
ghost use Rattle.journal_laws.specs.Planned.{fails_within, after_planned};
ghost use Rattle.hci_tables.specs.declared.command.Command.{Command};
ghost use Rattle.hci_tables.specs.Commands.{IsCommand};
ghost use Rattle.hci_tables.specs.Bodies.{body_of};
ghost use Rattle.hci_tables.specs.Tables.{HciTables, AreTables, no_tables, apply, after_commands};
ghost use Rattle.hci_store.specs.Recordable.{IsRecordable};
ghost use Rattle.hci_store.specs.Committing.{record_fits, room_writes, with_room, commit_writes, committed};
ghost use Rattle.trace_model.specs.declared.entry.Entry.{Entry};
ghost use Rattle.trace_model.specs.declared.entry.Entry.TheVariants as entry;
ghost use Rattle.trace_model.specs.declared.line.Header.{Header};
ghost use Rattle.trace_model.specs.declared.line.Line.{Line};
ghost use Rattle.node_machine.specs.Parts.{Work};
ghost use Rattle.node_machine.specs.Carrying.{commit};
ghost use Rattle.node_machine.specs.Node.{NodeInput, steps};
ghost use Rattle.node_machine.specs.world.World.{frames_noted};
ghost use Rattle.link_laws.specs.messages.Links.{Link};
ghost use Rattle.link_laws.specs.entries.Entries.{End as Side};
ghost use Rattle.node_machine.specs.Orders.{IsOnOrder};
ghost use Rattle.node_machine.specs.world.NodeFilters.{commands_in};
ghost use Rattle.node_machine.specs.world.NodeHistories.{FollowsNodes, NodeHistory, node_entries};
ghost use Rattle.node_laws.specs.kept.Hosts.{AreHosts, IsFew, IsNodeNumber, IsSentByHost};
ghost use Rattle.node_laws.specs.kept.Books.{StillRuns};
ghost use Rattle.node_laws.specs.kept.Finds.{BootFinds, Knows, FindsRoom};
ghost use Rattle.node_laws.specs.kept.Gates.{opens_gate};
ghost use Rattle.node_laws.specs.kept.Reckonings.{Reckoning, writes_of};
ghost use Rattle.node_laws.specs.cuts.Histories.{AreCutAsPlanned, AreFoundExactly, BootsWriteSo, CommandsWriteSo, MemoriesHold, StandsInMemories};

/// A node commits a command that may be recorded and finds room, and one of its writes fails. The last of them is that of the record's
/// gate, also where a snapshot is written first. A boot finds the command exactly where that one failed and left 5A; wherever else the
/// power went, in the record's body, in any write of a snapshot, or in the gate with another byte, a boot finds the tables and the
/// count from before. A count that stands at its last value, 4,294,967,295, doesn't tell the two apart: `only` asks for a lower one.
pub fn a_cut_commit_is_found_exactly_where_its_gate_was_opened()
    ensures opened { (m : Memory) (s : State) (t : HciTables) (c : Command) → Knows m.content s t → AreTables t → IsRecordable t → IsCommand c
        → FindsRoom s c → fails_within (length (commit_writes s t (body_of c))) m.plan ≡ true
        → opens_gate (length (commit_writes s t (body_of c))) m.plan ≡ true
        → BootFinds (after_planned (commit_writes s t (body_of c)) m).content (apply t c) (count_of (committed s t (body_of c))) }
    ensures closed { (m : Memory) (s : State) (t : HciTables) (c : Command) → Knows m.content s t → AreTables t → IsRecordable t → IsCommand c
        → FindsRoom s c → fails_within (length (commit_writes s t (body_of c))) m.plan ≡ true
        → opens_gate (length (commit_writes s t (body_of c))) m.plan ≡ false
        → BootFinds (after_planned (commit_writes s t (body_of c)) m).content t (count_of s) }
    ensures only { (m : Memory) (s : State) (t : HciTables) (c : Command) → Knows m.content s t → AreTables t → IsRecordable t → IsCommand c
        → FindsRoom s c → fails_within (length (commit_writes s t (body_of c))) m.plan ≡ true → count_of s < 2 ^ 32 - 1
        → BootFinds (after_planned (commit_writes s t (body_of c)) m).content (apply t c) (count_of (committed s t (body_of c)))
        → opens_gate (length (commit_writes s t (body_of c))) m.plan ≡ true }
{}

/// Where the record doesn't fit, the snapshot goes to the other bank, and that one is in use exactly from the snapshot's own gate on:
/// where this gate's write failed and left 5A, or the power went later. Either way the tables and the count are those from before, but
/// where the record's gate was opened too. If the power went earlier, or the gate holds another byte, the bank from before is in use.
/// Where the record fits, there is no snapshot, and the two banks are the same.
pub fn a_cut_commit_changes_banks_exactly_where_its_snapshot_was_opened()
    ensures stayed { (m : Memory) (s : State) (t : HciTables) (c : Command) → Knows m.content s t → AreTables t → IsRecordable t → IsCommand c
        → FindsRoom s c → fails_within (length (commit_writes s t (body_of c))) m.plan ≡ true
        → fails_within (length (room_writes s t (body_of c))) m.plan ≡ true → opens_gate (length (room_writes s t (body_of c))) m.plan ≡ false
        → current (after_planned (commit_writes s t (body_of c)) m).content ≡ s.in_use }
    ensures moved { (m : Memory) (s : State) (t : HciTables) (c : Command) → Knows m.content s t → AreTables t → IsRecordable t → IsCommand c
        → FindsRoom s c → fails_within (length (commit_writes s t (body_of c))) m.plan ≡ true
        → (fails_within (length (room_writes s t (body_of c))) m.plan ≡ false) ⊎ (opens_gate (length (room_writes s t (body_of c))) m.plan ≡ true)
        → current (after_planned (commit_writes s t (body_of c)) m).content ≡ (with_room s t (body_of c)).in_use }
{}

/// A node in a step commits a command that may be recorded and finds room, and loses its power in that. Over the memory that it had as
/// the step began: a boot finds all commands that were noted, this one too, exactly where the write that fails is the last one of the
/// step, that of the record's gate, and leaves 5A; else it finds all that were noted before this one.
pub fn a_cut_step_is_found_exactly_where_its_last_gate_was_opened()
    ensures opened { (n : ℕ) (hosts : List ℕ) (old : Memory) (before : List Entry) (c : Command) (w : Work) → StillRuns n hosts old before w
        → IsCommand c → FindsRoom w.core.journal c → (commit c w).cut ≡ true → opens_gate (length (commit c w).writes) old.plan ≡ true
        → BootFinds (after_planned (commit c w).writes old).content (after_commands no_tables (commands_in (before ++ (commit c w).entries) n))
        (min (length (commands_in (before ++ (commit c w).entries) n)) (2 ^ 32 - 1)) }
    ensures closed { (n : ℕ) (hosts : List ℕ) (old : Memory) (before : List Entry) (c : Command) (w : Work) → StillRuns n hosts old before w
        → IsCommand c → FindsRoom w.core.journal c → (commit c w).cut ≡ true → opens_gate (length (commit c w).writes) old.plan ≡ false
        → BootFinds (after_planned (commit c w).writes old).content (after_commands no_tables (commands_in (before ++ w.entries) n))
        (min (length (commands_in (before ++ w.entries) n)) (2 ^ 32 - 1)) }
{}

/// Over every history that follows a schedule: each boot of a node finds one command less than were noted before it exactly where the
/// last one is lost, and else all of them. It is lost where one of its writes failed, and that one wasn't its last, or left another byte
/// than 5A at the gate; then the node's cut stood directly behind it. Which writes a command makes, and which of them fails, is read off
/// the history alone: off the plans that were set, the boots and the commands before it. It asks for hosts from 01 to 07 that are all
/// different, for messages that hosts send, and that no node has more commands than a journal counts.
pub fn boots_find_exactly_the_commands_that_are_read()
    ensures { (header : Header) (lines : List Line) (t : NodeHistory) → FollowsNodes header lines t → AreHosts header.hosts.items →
        AllByRecursion IsSentByHost lines → IsFew (node_entries t) → AreFoundExactly t }
{}

/// Over every such history the power of a node goes exactly as planned: but for a line that cuts it, a cut comes exactly at the write
/// that is to fail, of those since the plan was set. It stands directly behind the command in whose writes that one is; or it is the one
/// entry of a boot that formats the memory, which then doesn't answer. A command whose writes all go through has no cut behind it, and
/// with a write that failed the plan is spent. It asks for what `boots_find_exactly_the_commands_that_are_read` asks for.
pub fn power_goes_exactly_as_planned()
    ensures { (header : Header) (lines : List Line) (t : NodeHistory) → FollowsNodes header lines t → AreHosts header.hosts.items →
        AllByRecursion IsSentByHost lines → IsFew (node_entries t) → AreCutAsPlanned t }
{}

/// Such a history stands in the memories of its nodes: at the end of each event the memory of each node, its bytes and the plan that is
/// left, is the one that is read off the history until then (`stands`). And a boot over it would find the tables of all commands that are
/// read, but for a last one that is lost, and count them (`holds`). It asks for what `boots_find_exactly_the_commands_that_are_read` asks for.
pub fn histories_stand_in_memories()
    ensures stands { (header : Header) (lines : List Line) (t : NodeHistory) → FollowsNodes header lines t → AreHosts header.hosts.items →
        AllByRecursion IsSentByHost lines → IsFew (node_entries t) → StandsInMemories t }
    ensures holds { (header : Header) (lines : List Line) (t : NodeHistory) → FollowsNodes header lines t → AreHosts header.hosts.items →
        AllByRecursion IsSentByHost lines → IsFew (node_entries t) → MemoriesHold t }
{}

/// A command whose record fits makes two writes. One whose record doesn't, where a bank is in use, makes four, and five where the gate
/// of the other bank stands open. Over every history that follows a schedule a boot makes none where the node has booted before, and the
/// two of a format where no boot of it was begun yet; after boots that were cut the bytes in its memory decide. So where it has booted,
/// each command would make two, four or five at the end of each event (`commands`). It asks of histories for what
/// `boots_find_exactly_the_commands_that_are_read` asks for.
pub fn commands_and_boots_make_so_many_writes()
    ensures fits { (c : Command) (r : Reckoning) → record_fits (state_of r.memory.content) (body_of c) ≡ true → length (writes_of c r) ≡ 2 }
    ensures snapshot { (c : Command) (r : Reckoning) → record_fits (state_of r.memory.content) (body_of c) ≡ false → IsSome (current r.memory.content) →
        length (writes_of c r) ≡ (if is_open_beside r.memory.content then 5 else 4) }
    ensures boots { (header : Header) (lines : List Line) (t : NodeHistory) → FollowsNodes header lines t → AreHosts header.hosts.items →
        AllByRecursion IsSentByHost lines → IsFew (node_entries t) → BootsWriteSo t }
    ensures commands { (header : Header) (lines : List Line) (t : NodeHistory) → FollowsNodes header lines t → AreHosts header.hosts.items →
        AllByRecursion IsSentByHost lines → IsFew (node_entries t) → CommandsWriteSo t }
{}

/// A step of a node in which it loses its power ends with that: the last two of its entries are the command in whose writes the power
/// went, and the cut; and no frame goes out of its ends. So a cut ends its node's part of an event.
pub fn a_step_that_loses_its_power_ends_with_its_cut()
    ensures step { (n : ℕ) (hosts : List ℕ) (old : Memory) (before : List Entry) (input : NodeInput) (w : Work) → IsNodeNumber n → AreHosts hosts →
        StillRuns n hosts old before w → IsOnOrder w.core.command w.core.init → (steps input w).cut ≡ true →
        (front : List Entry) × ((c : Command) × ((steps input w).entries ≡ front ++ (entry.Command n c ∷ entry.Cut n ∷ []))) }
    ensures frames { (who : Side) (h : ℕ) (l : Link) (w : Work) → w.cut ≡ true → frames_noted who h l w ≡ [] }
{}
