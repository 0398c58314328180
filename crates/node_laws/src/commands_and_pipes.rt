//! What nodes keep over power cuts, as the laws of the machine of a node and of the world of nodes. Nothing here runs.

ghost use Rattle.std.specs.Prelude.{◌≡◌, ◌⊎◌, ℕ, ◌+◌, ◌-◌, ◌^◌, ◌≤◌, min, true, false, List, Some, length, [], ◌++◌};
ghost use Rattle.std.specs.List.{AllByRecursion};
ghost use Rattle.swp_base.specs.InMemory.{Memory};
ghost use Rattle.journal_laws.specs.declared.state.State.{State};
ghost use Rattle.journal_laws.specs.Journal.{count_of};
ghost use Rattle.journal_laws.specs.Planned.{fails_within, after_planned};
ghost use Rattle.hci_tables.specs.declared.command.Command.{Command};
ghost use Rattle.hci_tables.specs.Commands.{IsCommand};
ghost use Rattle.hci_tables.specs.Bodies.{body_of};
ghost use Rattle.hci_tables.specs.Tables.{HciTables, AreTables, apply};
ghost use Rattle.hci_store.specs.Recordable.{IsRecordable};
ghost use Rattle.hci_store.specs.Committing.{commit_writes, committed};
ghost use Rattle.trace_model.specs.declared.entry.Entry.{Entry};
ghost use Rattle.trace_model.specs.declared.line.Header.{Header};
ghost use Rattle.trace_model.specs.declared.line.Line.{Line};
ghost use Rattle.node_machine.specs.Parts.{Work, Deed};
ghost use Rattle.node_machine.specs.Carrying.{all_done};
ghost use Rattle.node_machine.specs.Node.{NodeInput, steps};
ghost use Rattle.node_machine.specs.world.World.{NodeWorld, Happening, new_world, world_step};
ghost use Rattle.node_machine.specs.world.NodeFilters.{commands_in};
ghost use Rattle.node_machine.specs.world.NodeHistories.{NodeHistory, FollowsNodes, node_entries};
ghost use Rattle.node_machine.specs.world.NodeLegal.{Allowed, Kept};
ghost use Rattle.node_laws.specs.steps.Waiting.{IsAllowedStill};
ghost use Rattle.node_laws.specs.kept.Finds.{BootFinds, Knows, FindsRoom};
ghost use Rattle.node_laws.specs.kept.Books.{StillRuns, HasLostPower};
ghost use Rattle.node_laws.specs.kept.Deeds.{MayBeDone};
ghost use Rattle.node_machine.specs.Orders.{IsOnOrder};
ghost use Rattle.node_laws.specs.kept.Hosts.{AreHosts, IsNodeNumber, IsSentByHost, IsFew};
ghost use Rattle.node_laws.specs.kept.Worlds.{AllKeep, MayHappen};
ghost use Rattle.node_machine.specs.world.NodeHistories.{world_after};

/// A node commits a command that may be recorded and finds room: where all its writes go through, a boot finds one command more and
/// the tables that it makes; where one of them fails, in whatever way, a boot finds those from before, or those from after. So it is
/// also where a snapshot is written first.
pub fn a_commit_is_kept_or_left_out()
    ensures kept { (m : Memory) (s : State) (t : HciTables) (c : Command) → Knows m.content s t → AreTables t → IsRecordable t → IsCommand c
        → FindsRoom s c → fails_within (length (commit_writes s t (body_of c))) m.plan ≡ false
        → Knows (after_planned (commit_writes s t (body_of c)) m).content (committed s t (body_of c)) (apply t c) }
    ensures count { (m : Memory) (s : State) (t : HciTables) (c : Command) → Knows m.content s t → AreTables t → IsRecordable t → IsCommand c
        → FindsRoom s c → count_of (committed s t (body_of c)) ≡ min (count_of s + 1) (2 ^ 32 - 1) }
    ensures cut { (m : Memory) (s : State) (t : HciTables) (c : Command) → Knows m.content s t → AreTables t → IsRecordable t → IsCommand c
        → FindsRoom s c → fails_within (length (commit_writes s t (body_of c))) m.plan ≡ true
        → BootFinds (after_planned (commit_writes s t (body_of c)) m).content t (count_of s)
        ⊎ BootFinds (after_planned (commit_writes s t (body_of c)) m).content (apply t c) (count_of (committed s t (body_of c))) }
{}

/// A node does the deeds of a message, of which one at most is a commit, and one that may be recorded and finds room; or a whole step
/// of it, with the turns of all messages that came. It runs on with exactly the tables and the count that are read off the entries, over
/// a memory that holds them; or one of its writes failed, and a boot finds all commands that were noted, or all but the last one.
pub fn a_step_is_kept_or_cut()
    ensures deeds { (n : ℕ) (hosts : List ℕ) (old : Memory) (before : List Entry) (h : ℕ) (deeds : List Deed) (w : Work) →
        StillRuns n hosts old before w → MayBeDone (Some w.core.journal) w.core.command w.core.init deeds →
        (n ≡ 0 → AllByRecursion (IsAllowedStill w.core.tables w.ports) deeds) →
        (StillRuns n hosts old before (all_done h deeds w) × IsOnOrder (all_done h deeds w).core.command (all_done h deeds w).core.init)
        ⊎ HasLostPower n old before (all_done h deeds w) }
    ensures step { (n : ℕ) (hosts : List ℕ) (old : Memory) (before : List Entry) (input : NodeInput) (w : Work) → IsNodeNumber n → AreHosts hosts →
        StillRuns n hosts old before w → IsOnOrder w.core.command w.core.init →
        (StillRuns n hosts old before (steps input w) × IsOnOrder (steps input w).core.command (steps input w).core.init)
        ⊎ HasLostPower n old before (steps input w) }
{}

/// In a world that begins with blank memories nothing is read of any node, and each node keeps it so. Whatever happens then, each node
/// that runs has exactly the tables and the count that are read off the entries, and a boot would find the commands of each node, or
/// all but the last one where the power went in that one's writes: so it is at each moment between events. It asks for hosts from 01
/// to 07 that are all different, and that no node has more commands than a journal counts; the power is cut of a node that runs,
/// and a host that sends a command on pipe 01 has none that isn't answered.
pub fn whatever_happens_is_kept()
    ensures begin { (hosts : List ℕ) → AllKeep hosts [] (new_world hosts) }
    ensures event { (hosts : List ℕ) (t : List Entry) (w : NodeWorld) (c : Happening) → AreHosts hosts → AllKeep hosts t w → MayHappen w c →
        ((n : ℕ) → length (commands_in t n) ≤ 2 ^ 32 - 1) → AllKeep hosts (t ++ (world_step w c).1) (world_step w c).0 }
{}

/// Behind any lines of a schedule the controller and each host that run have exactly the tables and the count that are read off the
/// entries, and the memory of each node, whether it runs or not, holds all of its commands, or all but the last one where the power
/// went in that one's writes: these a boot would find. It asks for hosts from 01 to 07 that are all different, for messages that hosts
/// send, and that no node has more commands than a journal counts.
pub fn nodes_keep_what_is_read()
    ensures { (header : Header) (lines : List Line) (t : NodeHistory) → FollowsNodes header lines t → AreHosts header.hosts.items →
        AllByRecursion IsSentByHost lines → IsFew (node_entries t) →
        AllKeep header.hosts.items (node_entries t) (world_after (new_world header.hosts.items) lines) }
{}

/// Commands are kept over power cuts: each boot finds all commands of its node, or all but the last one where the power went in that
/// one's writes; ANY_OK counts all commands, and no later boot finds fewer than it counted; and tables that are told are those of the
/// entries. It asks for what `nodes_keep_what_is_read` asks for.
pub fn commands_are_kept()
    ensures { (header : Header) (lines : List Line) (t : NodeHistory) → FollowsNodes header lines t → AreHosts header.hosts.items →
        AllByRecursion IsSentByHost lines → IsFew (node_entries t) → Kept t }
{}

/// Every pipe between two hosts was made while the whitelist of its destination held its creator, as both are read off the entries
/// before it. It asks for what `nodes_keep_what_is_read` asks for.
pub fn pipes_are_made_as_allowed()
    ensures { (header : Header) (lines : List Line) (t : NodeHistory) → FollowsNodes header lines t → AreHosts header.hosts.items →
        AllByRecursion IsSentByHost lines → IsFew (node_entries t) → Allowed (node_entries t) }
{}
