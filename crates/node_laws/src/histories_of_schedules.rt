//! Schedules of worlds of nodes whose header and lines are in their ranges: what the laws of such worlds ask for holds of each of
//! them, so every history that follows one is legal. Nothing here runs.

ghost use Rattle.std.specs.Prelude.{◌≡◌, ◌++◌, ℕ, ◌*◌, ◌≤◌, List, length};
ghost use Rattle.std.specs.List.{AllByRecursion};
ghost use Rattle.trace_model.specs.declared.entry.Entry.{Entry};
ghost use Rattle.trace_model.specs.declared.line.Header.{Header};
ghost use Rattle.trace_model.specs.declared.line.Line.{Line};
ghost use Rattle.trace_model.specs.declared.line.Line.TheVariants as line;
ghost use Rattle.trace_model.specs.Lines.{IsNodeHeader, MayFollow};
ghost use Rattle.node_machine.specs.world.NodeHistories.{FollowsNodes, NodeHistory, node_entries};
ghost use Rattle.node_machine.specs.world.NodeFilters.{commands_in};
ghost use Rattle.node_laws.specs.links.Runs.{ArePlayable};
ghost use Rattle.node_laws.specs.kept.Hosts.{AreHosts, IsFew, IsSentByHost};
ghost use Rattle.node_laws.specs.readings.Worlds.{IsInitOfHost};
ghost use Rattle.node_laws.specs.order.Legal.{LegalNodes};
ghost use Rattle.node_laws.specs.answers.Headline.{IsLegal, IsPlayed, PlayedHistory};
ghost use Rattle.node_laws.specs.schedules.Ranges.{AreNodeLinesOf, IsNodeLineOf, lines_asking};

/// A line that may stand below a header, as a reader of schedules takes it, is in its range, but for one that lets the links settle, which comes
/// to other lines.
pub fn lines_that_may_stand_are_in_their_ranges()
    ensures { (header : Header) (said : Line) → MayFollow header said → ((rounds : ℕ) → said ≡ line.Settle rounds → ⊥) → IsNodeLineOf header said }
{}

/// The hosts of a header of a world of nodes are from 01 to 07 and all different. The lines that may stand below it can be played:
/// a message that is sent isn't empty, its pipe isn't reserved, and a window is from 1 to 4; messages are sent by hosts; and inits are
/// those of hosts, none of whose commands is longer than 4,096 bytes.
pub fn lines_in_their_ranges_can_be_played()
    ensures hosts { (header : Header) → IsNodeHeader header → AreHosts header.hosts.items }
    ensures playable { (header : Header) (lines : List Line) → AreNodeLinesOf header lines → ArePlayable lines }
    ensures sent { (header : Header) (lines : List Line) → IsNodeHeader header → AreNodeLinesOf header lines → AllByRecursion IsSentByHost lines }
    ensures inits { (header : Header) (lines : List Line) → AreNodeLinesOf header lines → AllByRecursion IsInitOfHost lines }
{}

/// Over a history that follows such a schedule no node ever has more commands than 234 for each line that asks for something (`bounded`): no line
/// does by which only frames are taken or time passes, and no more lines do than there are (`lines`). So where 20,000 lines do, no node has more
/// than a journal counts (`few`).
pub fn commands_of_a_schedule_are_few()
    ensures bounded { (header : Header) (lines : List Line) (t : NodeHistory) → FollowsNodes header lines t → IsNodeHeader header →
        AreNodeLinesOf header lines → (front back : List Entry) (n : ℕ) → node_entries t ≡ front ++ back →
        length (commands_in front n) ≤ 234 * lines_asking lines }
    ensures lines { (lines : List Line) → lines_asking lines ≤ length lines }
    ensures few { (header : Header) (lines : List Line) (t : NodeHistory) → FollowsNodes header lines t → IsNodeHeader header →
        AreNodeLinesOf header lines → lines_asking lines ≤ 20000 → IsFew (node_entries t) }
{}

/// Every history that follows a schedule of a world of nodes is legal. It asks for nothing but that the header and the lines are in
/// their ranges, and that 20,000 of them at most ask for something.
pub fn every_history_of_a_schedule_is_legal()
    ensures { (header : Header) (lines : List Line) (t : NodeHistory) → FollowsNodes header lines t → IsNodeHeader header →
        AreNodeLinesOf header lines → lines_asking lines ≤ 20000 → LegalNodes t }
{}

/// The headline: every history that is played from a schedule whose header and lines are in their ranges is legal (`IsLegal`), with nothing
/// else asked for. Below the header of one bare link: messages are in order, quiet links have delivered all, and settled links are quiet.
/// Below a header of nodes: messages are in order, quiet links have delivered all, pipes are allowed, commands are kept, a cut ends its
/// node's part of an event, and frames go out of a node behind all else that it does in one; and every message is answered. Messages have
/// their turns in the order in which they came, at the ends of their node in order, behind all that comes to it; at the end of each event all
/// that came to a node that runs have had them, or all before one that is held; each that has its turn is replied to as is read, and each
/// that is held is held for what it lacks; where a node has made a step and runs on, the first message that is left at an end lacks room as
/// the node leaves that end; what a node answers before its first turn in an event is exactly what is due; and sessions end by resets
/// exactly where they are due.
pub fn every_played_history_is_legal()
    ensures { (header : Header) (lines : List Line) (t : PlayedHistory) → IsPlayed header lines t → IsLegal t }
{}
