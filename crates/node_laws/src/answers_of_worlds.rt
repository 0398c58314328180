//! In each event of a history of a world of nodes sessions end by resets exactly where those are due: as a line asks for one at an end
//! that is up, or as a notice is late. Nothing here runs.

ghost use Rattle.std.specs.Prelude.{◌≤◌};
ghost use Rattle.std.specs.List.{AllByRecursion};
ghost use Rattle.trace_model.specs.declared.line.Header.{Header};
ghost use Rattle.trace_model.specs.declared.line.Line.{Line};
ghost use Rattle.std.specs.Prelude.{List};
ghost use Rattle.node_machine.specs.world.NodeHistories.{FollowsNodes, NodeHistory, node_entries};
ghost use Rattle.node_laws.specs.links.Runs.{ArePlayable};
ghost use Rattle.node_laws.specs.kept.Hosts.{AreHosts, IsFew, IsSentByHost};
ghost use Rattle.node_laws.specs.views.Inits.{IsBegunByHost};
ghost use Rattle.node_laws.specs.power.Powers.{CutsEndParts};
ghost use Rattle.node_laws.specs.answers.Answered.{AreReset};
ghost use Rattle.node_laws.specs.answers.Moments.{AtEachOccurrence};
ghost use Rattle.trace_model.specs.Lines.{IsNodeHeader};
ghost use Rattle.node_laws.specs.schedules.Ranges.{AreNodeLinesOf, lines_asking};
ghost use Rattle.node_laws.specs.answers.Order.{NodesEmitLast, NodesHearFirst, TurnsAscend};

/// In each event of a history that follows a schedule the session of each end ends by a reset of its own exactly where that is due: a line
/// resets that end while it is up, or the event is the hundredth tick of the unanswered notice to the host of a controller's end, whose
/// session doesn't end otherwise then. It asks for hosts from 01 to 07 that are all different, lines that can be played, messages that
/// hosts send, inits that hosts begin, and no more commands than a journal counts; a schedule whose header and lines are in their ranges
/// meets all that.
pub fn sessions_end_by_resets_where_due()
    ensures histories { (header : Header) (lines : List Line) (t : NodeHistory) → FollowsNodes header lines t → AreHosts header.hosts.items →
        ArePlayable lines → AllByRecursion IsSentByHost lines → AllByRecursion IsBegunByHost lines → IsFew (node_entries t) →
        AtEachOccurrence t (AreReset t.header.hosts.items) }
    ensures schedules { (header : Header) (lines : List Line) (t : NodeHistory) → FollowsNodes header lines t → IsNodeHeader header →
        AreNodeLinesOf header lines → lines_asking lines ≤ 20000 → AtEachOccurrence t (AreReset t.header.hosts.items) }
{}

/// In a history that follows a schedule whose header is in its ranges a cut of a node's power ends its part of the event.
pub fn events_of_schedules_end_where_power_goes()
    ensures ended { (header : Header) (lines : List Line) (t : NodeHistory) → FollowsNodes header lines t → IsNodeHeader header → CutsEndParts t }
{}

/// In each event of a history that follows a schedule whose header is in its ranges what comes to a node is noted before what the node
/// answers: behind an answer of a node no session of an end of it begins or ends, no message comes there, and none is acknowledged.
pub fn nodes_hear_before_they_answer()
    ensures heard { (header : Header) (lines : List Line) (t : NodeHistory) → FollowsNodes header lines t → IsNodeHeader header → NodesHearFirst t }
{}

/// In each event of a history that follows a schedule whose header is in its ranges the frames that go out of a node stand behind all else
/// that it does there: behind a frame that it puts on a wire nothing tells of it but further frames. So no frame of an answer goes out before
/// the commands that are written there.
pub fn frames_go_out_last()
    ensures emitted { (header : Header) (lines : List Line) (t : NodeHistory) → FollowsNodes header lines t → IsNodeHeader header → NodesEmitLast t }
{}

/// In each event of a history that follows a schedule whose header and lines are in their ranges the messages of a node that have their
/// turns or are held stand in the order of its ends: those of the controller by the hosts of its links, ascending.
pub fn turns_of_nodes_ascend()
    ensures ascend { (header : Header) (lines : List Line) (t : NodeHistory) → FollowsNodes header lines t → IsNodeHeader header →
        AreNodeLinesOf header lines → TurnsAscend t }
{}
