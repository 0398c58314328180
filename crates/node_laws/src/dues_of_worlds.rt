//! In each event of a history of a world of nodes what a node does outside turns is what is due. Nothing here runs.

ghost use Rattle.std.specs.Prelude.{◌≤◌, List};
ghost use Rattle.trace_model.specs.declared.line.Header.{Header};
ghost use Rattle.trace_model.specs.declared.line.Line.{Line};
ghost use Rattle.trace_model.specs.Lines.{IsNodeHeader};
ghost use Rattle.node_machine.specs.world.NodeHistories.{FollowsNodes, NodeHistory};
ghost use Rattle.node_laws.specs.answers.Answered.{AreDue};
ghost use Rattle.node_laws.specs.answers.Moments.{AtEachOccurrence};
ghost use Rattle.node_laws.specs.schedules.Ranges.{AreNodeLinesOf, lines_asking};

/// In each event of a history that follows a schedule whose header and lines are in their ranges each node, the controller and each host,
/// answers before its first turn exactly what is due: at a host the message of a line, or the first command of an init; at the controller
/// the commit of each identifier that it takes and doesn't keep yet, then the answers of askers whose asked hosts lose their sessions, and
/// then those of askers whose notices are late.
pub fn answers_outside_turns_are_those_due()
    ensures due { (header : Header) (lines : List Line) (t : NodeHistory) → FollowsNodes header lines t → IsNodeHeader header →
        AreNodeLinesOf header lines → lines_asking lines ≤ 20000 → AtEachOccurrence t (AreDue t.header.hosts.items) }
{}
