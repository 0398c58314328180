//! A host's replies to messages, and what it holds, are those that are read off all that was noted until their turns. Nothing here runs.

ghost use Rattle.std.specs.Prelude.{◌≡◌, ◌≤◌, ◌==◌, ℕ, false, List, Some};
ghost use Rattle.trace_model.specs.declared.line.Header.{Header};
ghost use Rattle.trace_model.specs.declared.line.Line.{Line};
ghost use Rattle.trace_model.specs.Lines.{IsNodeHeader};
ghost use Rattle.node_machine.specs.world.NodeHistories.{FollowsNodes, NodeHistory};
ghost use Rattle.node_laws.specs.answers.Moments.{AtEachEntry};
ghost use Rattle.node_laws.specs.answers.Order.{turn_link};
ghost use Rattle.node_laws.specs.answers.Answered.{IsHeldFor, IsReplied};
ghost use Rattle.node_laws.specs.schedules.Ranges.{AreNodeLinesOf, lines_asking};

/// In a history that follows a schedule whose header and lines are in their ranges, where 20,000 lines at most ask for something, each message
/// that has its turn at a host is replied to as is read, also while its init runs, and each that is noted as held there is the first one that
/// came and had no turn, wasn't noted so before, and lacks what is noted.
pub fn hosts_reply_as_is_read()
    ensures replied { (header : Header) (lines : List Line) (t : NodeHistory) → FollowsNodes header lines t → IsNodeHeader header →
        AreNodeLinesOf header lines → lines_asking lines ≤ 20000 →
        AtEachEntry t (λ m x behind. (n k : ℕ) → (n == 0) ≡ false → turn_link n x ≡ Some k →
        IsReplied t.header.hosts.items m x behind × IsHeldFor t.header.hosts.items m x behind) }
{}
