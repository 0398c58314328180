//! A cut ends its node's part of an event. Nothing here runs.

ghost use Rattle.std.specs.Prelude.{◌≡◌, ◌==◌, ℕ, false};
ghost use Rattle.std.specs.List.{AllByRecursion};
ghost use Rattle.trace_model.specs.declared.line.Header.{Header};
ghost use Rattle.trace_model.specs.declared.line.Line.{Line};
ghost use Rattle.node_machine.specs.world.NodeHistories.{FollowsNodes, NodeHistory};
ghost use Rattle.node_laws.specs.kept.Hosts.{AreDifferent};
ghost use Rattle.node_laws.specs.power.Powers.{CutsEndParts};
ghost use Rattle.std.specs.Prelude.{List};

/// In every history of a world whose hosts have different numbers, none of them 00, a cut ends its node's part of an event: behind it no
/// entry of the event tells of that node, neither of its commands, answers and power nor of its ends. In a tick the later nodes go on.
pub fn cuts_end_parts_of_events()
    ensures ended { (header : Header) (lines : List Line) (t : NodeHistory) → FollowsNodes header lines t → AreDifferent header.hosts.items →
        AllByRecursion (λ h. (h == 0) ≡ false) header.hosts.items → CutsEndParts t }
{}
