//! In a world of nodes the messages that come at an end have their turns in the order in which they came. Nothing here runs.

ghost use Rattle.std.specs.Prelude.{◌≡◌, ◌==◌, ℕ, false, Some};
ghost use Rattle.std.specs.List.{AllByRecursion};
ghost use Rattle.trace_model.specs.declared.line.Header.{Header};
ghost use Rattle.trace_model.specs.declared.line.Line.{Line};
ghost use Rattle.node_machine.specs.Parts.{Running};
ghost use Rattle.node_machine.specs.world.World.{Site, end_c, end_h, new_world, site_at};
ghost use Rattle.node_machine.specs.world.NodeHistories.{FollowsNodes, NodeHistory, node_entries, world_after};
ghost use Rattle.node_machine.specs.world.NodeLegal.{AreInTurn};
ghost use Rattle.node_laws.specs.kept.Hosts.{AreDifferent};
ghost use Rattle.node_laws.specs.turns.Turns.{AreLeft};
ghost use Rattle.std.specs.Prelude.{List};

/// In every history of a world whose hosts have different numbers, none of them 00, messages have their turns in the order in which
/// they came: since its node booted, those of an end that had one are a front of those that it got. And behind any lines, at an end
/// whose node runs, the messages that it got since then are those that had their turns, and then those that it holds.
pub fn messages_have_their_turns_in_order()
    ensures in_order { (header : Header) (lines : List Line) (t : NodeHistory) → FollowsNodes header lines t → AreDifferent header.hosts.items →
        AllByRecursion (λ h. (h == 0) ≡ false) header.hosts.items → AreInTurn (node_entries t) }
    ensures left_at_hosts { (header : Header) (lines : List Line) (t : NodeHistory) → FollowsNodes header lines t → AreDifferent header.hosts.items →
        AllByRecursion (λ h. (h == 0) ≡ false) header.hosts.items → (h : ℕ) (s : Site) (r : Running) →
        site_at (world_after (new_world header.hosts.items) lines).sites h ≡ Some s → s.node ≡ Some r →
        AreLeft (end_h h) (node_entries t) s.link.host.side.got }
    ensures left_at_controller { (header : Header) (lines : List Line) (t : NodeHistory) → FollowsNodes header lines t →
        AreDifferent header.hosts.items → AllByRecursion (λ h. (h == 0) ≡ false) header.hosts.items → (h : ℕ) (s : Site) (r : Running) →
        site_at (world_after (new_world header.hosts.items) lines).sites h ≡ Some s →
        (world_after (new_world header.hosts.items) lines).controller ≡ Some r →
        AreLeft (end_c h) (node_entries t) s.link.controller.side.got }
{}
