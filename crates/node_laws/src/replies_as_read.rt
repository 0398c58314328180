//! What a history of a world of nodes must be as to its answers: the definition `Answered`, by what is read off events and entries, and
//! what histories that follow schedules meet of it so far. Nothing here runs.

ghost use Rattle.std.specs.Prelude.{◌≡◌, ◌==◌, ◌∷◌, ◌++◌, ℕ, false, List, Some};
ghost use Rattle.std.specs.List.{AllByRecursion};
ghost use Rattle.trace_model.specs.declared.entry.Entry.{Entry};
ghost use Rattle.trace_model.specs.declared.entry.Entry.TheVariants.{Turn};
ghost use Rattle.trace_model.specs.declared.line.End.{End};
ghost use Rattle.trace_model.specs.declared.line.Header.{Header};
ghost use Rattle.trace_model.specs.declared.line.Line.{Line};
ghost use Rattle.link_laws.specs.machine.Machine.{oldest};
ghost use Rattle.node_machine.specs.Parts.{Running};
ghost use Rattle.node_machine.specs.world.World.{Site, end_c, end_h, new_world, site_at};
ghost use Rattle.node_machine.specs.world.NodeHistories.{FollowsNodes, NodeHistory, node_entries, world_after};
ghost use Rattle.node_laws.specs.kept.Hosts.{AreDifferent};
ghost use Rattle.node_laws.specs.turns.Turns.{AreLeft};
ghost use Rattle.node_laws.specs.answers.Moments.{unhandled_in};

/// In every history of a world whose hosts have different numbers, none of them 00, the messages that are read to have come at an end
/// since its node booted and to have had no turn are, at each moment, those that it got behind the ones that had their turns; a message
/// that has its turn is the first of them; and behind any lines, at an end whose node runs, they are those that the end holds.
pub fn messages_without_turns_are_read()
    ensures moments { (header : Header) (lines : List Line) (t : NodeHistory) → FollowsNodes header lines t → AreDifferent header.hosts.items →
        AllByRecursion (λ h. (h == 0) ≡ false) header.hosts.items → (front back : List Entry) (e : End) → node_entries t ≡ front ++ back →
        AreLeft e front (unhandled_in front e) }
    ensures first { (header : Header) (lines : List Line) (t : NodeHistory) → FollowsNodes header lines t → AreDifferent header.hosts.items →
        AllByRecursion (λ h. (h == 0) ≡ false) header.hosts.items → (front back : List Entry) (e : End) (pid : ℕ) (message : List ℕ) →
        node_entries t ≡ front ++ (Turn e pid message ∷ back) → oldest (unhandled_in front e) ≡ Some (pid, message) }
    ensures hosts { (header : Header) (lines : List Line) (t : NodeHistory) → FollowsNodes header lines t → AreDifferent header.hosts.items →
        AllByRecursion (λ h. (h == 0) ≡ false) header.hosts.items → (h : ℕ) (s : Site) (r : Running) →
        site_at (world_after (new_world header.hosts.items) lines).sites h ≡ Some s → s.node ≡ Some r →
        unhandled_in (node_entries t) (end_h h) ≡ s.link.host.side.got }
    ensures controller { (header : Header) (lines : List Line) (t : NodeHistory) → FollowsNodes header lines t → AreDifferent header.hosts.items →
        AllByRecursion (λ h. (h == 0) ≡ false) header.hosts.items → (h : ℕ) (s : Site) (r : Running) →
        site_at (world_after (new_world header.hosts.items) lines).sites h ≡ Some s →
        (world_after (new_world header.hosts.items) lines).controller ≡ Some r →
        unhandled_in (node_entries t) (end_c h) ≡ s.link.controller.side.got }
{}
