//! What a world of nodes notes of each of its links is what the law of one link notes of the events there. Nothing here runs.

ghost use Rattle.std.specs.Prelude.{◌≡◌, ◌==◌, ℕ, [], List, Some, false};
ghost use Rattle.std.specs.List.{AllByRecursion};
ghost use Rattle.trace_model.specs.declared.line.Header.{Header};
ghost use Rattle.trace_model.specs.declared.line.Line.{Line};
ghost use Rattle.link_laws.specs.machine.Machine.{LinkInput};
ghost use Rattle.link_laws.specs.messages.Links.{Comes, exchanged};
ghost use Rattle.link_laws.specs.messages.Links.EndEvent.{Step};
ghost use Rattle.link_laws.specs.messages.Links.LinkEvent.{AtController, AtHost};
ghost use Rattle.node_machine.specs.Parts.{Running, Work};
ghost use Rattle.node_machine.specs.Node.{steps};
ghost use Rattle.node_machine.specs.Node.NodeInput.{AtEnd};
ghost use Rattle.node_machine.specs.world.World.{Happening, NodeWorld, Site, comes_to, controller_does, controller_work, ending_of, host_does};
ghost use Rattle.node_machine.specs.world.World.{host_work, input_of};
ghost use Rattle.node_machine.specs.world.World.{link_to, new_world, site_at, turns_at, world_step, world_ticks};
ghost use Rattle.node_machine.specs.world.NodeHistories.{FollowsNodes, NodeHistory, node_entries, world_after};
ghost use Rattle.node_laws.specs.kept.Hosts.{AreDifferent};
ghost use Rattle.node_laws.specs.telling.Telling.{AreUntimed, EachGoesSo, GoesSo, IsOrderly, IsTimely, IsUntimed, TellOf, of_link};

/// Where something comes to the controller's end of a link, what the controller notes of any link is what the law of one link notes
/// of the step of its end there: of what comes, of the turns and of the frames that go out.
pub fn steps_of_the_controller_tell_of_each_link()
    ensures { (w : NodeWorld) (r : Running) (k : ℕ) (comes : Comes) (i : LinkInput) (h : ℕ) (s : Site) → IsOrderly w → w.controller ≡ Some r →
        input_of (link_to w.sites k) comes ≡ Some i → site_at w.sites h ≡ Some s →
        let v : Work = controller_work w r k comes (steps (AtEnd k i)) in
        TellOf h s.link (AtController (Step (comes_to k comes h) (turns_at v h) (ending_of v))) (controller_does w k comes (steps (AtEnd k i))).1 }
{}

/// Where something comes to a host's end, what the host notes of its link is what the law of one link notes of that step, and it
/// notes nothing of any other link.
pub fn steps_of_a_host_tell_of_its_link()
    ensures own { (w : NodeWorld) (s : Site) (r : Running) (k : ℕ) (comes : Comes) (i : LinkInput) → IsOrderly w → site_at w.sites k ≡ Some s →
        s.node ≡ Some r → input_of (exchanged s.link) comes ≡ Some i →
        let v : Work = host_work s r comes (steps (AtEnd k i)) in
        TellOf k s.link (AtHost (Step comes (turns_at v s.host) (ending_of v))) (host_does w k comes (steps (AtEnd k i))).1 }
    ensures others { (w : NodeWorld) (s : Site) (r : Running) (k : ℕ) (comes : Comes) (i : LinkInput) → IsOrderly w → site_at w.sites k ≡ Some s →
        s.node ≡ Some r → input_of (exchanged s.link) comes ≡ Some i →
        (h : ℕ) → (k == h) ≡ false → of_link h (host_does w k comes (steps (AtEnd k i))).1 ≡ [] }
{}

/// Whatever happens in a world of nodes but a tick, each link goes on by events of the law of one link, and what the world notes of it
/// is what that law notes of them, in the same order; and the world stays orderly.
pub fn events_tell_of_each_link()
    ensures { (w : NodeWorld) (c : Happening) → IsUntimed c → IsOrderly w → EachGoesSo w (world_step w c).0 (world_step w c).1 }
{}

/// So it is in a tick with each link, where an end whose node doesn't run is new, a notice comes to its hundredth tick only at an end of
/// the controller that is active and up, and none does at a host. Where it does, the link is reset in place of the tick of that end.
pub fn a_tick_tells_of_each_link()
    ensures { (w : NodeWorld) (h : ℕ) (s : Site) → IsOrderly w → site_at w.sites h ≡ Some s → IsTimely w h s →
        GoesSo h s (world_ticks w).0 (world_ticks w).1 }
{}

/// Whatever lines are played in a world whose hosts have different numbers, none of them 00, it stays orderly: so what is said here
/// of orderly worlds holds of it at each moment.
pub fn worlds_stay_orderly()
    ensures { (hosts : List ℕ) (lines : List Line) → AreDifferent hosts → AllByRecursion (λ h. (h == 0) ≡ false) hosts →
        IsOrderly (world_after (new_world hosts) lines) }
{}

/// Over a whole history of such a world in which no line lets time pass, each link goes from its beginning on by events of the law
/// of one link, and what the history notes of it is what that law notes of them.
pub fn histories_without_ticks_tell_of_each_link()
    ensures { (header : Header) (lines : List Line) (t : NodeHistory) → FollowsNodes header lines t → AreDifferent header.hosts.items →
        AllByRecursion (λ h. (h == 0) ≡ false) header.hosts.items → AreUntimed lines →
        EachGoesSo (new_world header.hosts.items) (world_after (new_world header.hosts.items) lines) (node_entries t) }
{}
