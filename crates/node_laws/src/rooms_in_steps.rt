//! The session and the blocks to spare of the ends of a node are read off what was noted so far, at each turn within a step of it.
//! Nothing here runs.

ghost use Rattle.std.specs.Prelude.{◌≡◌, ◌++◌, ◌∷◌, ℕ, List, Some};
ghost use Rattle.trace_model.specs.declared.line.Header.{Header};
ghost use Rattle.trace_model.specs.declared.line.Line.{Line};
ghost use Rattle.link_laws.specs.machine.Machine.{LinkInput};
ghost use Rattle.link_laws.specs.machine.Machine.LinkInput.{Start};
ghost use Rattle.link_laws.specs.messages.Links.{Comes, exchanged};
ghost use Rattle.link_laws.specs.messages.Links.Comes.{Starts};
ghost use Rattle.link_laws.specs.entries.Entries.End.{Controller, Host};
ghost use Rattle.node_machine.specs.Parts.{Running, Work};
ghost use Rattle.node_machine.specs.Carrying.{unless_cut};
ghost use Rattle.node_machine.specs.Turns.{passes};
ghost use Rattle.node_machine.specs.Node.{NodeInput, steps};
ghost use Rattle.node_machine.specs.Node.NodeInput.{AtEnd, TimePasses};
ghost use Rattle.node_machine.specs.world.World.{Site, NodeWorld, new_world, site_at, link_to, input_of, controller_work, host_work, all_aged};
ghost use Rattle.node_machine.specs.world.World.{controller_ticks};
ghost use Rattle.node_machine.specs.world.World.{hosts_tick, comes_at, end_c};
ghost use Rattle.node_machine.specs.world.Lines.{Occurrence};
ghost use Rattle.node_machine.specs.world.NodeHistories.{FollowsNodes, NodeHistory, entries_in, occurrences_in};
ghost use Rattle.node_laws.specs.links.Runs.{ArePlayable};
ghost use Rattle.node_laws.specs.kept.Hosts.{AreHosts};
ghost use Rattle.node_laws.specs.telling.Telling.{world_behind};
ghost use Rattle.node_laws.specs.read_rooms.Moments.{ArePortsRead, HoldsInStep, host_begins_step, host_tick_begins};
ghost use Rattle.node_laws.specs.passes.Steps.{comes_to_pass, controller_begins, controller_tick_begins};

/// A step of a node ends with its pass over its ends, and those of the controller and of a host begin so.
pub fn steps_go_through_ends_from_there()
    ensures pass { (input : NodeInput) (w : Work) → steps input w ≡ unless_cut passes (comes_to_pass input w) }
    ensures controller { (w : NodeWorld) (r : Running) (h : ℕ) (comes : Comes) (f : Work → Work) →
        controller_work w r h comes f ≡ f (controller_begins w r h comes) }
    ensures host { (s : Site) (r : Running) (comes : Comes) (f : Work → Work) → host_work s r comes f ≡ f (host_begins_step s r comes) }
{}

/// Something comes to an end of the controller in a history that follows a schedule: a frame, a reset, or activation that begins. Then at
/// each turn of that step, as the controller decides what it does with a message, the session of each of its ends and the messages that
/// aren't acknowledged there are those that are read off all entries so far; and so are the blocks to spare, where those set aside are. It
/// asks for hosts from 01 to 07 that are all different, and for lines that can be played.
pub fn ends_of_a_controller_are_read_at_each_turn()
    ensures { (header : Header) (lines : List Line) (t : NodeHistory) → FollowsNodes header lines t → AreHosts header.hosts.items →
        ArePlayable lines → (front back : List Occurrence) → occurrences_in t ≡ front ++ back → (w : NodeWorld) →
        world_behind (new_world header.hosts.items) front ≡ w → (r : Running) → w.controller ≡ Some r → (h : ℕ) (comes : Comes) (i : LinkInput) →
        input_of (link_to w.sites h) comes ≡ Some i →
        HoldsInStep (ArePortsRead Controller (entries_in front)) (AtEnd h i) (controller_begins w r h comes) }
{}

/// So it is in its tick, where the frames that grew too old have been noted before.
pub fn ends_of_a_controller_are_read_at_each_turn_of_its_tick()
    ensures { (header : Header) (lines : List Line) (t : NodeHistory) → FollowsNodes header lines t → AreHosts header.hosts.items →
        ArePlayable lines → (front back : List Occurrence) → occurrences_in t ≡ front ++ back → (w : NodeWorld) →
        world_behind (new_world header.hosts.items) front ≡ w → (r : Running) → w.controller ≡ Some r →
        HoldsInStep (ArePortsRead Controller (entries_in front ++ (all_aged w).1)) TimePasses (controller_tick_begins (all_aged w).0 r) }
{}

/// So it is with the one end of a host where a frame or a reset comes to it.
pub fn the_end_of_a_host_is_read_at_each_turn()
    ensures { (header : Header) (lines : List Line) (t : NodeHistory) → FollowsNodes header lines t → AreHosts header.hosts.items →
        ArePlayable lines → (front back : List Occurrence) → occurrences_in t ≡ front ++ back → (w : NodeWorld) →
        world_behind (new_world header.hosts.items) front ≡ w → (h : ℕ) (s : Site) → site_at w.sites h ≡ Some s → (r : Running) →
        s.node ≡ Some r → (comes : Comes) (i : LinkInput) → input_of (exchanged s.link) comes ≡ Some i →
        HoldsInStep (ArePortsRead Host (entries_in front)) (AtEnd h i) (host_begins_step s r comes) }
{}

/// And so it is where activation comes to it, which has begun at the controller's end before.
pub fn the_end_of_a_host_is_read_at_each_turn_of_its_activation()
    ensures { (header : Header) (lines : List Line) (t : NodeHistory) → FollowsNodes header lines t → AreHosts header.hosts.items →
        ArePlayable lines → (front back : List Occurrence) → occurrences_in t ≡ front ++ back → (w : NodeWorld) →
        world_behind (new_world header.hosts.items) front ≡ w → (h power sync : ℕ) (s : Site) →
        site_at (comes_at w (end_c h) (Starts power)).0.sites h ≡ Some s → (r : Running) → s.node ≡ Some r →
        HoldsInStep (ArePortsRead Host (entries_in front ++ (comes_at w (end_c h) (Starts power)).1)) (AtEnd h (Start sync))
        (host_begins_step s r (Starts sync)) }
{}

/// And so it is in its tick, behind those of the controller and of the hosts before it.
pub fn the_end_of_a_host_is_read_at_each_turn_of_its_tick()
    ensures { (header : Header) (lines : List Line) (t : NodeHistory) → FollowsNodes header lines t → AreHosts header.hosts.items →
        ArePlayable lines → (front back : List Occurrence) → occurrences_in t ≡ front ++ back → (w : NodeWorld) →
        world_behind (new_world header.hosts.items) front ≡ w → (s : Site) (before behind : List Site) →
        (controller_ticks (all_aged w).0).0.sites ≡ before ++ s ∷ behind → (r : Running) → s.node ≡ Some r →
        HoldsInStep
        (ArePortsRead Host (entries_in front ++ ((all_aged w).1 ++ ((controller_ticks (all_aged w).0).1 ++ (hosts_tick before).1)))) TimePasses
        (host_tick_begins s r) }
{}
