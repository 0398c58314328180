//! A world of nodes that settles. There is no code here that runs.

ghost use Rattle.std.specs.Prelude.{◌≡◌, ◌+◌, ◌*◌, ◌≤◌, ◌++◌, ℕ, List, Some};
ghost use Rattle.link_laws.specs.messages.Links.{AllAllowed};
ghost use Rattle.lines_told.specs.messages.Recovery.{AreLinkRounds, IsLinkUndisturbed, fragments_left};
ghost use Rattle.world_laws.specs.worlds.LinkSettled.{LinkSettled};
ghost use Rattle.node_laws.specs.rounds.RoundEvents.{rounds_events};
ghost use Rattle.trace_model.specs.declared.line.End.{End};
ghost use Rattle.trace_model.specs.declared.line.Header.{Header};
ghost use Rattle.trace_model.specs.declared.line.Line.{Line};
ghost use Rattle.node_machine.specs.world.Lines.{Occurrence};
ghost use Rattle.node_machine.specs.world.NodeHistories.{FollowsNodes, NodeHistory, entries_in, occurrences_in};
ghost use Rattle.node_laws.specs.kept.Hosts.{AreHosts};
ghost use Rattle.node_laws.specs.telling.Telling.{world_behind};
ghost use Rattle.node_laws.specs.links.Runs.{ArePlayable};
ghost use Rattle.node_laws.specs.order.Told.{AreUpWith};
ghost use Rattle.world_laws.specs.worlds.NotedFragments.{fragments_noted};
ghost use Rattle.node_machine.specs.world.World.{NodeWorld, Site, new_world, site_at, world_step};
ghost use Rattle.node_machine.specs.world.World.Happening.{Takes, Ticks};
ghost use Rattle.node_laws.specs.rounds.LinkEvents.{GoesOnLink, link_events_in};
ghost use Rattle.link_laws.specs.messages.Rest.{IsFirstRest, after_steps};
ghost use Rattle.node_machine.specs.world.Rounds.{rounds_of_world, world_after_round, world_rests, world_rounds_to_settle, world_settling};

/// A world settles in the least number of rounds after which all its links are at rest, or in n where none below n is; and it is then
/// what these rounds make of it.
pub fn worlds_settle_soonest()
    ensures least { (n : ℕ) → (w : NodeWorld) → IsFirstRest world_rests world_after_round n w (world_rounds_to_settle n w) }
    ensures rounds { (n : ℕ) → (w : NodeWorld) → (world_settling n w).0 ≡ after_steps world_after_round (world_rounds_to_settle n w) w }
{}

/// As an end of a world takes a frame, and as time passes, what happens on the link of each host is the event of the law of one link that is
/// said of it, or nothing.
pub fn takes_and_ticks_are_events_on_each_link()
    ensures takes { (w : NodeWorld) → (e : End) → (h : ℕ) → (s : Site) → site_at w.sites h ≡ Some s →
        GoesOnLink (world_step w (Takes e)).0 h s (link_events_in h w (Takes e)) }
    ensures ticks { (w : NodeWorld) → (h : ℕ) → (s : Site) → site_at w.sites h ≡ Some s →
        GoesOnLink (world_step w Ticks).0 h s (link_events_in h w Ticks) }
{}

/// So rounds of a world are events of the law of one link, one after another, on the link of each host.
pub fn rounds_of_a_world_are_events_on_each_link()
    ensures { (r : ℕ) → (w : NodeWorld) → (h : ℕ) → (s : Site) → site_at w.sites h ≡ Some s →
        GoesOnLink (rounds_of_world r w).0 h s (rounds_events h r w) }
{}

/// Where a world of hosts from 01 to 07 that are all different, as it is at the end of an event of a history, settles with 24 (F + 1)
/// rounds at least, F being the fragments of the messages sent both ways on the link of a host that aren't acknowledged, and in these
/// rounds, while they last, both ends of the link are up and ready and no frame of it is lost but of activation, all good messages that
/// were sent on it before are got, and all that were sent on it before are acknowledged. F may be read off the entries (`noted`): the
/// fragments of the messages that both ends sent in the session in which they are up, behind those that count as acknowledged.
pub fn links_of_settled_worlds_have_brought_all()
    ensures links { (header : Header) (lines : List Line) (t : NodeHistory) → FollowsNodes header lines t → AreHosts header.hosts.items →
        ArePlayable lines → (front back : List Occurrence) → occurrences_in t ≡ front ++ back → (h : ℕ) (s : Site) →
        site_at (world_behind (new_world header.hosts.items) front).sites h ≡ Some s → (n : ℕ) →
        IsLinkUndisturbed s.link (rounds_events h (world_rounds_to_settle n (world_behind (new_world header.hosts.items) front))
        (world_behind (new_world header.hosts.items) front)) →
        24 * (fragments_left s.link + 1) ≤ n → LinkSettled (world_settling n (world_behind (new_world header.hosts.items) front)).0 h s }
    ensures noted { (header : Header) (lines : List Line) (t : NodeHistory) → FollowsNodes header lines t → AreHosts header.hosts.items →
        ArePlayable lines → (front back : List Occurrence) → occurrences_in t ≡ front ++ back → (h : ℕ) (s : Site) →
        site_at (world_behind (new_world header.hosts.items) front).sites h ≡ Some s → (n k : ℕ) →
        IsLinkUndisturbed s.link (rounds_events h (world_rounds_to_settle n (world_behind (new_world header.hosts.items) front))
        (world_behind (new_world header.hosts.items) front)) → AreUpWith (entries_in front) h k →
        24 * (fragments_noted (entries_in front) h k + 1) ≤ n →
        LinkSettled (world_settling n (world_behind (new_world header.hosts.items) front)).0 h s }
{}

/// In such a world rounds of it are rounds of the link of each host on which they are undisturbed so, and all that happens in them may
/// happen there, whatever the nodes do.
pub fn rounds_of_a_world_are_rounds_of_each_undisturbed_link()
    ensures allowed { (header : Header) (lines : List Line) (t : NodeHistory) → FollowsNodes header lines t → AreHosts header.hosts.items →
        ArePlayable lines → (front back : List Occurrence) → occurrences_in t ≡ front ++ back → (h : ℕ) (s : Site) →
        site_at (world_behind (new_world header.hosts.items) front).sites h ≡ Some s → (r : ℕ) →
        AllAllowed s.link (rounds_events h r (world_behind (new_world header.hosts.items) front)) }
    ensures rounds { (header : Header) (lines : List Line) (t : NodeHistory) → FollowsNodes header lines t → AreHosts header.hosts.items →
        ArePlayable lines → (front back : List Occurrence) → occurrences_in t ≡ front ++ back → (h : ℕ) (s : Site) →
        site_at (world_behind (new_world header.hosts.items) front).sites h ≡ Some s → (r : ℕ) →
        IsLinkUndisturbed s.link (rounds_events h r (world_behind (new_world header.hosts.items) front)) →
        AreLinkRounds r s.link (rounds_events h r (world_behind (new_world header.hosts.items) front)) }
{}
