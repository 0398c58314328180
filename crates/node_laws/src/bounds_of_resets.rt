//! Which numbers the sessions of the links of a world have, without counting the frames that are taken. Nothing here runs.

ghost use Rattle.std.specs.Prelude.{◌≡◌, ◌≤◌, ◌++◌, ℕ, List, Some};
ghost use Rattle.std.specs.List.{AllByRecursion};
ghost use Rattle.trace_model.specs.declared.line.Header.{Header};
ghost use Rattle.trace_model.specs.declared.line.Line.{Line};
ghost use Rattle.trace_model.specs.Lines.{IsLineOf};
ghost use Rattle.link_laws.specs.messages.Links.{Comes, IsStart, Link, LinkEvent, after_link_events, exchanged, number_of};
ghost use Rattle.link_laws.specs.messages.Rsets.{FewRsets};
ghost use Rattle.link_laws.specs.entries.Entries.{entries};
ghost use Rattle.history.specs.BareRsets.{rsets_by_all_bare};
ghost use Rattle.history.specs.Histories.{History, all_entries, all_events, causes_of};
ghost use Rattle.history.specs.Follows.{Follows};
ghost use Rattle.node_machine.specs.world.World.{Site, near_end_in, new_world, site_at};
ghost use Rattle.node_machine.specs.world.Lines.{Occurrence};
ghost use Rattle.node_machine.specs.world.NodeHistories.{FollowsNodes, NodeHistory, entries_in, occurrences_in};
ghost use Rattle.node_laws.specs.kept.Hosts.{AreHosts};
ghost use Rattle.node_laws.specs.telling.Telling.{of_link, world_behind};
ghost use Rattle.node_laws.specs.links.Runs.{ArePlayable};
ghost use Rattle.node_laws.specs.rsets.Causes.{happened_in, rsets_by_all};
ghost use Rattle.node_laws.specs.bounds.Resets.{AreNotedWithin, AreSessionsWithin};

/// Where few RSETs were made on a link, no session of its ends has a greater number, also as one takes an RSET (`near`, `far`); and none that
/// is noted has a greater number than how many were put on it until then.
pub fn sessions_of_a_link_have_few_numbers()
    ensures near { (n : ℕ) (l : Link) (comes : Comes) → FewRsets n l → number_of (near_end_in l comes) ≤ n }
    ensures far { (n : ℕ) (l : Link) (comes : Comes) → FewRsets n l → number_of (near_end_in (exchanged l) comes) ≤ n }
    ensures noted { (l : Link) → IsStart l → (events : List LinkEvent) → AreNotedWithin (after_link_events l events).resets (entries l events) }
{}

/// In a history that follows a schedule, for hosts from 01 to 07 that are all different, each session that is noted of a link has a number
/// of at most two for each tick and one for each reset that was asked for until then.
pub fn sessions_of_histories_have_few_numbers()
    ensures { (header : Header) (lines : List Line) (t : NodeHistory) → FollowsNodes header lines t → AreHosts header.hosts.items →
        ArePlayable lines → (front back : List Occurrence) → occurrences_in t ≡ front ++ back → (h : ℕ) (s : Site) →
        site_at (world_behind (new_world header.hosts.items) front).sites h ≡ Some s →
        AreSessionsWithin (rsets_by_all (happened_in front)) (of_link h (entries_in front)) }
{}

/// So it is in a history of a bare world.
pub fn sessions_of_bare_histories_have_few_numbers()
    ensures { (header : Header) (lines : List Line) (t : History) → AllByRecursion (IsLineOf header) lines → Follows header lines t →
        AreSessionsWithin (rsets_by_all_bare (causes_of (all_events t))) (all_entries t) }
{}
