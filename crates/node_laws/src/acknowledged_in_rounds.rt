//! How many more fragments count as acknowledged at the ends of a world of nodes that goes through rounds. There is no code here that runs.

ghost use Rattle.std.specs.Prelude.{◌≡◌, ◌∷◌, ◌++◌, ◌+◌, ◌*◌, ◌≤◌, ℕ, List, Some, length};
ghost use Rattle.trace_model.specs.declared.line.End.{End};
ghost use Rattle.trace_model.specs.declared.line.Header.{Header};
ghost use Rattle.trace_model.specs.declared.line.Line.{Line};
ghost use Rattle.node_machine.specs.world.Lines.{Occurrence, frames_at};
ghost use Rattle.node_machine.specs.world.NodeHistories.{FollowsNodes, NodeHistory, occurrences_in};
ghost use Rattle.node_machine.specs.world.World.{Site, new_world, site_at};
ghost use Rattle.node_laws.specs.kept.Hosts.{AreDifferent, AreHosts};
ghost use Rattle.node_laws.specs.telling.Telling.{world_behind};
ghost use Rattle.node_laws.specs.links.Runs.{ArePlayable};
ghost use Rattle.node_laws.specs.acked.InTurn.{CountsFit, CountsWithin};
ghost use Rattle.node_laws.specs.acked.AckedRounds.{AllMayCome, AreAckedWithin, HostAcksAtMost, Leg, amid_round, frames_taken};
ghost use Rattle.node_laws.specs.acked.AckedRounds.{rounds_gone, world_after_legs};
ghost use Rattle.node_machine.specs.world.Rounds.{ends_in_order, ends_take_all, rounds_of_world};

/// In a world of hosts that are all different, whatever happened in it before and through how many rounds it went: so many rounds have at
/// most four times as many more fragments count as acknowledged at each end of each link. So where at most b count at each of them, at
/// most 4 r more do behind r rounds (`each`).
pub fn rounds_of_a_world_acknowledge_few()
    ensures links { (hosts : List ℕ) → AreDifferent hosts → (legs : List Leg) → AllMayCome (new_world hosts) legs → (h : ℕ) (s : Site) →
        site_at (world_after_legs (new_world hosts) legs).sites h ≡ Some s → (r : ℕ) →
        HostAcksAtMost (4 * r) h s (rounds_of_world r (world_after_legs (new_world hosts) legs)).0 }
    ensures each { (hosts : List ℕ) → AreDifferent hosts → (legs : List Leg) → AllMayCome (new_world hosts) legs → (b r : ℕ) →
        AreAckedWithin b (world_after_legs (new_world hosts) legs) →
        AreAckedWithin (b + 4 * r) (rounds_of_world r (world_after_legs (new_world hosts) legs)).0 }
{}

/// In the midst of a round of such a world, where some ends have taken all that stood on their wires and the next one has taken some of
/// what stands on its own, at most four more than before the round count.
pub fn rounds_of_a_world_acknowledge_few_at_each_moment()
    ensures links { (hosts : List ℕ) → AreDifferent hosts → (legs : List Leg) → AllMayCome (new_world hosts) legs → (h : ℕ) (s : Site) →
        site_at (world_after_legs (new_world hosts) legs).sites h ≡ Some s → (front back : List End) (e : End) (k : ℕ) →
        ends_in_order (world_after_legs (new_world hosts) legs) ≡ front ++ e ∷ back →
        k ≤ length (frames_at (ends_take_all (world_after_legs (new_world hosts) legs) front).0 e) →
        HostAcksAtMost 4 h s (amid_round (world_after_legs (new_world hosts) legs) front e k) }
    ensures each { (hosts : List ℕ) → AreDifferent hosts → (legs : List Leg) → AllMayCome (new_world hosts) legs → (front back : List End)
        (e : End) (k : ℕ) → ends_in_order (world_after_legs (new_world hosts) legs) ≡ front ++ e ∷ back →
        k ≤ length (frames_at (ends_take_all (world_after_legs (new_world hosts) legs) front).0 e) → (b : ℕ) →
        AreAckedWithin b (world_after_legs (new_world hosts) legs) →
        AreAckedWithin (b + 4) (amid_round (world_after_legs (new_world hosts) legs) front e k) }
{}

/// No more messages count as acknowledged at an end of such a world, as the entries tell it, than fragments.
pub fn messages_of_a_world_are_acknowledged_by_their_fragments()
    ensures { (hosts : List ℕ) → AreDifferent hosts → (legs : List Leg) → AllMayCome (new_world hosts) legs → (h : ℕ) (s : Site) →
        site_at (world_after_legs (new_world hosts) legs).sites h ≡ Some s →
        CountsWithin s.link.controller.side × CountsWithin s.link.host.side }
{}

/// So rounds acknowledge few at the end of each event of a history of hosts from 01 to 07 that are all different.
pub fn rounds_behind_a_history_acknowledge_few()
    ensures { (header : Header) (lines : List Line) (t : NodeHistory) → FollowsNodes header lines t → AreHosts header.hosts.items →
        ArePlayable lines → (front back : List Occurrence) → occurrences_in t ≡ front ++ back → (h : ℕ) (s : Site) →
        site_at (world_behind (new_world header.hosts.items) front).sites h ≡ Some s → (r : ℕ) →
        HostAcksAtMost (4 * r) h s (rounds_of_world r (world_behind (new_world header.hosts.items) front)).0 }
{}

/// Whatever happens in a world of hosts that are all different, and through however many rounds it goes, only an end that takes a frame has
/// more fragments acknowledged, and at most four: behind so many frames that are taken outside rounds and so many rounds, at most four times
/// as many count as acknowledged at each end of each link. So where both together are at most a thousand million, the fragments and messages
/// that count fit 32 bits, also in the midst of one round more.
pub fn frames_and_rounds_bound_what_is_acknowledged()
    ensures each { (hosts : List ℕ) → AreDifferent hosts → (legs : List Leg) → AllMayCome (new_world hosts) legs →
        AreAckedWithin (4 * (frames_taken legs + rounds_gone legs)) (world_after_legs (new_world hosts) legs) }
    ensures fit { (hosts : List ℕ) → AreDifferent hosts → (legs : List Leg) → AllMayCome (new_world hosts) legs →
        frames_taken legs + rounds_gone legs ≤ 1000000000 → (h : ℕ) (s : Site) →
        site_at (world_after_legs (new_world hosts) legs).sites h ≡ Some s → CountsFit s.link }
    ensures fit_in_midst { (hosts : List ℕ) → AreDifferent hosts → (legs : List Leg) → AllMayCome (new_world hosts) legs →
        frames_taken legs + rounds_gone legs ≤ 1000000000 → (front back : List End) (e : End) (k : ℕ) →
        ends_in_order (world_after_legs (new_world hosts) legs) ≡ front ++ e ∷ back →
        k ≤ length (frames_at (ends_take_all (world_after_legs (new_world hosts) legs) front).0 e) → (h : ℕ) (s : Site) →
        site_at (amid_round (world_after_legs (new_world hosts) legs) front e k).sites h ≡ Some s → CountsFit s.link }
{}
