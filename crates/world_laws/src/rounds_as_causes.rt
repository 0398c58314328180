//! The rounds of a world of nodes are causes that happen one after another, like those of any line. There is no code here that runs.

ghost use Rattle.std.specs.Prelude.{◌≡◌, ◌+◌, ◌*◌, ◌≤◌, ◌++◌, ℕ, List, length, true};
ghost use Rattle.std.specs.List.{AllByRecursion};
ghost use Rattle.trace_model.specs.declared.line.Header.{Header};
ghost use Rattle.trace_model.specs.declared.line.Line.{Line};
ghost use Rattle.node_laws.specs.kept.Worlds.{MayHappen};
ghost use Rattle.node_laws.specs.kept.Hosts.{AreHosts};
ghost use Rattle.node_laws.specs.telling.Telling.{IsOrderly, MayBoot, world_behind};
ghost use Rattle.node_machine.specs.world.Lines.{Occurrence, all_happen, can_happen};
ghost use Rattle.node_machine.specs.world.NodeHistories.{FollowsNodes, NodeHistory, occurrences_in};
ghost use Rattle.node_machine.specs.world.World.{Happening, NodeWorld, new_world};
ghost use Rattle.node_laws.specs.links.Runs.{ArePlayable};
ghost use Rattle.node_laws.specs.readings.Worlds.{MayBeRead};
ghost use Rattle.node_laws.specs.rsets.Causes.{happened_in, world_ticks_in};
ghost use Rattle.world_laws.specs.worlds.RoundCauses.{AllCanHappen, AreFewOnWires, AreOfRounds, IsOfRound, IsTakeOrTick};
ghost use Rattle.world_laws.specs.worlds.RoundCauses.{world_round_causes, world_settling_causes};
ghost use Rattle.node_machine.specs.world.Rounds.{rounds_of_world, world_round, world_rounds_to_settle, world_settling};

/// What caused events does them again, and all of it can happen. Causes that all can happen do what they do also before others, and these
/// do behind them what they do there.
pub fn causes_of_events_do_them_again()
    ensures again { (w : NodeWorld) (causes : List Happening) → all_happen w (happened_in (all_happen w causes).1) ≡ all_happen w causes }
    ensures each { (w : NodeWorld) (causes : List Happening) → AllCanHappen w (happened_in (all_happen w causes).1) }
    ensures behind { (w : NodeWorld) (first second : List Happening) → AllCanHappen w first → all_happen w (first ++ second) ≡
        ((all_happen (all_happen w first).0 second).0, (all_happen w first).1 ++ (all_happen (all_happen w first).0 second).1) }
{}

/// So the rounds of a world, and those in which it settles, are what their causes do, and each of these can happen.
pub fn rounds_are_what_their_causes_do()
    ensures rounds { (r : ℕ) (w : NodeWorld) → all_happen w (world_round_causes r w) ≡ rounds_of_world r w }
    ensures settling { (n : ℕ) (w : NodeWorld) → all_happen w (world_settling_causes n w) ≡ world_settling n w }
    ensures each { (n : ℕ) (w : NodeWorld) → AllCanHappen w (world_settling_causes n w) }
{}

/// Each of these causes is that an end takes a frame, or that time passes, whatever the world. Where its hosts are different and its nodes
/// have their ends, it is an end of a link of the world that takes a frame that stands on the wire to it then, while its node runs. Such a
/// cause can happen, and is one that the laws on what is noted of commands, of boots and of messages ask for.
pub fn in_rounds_ends_take_frames_that_stand()
    ensures only { (r : ℕ) (w : NodeWorld) → AllByRecursion IsTakeOrTick (world_round_causes r w) }
    ensures rounds { (r : ℕ) (w : NodeWorld) → IsOrderly w → AreOfRounds w (world_round_causes r w) }
    ensures settling { (n : ℕ) (w : NodeWorld) → IsOrderly w → AreOfRounds w (world_settling_causes n w) }
    ensures may { (w : NodeWorld) (c : Happening) → IsOfRound w c → (can_happen w c ≡ true) × MayHappen w c × MayBoot w c × MayBeRead w c }
{}

/// Time passes once in each round: as often as there are rounds until the world is at rest, and no more often than was asked for.
pub fn time_passes_once_in_a_round()
    ensures rounds { (r : ℕ) (w : NodeWorld) → world_ticks_in (world_round_causes r w) ≡ r }
    ensures settling { (n : ℕ) (w : NodeWorld) → world_ticks_in (world_settling_causes n w) ≡ world_rounds_to_settle n w }
    ensures most { (n : ℕ) (w : NodeWorld) → world_ticks_in (world_settling_causes n w) ≤ n }
{}

/// Where no wire holds more than 64 frames, none does over rounds. So a round of a world of seven hosts at most has 14 times 64 causes at
/// most, and the one that time passes.
pub fn a_round_has_few_causes()
    ensures wires { (r : ℕ) (w : NodeWorld) → AreFewOnWires w → AreFewOnWires (rounds_of_world r w).0 }
    ensures round { (w : NodeWorld) → AreFewOnWires w → length (happened_in (world_round w).1) ≤ 128 * length w.sites + 1 }
    ensures rounds { (r : ℕ) (w : NodeWorld) → AreFewOnWires w → length w.sites ≤ 7 → length (world_round_causes r w) ≤ (14 * 64 + 1) * r }
    ensures settling { (n : ℕ) (w : NodeWorld) → AreFewOnWires w → length w.sites ≤ 7 →
        length (world_settling_causes n w) ≤ (14 * 64 + 1) * world_rounds_to_settle n w }
    ensures most { (n : ℕ) (w : NodeWorld) → AreFewOnWires w → length w.sites ≤ 7 → length (world_settling_causes n w) ≤ (14 * 64 + 1) * n }
{}

/// At the end of each event of a history that follows a schedule, for hosts from 01 to 07 that are all different and lines that can be played,
/// the world is one of those of which this is said: where it settles then, each cause is that an end takes a frame that stands, or that time
/// passes; and they are few.
pub fn worlds_of_histories_settle_by_such_causes()
    ensures are { (header : Header) (lines : List Line) (t : NodeHistory) → FollowsNodes header lines t → AreHosts header.hosts.items →
        ArePlayable lines → (front back : List Occurrence) → occurrences_in t ≡ front ++ back → (n : ℕ) →
        AreOfRounds (world_behind (new_world header.hosts.items) front) (world_settling_causes n (world_behind (new_world header.hosts.items) front)) }
    ensures orderly { (header : Header) (lines : List Line) (t : NodeHistory) → FollowsNodes header lines t → AreHosts header.hosts.items →
        ArePlayable lines → (front back : List Occurrence) → occurrences_in t ≡ front ++ back →
        IsOrderly (world_behind (new_world header.hosts.items) front) }
    ensures wires { (header : Header) (lines : List Line) (t : NodeHistory) → FollowsNodes header lines t → AreHosts header.hosts.items →
        ArePlayable lines → (front back : List Occurrence) → occurrences_in t ≡ front ++ back →
        AreFewOnWires (world_behind (new_world header.hosts.items) front) }
    ensures few { (header : Header) (lines : List Line) (t : NodeHistory) → FollowsNodes header lines t → AreHosts header.hosts.items →
        length header.hosts.items ≤ 7 → ArePlayable lines → (front back : List Occurrence) → occurrences_in t ≡ front ++ back → (n : ℕ) →
        length (world_settling_causes n (world_behind (new_world header.hosts.items) front)) ≤
        (14 * 64 + 1) * world_rounds_to_settle n (world_behind (new_world header.hosts.items) front) }
{}
