//! How many RSETs are put on the links of a world of nodes, without counting the frames that are taken. There is no code here that runs.

ghost use Rattle.std.specs.Prelude.{◌+◌, ◌≤◌, ℕ, List};
ghost use Rattle.node_machine.specs.world.Lines.{Occurrence, all_happen};
ghost use Rattle.node_machine.specs.world.World.{Happening, NodeWorld, new_world, world_step};
ghost use Rattle.node_laws.specs.telling.Telling.{world_behind};
ghost use Rattle.node_laws.specs.rsets.Causes.{FewRsetsOnEach, NumbersWithinOnEach, happened_in, others_among, rsets_by, rsets_by_all, world_ticks_in};

/// Whatever happens to a world of nodes, the RSETs that were put on the link of each host are at most two for each tick and one for each
/// reset that is asked for, and so are the numbers of its sessions; no frame that is taken or lost counts. `step` goes on from any world,
/// with those that are still to be sent. So with at most 400,000,000 ticks and 20,000,000 things that are neither ticks nor frames taken
/// or lost, the numbers are at most 820,000,000.
pub fn rsets_of_a_world_come_of_ticks_and_resets()
    ensures step { (n : ℕ) (w : NodeWorld) (cause : Happening) → FewRsetsOnEach n w.sites →
        FewRsetsOnEach (n + rsets_by cause) (world_step w cause).0.sites }
    ensures first { (hosts : List ℕ) → FewRsetsOnEach 0 (new_world hosts).sites }
    ensures all { (hosts : List ℕ) (causes : List Happening) →
        NumbersWithinOnEach (rsets_by_all causes) (all_happen (new_world hosts) causes).0.sites }
    ensures events { (hosts : List ℕ) (events : List Occurrence) →
        NumbersWithinOnEach (rsets_by_all (happened_in events)) (world_behind (new_world hosts) events).sites }
    ensures fit { (hosts : List ℕ) (causes : List Happening) → world_ticks_in causes ≤ 400000000 → others_among causes ≤ 20000000 →
        NumbersWithinOnEach 820000000 (all_happen (new_world hosts) causes).0.sites }
    ensures events_fit { (hosts : List ℕ) (events : List Occurrence) → world_ticks_in (happened_in events) ≤ 400000000 →
        others_among (happened_in events) ≤ 20000000 → NumbersWithinOnEach 820000000 (world_behind (new_world hosts) events).sites }
{}
