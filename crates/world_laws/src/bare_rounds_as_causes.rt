//! The rounds in which a bare world settles are causes like those of any line. There is no code here that runs.

ghost use Rattle.std.specs.Prelude.{◌≡◌, ◌+◌, ◌*◌, ◌≤◌, ◌++◌, ℕ, List, length};
ghost use Rattle.link_laws.specs.messages.Links.{Link};
ghost use Rattle.history.specs.Histories.{Cause, causes_of};
ghost use Rattle.history.specs.Steps.{bare_link, events_at, link_after_all};
ghost use Rattle.link_laws.specs.messages.Rest.{IsFirstRest, after_steps, link_rests};
ghost use Rattle.world_laws.specs.links.RoundCauses.{AreRoundCauses, times_ticked};
ghost use Rattle.node_laws.specs.rounds.BareRounds.{link_after_round};
ghost use Rattle.world_laws.specs.links.Settling.{rounds_to_settle, settling_causes, settling_events};

/// The events of causes have these causes; and causes behind others do on the link that these left what they do there.
pub fn events_of_a_bare_link_have_their_causes()
    ensures causes { (h : ℕ) (l : Link) (cs : List Cause) → causes_of (events_at h l cs) ≡ cs }
    ensures link { (l : Link) (cs ds : List Cause) → link_after_all l (cs ++ ds) ≡ link_after_all (link_after_all l cs) ds }
    ensures events { (h : ℕ) (l : Link) (cs ds : List Cause) →
        events_at h l (cs ++ ds) ≡ events_at h l cs ++ events_at h (link_after_all l cs) ds }
{}

/// A link settles in the least number of rounds after which it is at rest, or in n where none below n is, and the causes of a line that has
/// it settle make of it what these rounds do. Each is that an end takes a frame that stands on the wire to it, or that time passes, which
/// it does once in each round.
pub fn settling_causes_are_those_of_rounds()
    ensures least { (n h : ℕ) (l : Link) → IsFirstRest link_rests (link_after_round h) n l (rounds_to_settle n h l) }
    ensures settles { (n h : ℕ) (l : Link) → link_after_all l (settling_causes n h l) ≡ after_steps (link_after_round h) (rounds_to_settle n h l) l }
    ensures are { (n h : ℕ) (l : Link) → AreRoundCauses h l (settling_causes n h l) }
    ensures ticks { (n h : ℕ) (l : Link) → times_ticked (settling_causes n h l) ≡ rounds_to_settle n h l }
    ensures most { (n h : ℕ) (l : Link) → times_ticked (settling_causes n h l) ≤ n }
{}

/// Where no wire of the link holds more than 64 frames, a round has twice 64 causes at most, and the one that time passes. No wire of a bare
/// link ever holds more.
pub fn settling_causes_are_few()
    ensures few { (n h : ℕ) (l : Link) → length l.to_controller ≤ 64 → length l.to_host ≤ 64 →
        length (settling_causes n h l) ≤ (2 * 64 + 1) * rounds_to_settle n h l }
    ensures most { (n h : ℕ) (l : Link) → length l.to_controller ≤ 64 → length l.to_host ≤ 64 → length (settling_causes n h l) ≤ (2 * 64 + 1) * n }
    ensures to_controller { (causes : List Cause) → length (link_after_all bare_link causes).to_controller ≤ 64 }
    ensures to_host { (causes : List Cause) → length (link_after_all bare_link causes).to_host ≤ 64 }
{}

/// Whatever number its host has, a link settles in as many rounds, and what the causes are on it is the same.
pub fn links_settle_alike_whatever_their_hosts()
    ensures rounds { (n h k : ℕ) (l : Link) → rounds_to_settle n h l ≡ rounds_to_settle n k l }
    ensures events { (n h k : ℕ) (l : Link) → settling_events n h l ≡ settling_events n k l }
{}
