//! How many more fragments count as acknowledged at the ends of a link where these take frames one after the other, and in a round of a
//! bare world. There is no code here that runs.

ghost use Rattle.std.specs.Prelude.{◌≡◌, ◌*◌, ◌++◌, ℕ, List};
ghost use Rattle.link_laws.specs.messages.Links.{AllAllowed, IsStart, Link, LinkEvent, after_link_events};
ghost use Rattle.history.specs.Histories.{Cause};
ghost use Rattle.history.specs.Steps.{link_after_all};
ghost use Rattle.node_laws.specs.acked.InTurn.{AcksAtMost, AllAtController, AllAtHost, AreTakenInTurn, CountsWithin, TakeNoFrames};
ghost use Rattle.node_laws.specs.rounds.BareRounds.{causes_of_round, causes_of_rounds};

/// Whatever happened on a link before: while one end alone acts, however many frames it takes, at most four more fragments of its session
/// count as acknowledged at it, since the other end accepts none meanwhile and had accepted no more than the window beyond those that
/// were acknowledged; at the other end none more count. In a session that begins meanwhile none count. And while no end takes a frame,
/// none more count at either end.
pub fn an_end_that_acts_alone_acknowledges_a_window()
    ensures controller { (l : Link) → IsStart l → (before : List LinkEvent) → AllAllowed l before → (events : List LinkEvent) →
        AllAllowed (after_link_events l before) events → AllAtController events →
        AcksAtMost 4 0 (after_link_events l before) (after_link_events (after_link_events l before) events) }
    ensures host { (l : Link) → IsStart l → (before : List LinkEvent) → AllAllowed l before → (events : List LinkEvent) →
        AllAllowed (after_link_events l before) events → AllAtHost events →
        AcksAtMost 0 4 (after_link_events l before) (after_link_events (after_link_events l before) events) }
    ensures none { (l : Link) → IsStart l → (before : List LinkEvent) → AllAllowed l before → (events : List LinkEvent) →
        AllAllowed (after_link_events l before) events → TakeNoFrames events →
        AcksAtMost 0 0 (after_link_events l before) (after_link_events (after_link_events l before) events) }
{}

/// So where first the controller's end alone acts, then the host's end alone, and then no frame is taken, at most four more fragments
/// count as acknowledged at either end, at each moment of it.
pub fn ends_in_turn_acknowledge_a_window_each()
    ensures { (l : Link) → IsStart l → (before : List LinkEvent) → AllAllowed l before → (events : List LinkEvent) →
        AllAllowed (after_link_events l before) events → AreTakenInTurn events → (front back : List LinkEvent) → events ≡ front ++ back →
        AcksAtMost 4 4 (after_link_events l before) (after_link_events (after_link_events l before) front) }
{}

/// No more messages count as acknowledged at an end, as the entries tell it, than fragments.
pub fn messages_are_acknowledged_by_their_fragments()
    ensures controller { (l : Link) → IsStart l → (events : List LinkEvent) → AllAllowed l events →
        CountsWithin (after_link_events l events).controller.side }
    ensures host { (l : Link) → IsStart l → (events : List LinkEvent) → AllAllowed l events → CountsWithin (after_link_events l events).host.side }
{}

/// In a round of a bare world, whatever happened on its link before, at most four more fragments count as acknowledged at either end, at
/// each moment of the round; and so many rounds have at most four times as many more.
pub fn rounds_of_a_bare_world_acknowledge_few()
    ensures round { (h : ℕ) → (l : Link) → IsStart l → (before : List LinkEvent) → AllAllowed l before → (front back : List Cause) →
        causes_of_round h (after_link_events l before) ≡ front ++ back →
        AcksAtMost 4 4 (after_link_events l before) (link_after_all (after_link_events l before) front) }
    ensures rounds { (h : ℕ) → (l : Link) → IsStart l → (before : List LinkEvent) → AllAllowed l before → (r : ℕ) →
        AcksAtMost (4 * r) (4 * r) (after_link_events l before)
        (link_after_all (after_link_events l before) (causes_of_rounds r h (after_link_events l before))) }
{}
