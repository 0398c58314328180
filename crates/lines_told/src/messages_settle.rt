//! The law of recovery of a link over messages: while no session ends, no frame is lost and both ends are ready, all that was sent is got and
//! acknowledged within a known number of rounds. There is no code here that runs.

ghost use Rattle.std.specs.Prelude.{◌≡◌, ◌+◌, ◌*◌, ◌≤◌, ℕ, true, List};
ghost use Rattle.link_laws.specs.messages.Links.{AllAllowed, IsStart, Link, LinkEvent, after_link_events, talk_now};
ghost use Rattle.lines_told.specs.messages.Recovery.{AreLinkRounds, EarlierGot, IsLinkUndisturbed, fragments_left};
ghost use Rattle.link_laws.specs.messages.Rest.{IsFirstRest, link_rests, steps_to_rest};

/// Whatever happened on a link before, where F fragments of the messages sent both ways aren't acknowledged: behind 24 (F + 1) rounds in
/// which no session ends, no frame is lost but of activation and both ends are up and ready, all good messages that were sent before them
/// are got, and all that were sent before them are acknowledged.
pub fn rounds_bring_all()
    ensures to_host { (l : Link) → IsStart l → (before : List LinkEvent) → AllAllowed l before → (k : ℕ) → (rounds : List LinkEvent) →
        AllAllowed (after_link_events l before) rounds → AreLinkRounds k (after_link_events l before) rounds →
        IsLinkUndisturbed (after_link_events l before) rounds → 24 * (fragments_left (after_link_events l before) + 1) ≤ k →
        EarlierGot (talk_now (after_link_events l before).controller.side)
        (talk_now (after_link_events (after_link_events l before) rounds).controller.side)
        (talk_now (after_link_events (after_link_events l before) rounds).host.side) }
    ensures to_controller { (l : Link) → IsStart l → (before : List LinkEvent) → AllAllowed l before → (k : ℕ) → (rounds : List LinkEvent) →
        AllAllowed (after_link_events l before) rounds → AreLinkRounds k (after_link_events l before) rounds →
        IsLinkUndisturbed (after_link_events l before) rounds → 24 * (fragments_left (after_link_events l before) + 1) ≤ k →
        EarlierGot (talk_now (after_link_events l before).host.side)
        (talk_now (after_link_events (after_link_events l before) rounds).host.side)
        (talk_now (after_link_events (after_link_events l before) rounds).controller.side) }
{}

/// So it is behind any number of such rounds that leave the link at rest: both wires empty, no end waiting, and all that was sent at an end
/// that is up acknowledged.
pub fn rest_has_brought_all()
    ensures to_host { (l : Link) → IsStart l → (before : List LinkEvent) → AllAllowed l before → (k : ℕ) → (rounds : List LinkEvent) →
        AllAllowed (after_link_events l before) rounds → AreLinkRounds k (after_link_events l before) rounds →
        IsLinkUndisturbed (after_link_events l before) rounds → link_rests (after_link_events (after_link_events l before) rounds) ≡ true →
        EarlierGot (talk_now (after_link_events l before).controller.side)
        (talk_now (after_link_events (after_link_events l before) rounds).controller.side)
        (talk_now (after_link_events (after_link_events l before) rounds).host.side) }
    ensures to_controller { (l : Link) → IsStart l → (before : List LinkEvent) → AllAllowed l before → (k : ℕ) → (rounds : List LinkEvent) →
        AllAllowed (after_link_events l before) rounds → AreLinkRounds k (after_link_events l before) rounds →
        IsLinkUndisturbed (after_link_events l before) rounds → link_rests (after_link_events (after_link_events l before) rounds) ≡ true →
        EarlierGot (talk_now (after_link_events l before).host.side)
        (talk_now (after_link_events (after_link_events l before) rounds).host.side)
        (talk_now (after_link_events (after_link_events l before) rounds).controller.side) }
{}

/// The number of steps to the first rest is the least after which a link is at rest, or n where none below n is.
pub fn first_rest_is_least()
    ensures { (next : Link → Link) → (n : ℕ) → (l : Link) → IsFirstRest link_rests next n l (steps_to_rest link_rests next n l) }
{}
