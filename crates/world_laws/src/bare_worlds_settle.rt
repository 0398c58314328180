//! The law of a bare world that settles. There is no code here that runs.

ghost use Rattle.std.specs.Prelude.{◌+◌, ◌*◌, ◌≤◌, ℕ, List};
ghost use Rattle.link_laws.specs.messages.Links.{AllAllowed, IsStart, Link, LinkEvent, after_link_events, talk_now};
ghost use Rattle.lines_told.specs.messages.Recovery.{EarlierGot, IsLinkUndisturbed, fragments_left};
ghost use Rattle.world_laws.specs.links.Settling.{settling_events};

/// Whatever happened on a link before, where F fragments of the messages sent both ways aren't acknowledged: where it settles with 24 (F + 1)
/// rounds at least, in which no session ends, no frame is lost but of activation and both ends are up and ready, all good messages that were
/// sent before are got, and all that were sent before are acknowledged.
pub fn settled_links_have_brought_all()
    ensures to_host { (h : ℕ) → (l : Link) → IsStart l → (before : List LinkEvent) → AllAllowed l before → (n : ℕ) →
        IsLinkUndisturbed (after_link_events l before) (settling_events n h (after_link_events l before)) →
        24 * (fragments_left (after_link_events l before) + 1) ≤ n →
        EarlierGot (talk_now (after_link_events l before).controller.side)
        (talk_now (after_link_events (after_link_events l before) (settling_events n h (after_link_events l before))).controller.side)
        (talk_now (after_link_events (after_link_events l before) (settling_events n h (after_link_events l before))).host.side) }
    ensures to_controller { (h : ℕ) → (l : Link) → IsStart l → (before : List LinkEvent) → AllAllowed l before → (n : ℕ) →
        IsLinkUndisturbed (after_link_events l before) (settling_events n h (after_link_events l before)) →
        24 * (fragments_left (after_link_events l before) + 1) ≤ n →
        EarlierGot (talk_now (after_link_events l before).host.side)
        (talk_now (after_link_events (after_link_events l before) (settling_events n h (after_link_events l before))).host.side)
        (talk_now (after_link_events (after_link_events l before) (settling_events n h (after_link_events l before))).controller.side) }
{}
