//! The law of recovery of a link over fragments: while no session ends, no frame is lost and both ends are ready, all that was given is
//! delivered within a known number of rounds. There is no code here that runs.

ghost use Rattle.std.specs.Prelude.{◌≡◌, ◌+◌, ◌*◌, ◌≤◌, ℕ, List};
ghost use Rattle.link_laws.specs.sessions.Sessions.{AllShdlcAllowed, IsShdlcStart, ShdlcLink, ShdlcLinkEvent, shdlc_after};
ghost use Rattle.lines_told.specs.fragments.Rounds.{AreRounds, AreUndisturbed, EarlierDelivered, to_deliver, undelivered};

/// Whatever happened on a link before, where F fragments wait at both ends to be delivered: behind 24 (F + 1) rounds in which no session
/// ends, no frame is lost but of activation and both ends are up and ready, all that was given to either end before them is accepted at
/// the other end and acknowledged.
pub fn rounds_deliver_all()
    ensures to_host { (l : ShdlcLink) → IsShdlcStart l → (before : List ShdlcLinkEvent) → AllShdlcAllowed before →
        (k : ℕ) → (rounds : List ShdlcLinkEvent) → AreRounds k (shdlc_after l before) rounds → AreUndisturbed (shdlc_after l before) rounds →
        24 * (to_deliver (shdlc_after l before) + 1) ≤ k →
        EarlierDelivered (shdlc_after l before).controller.side.session (shdlc_after (shdlc_after l before) rounds).controller.side.session
        (shdlc_after (shdlc_after l before) rounds).host.side.session }
    ensures to_controller { (l : ShdlcLink) → IsShdlcStart l → (before : List ShdlcLinkEvent) → AllShdlcAllowed before →
        (k : ℕ) → (rounds : List ShdlcLinkEvent) → AreRounds k (shdlc_after l before) rounds → AreUndisturbed (shdlc_after l before) rounds →
        24 * (to_deliver (shdlc_after l before) + 1) ≤ k →
        EarlierDelivered (shdlc_after l before).host.side.session (shdlc_after (shdlc_after l before) rounds).host.side.session
        (shdlc_after (shdlc_after l before) rounds).controller.side.session }
{}

/// Each fragment that an end has to deliver takes twelve such rounds at most, behind one round more.
pub fn each_fragment_takes_twelve_rounds()
    ensures to_host { (l : ShdlcLink) → IsShdlcStart l → (before : List ShdlcLinkEvent) → AllShdlcAllowed before →
        (k : ℕ) → (rounds : List ShdlcLinkEvent) → AreRounds k (shdlc_after l before) rounds → AreUndisturbed (shdlc_after l before) rounds →
        12 * undelivered (shdlc_after l before).controller.side.session + 1 ≤ k →
        EarlierDelivered (shdlc_after l before).controller.side.session (shdlc_after (shdlc_after l before) rounds).controller.side.session
        (shdlc_after (shdlc_after l before) rounds).host.side.session }
    ensures to_controller { (l : ShdlcLink) → IsShdlcStart l → (before : List ShdlcLinkEvent) → AllShdlcAllowed before →
        (k : ℕ) → (rounds : List ShdlcLinkEvent) → AreRounds k (shdlc_after l before) rounds → AreUndisturbed (shdlc_after l before) rounds →
        12 * undelivered (shdlc_after l before).host.side.session + 1 ≤ k →
        EarlierDelivered (shdlc_after l before).host.side.session (shdlc_after (shdlc_after l before) rounds).host.side.session
        (shdlc_after (shdlc_after l before) rounds).controller.side.session }
{}
