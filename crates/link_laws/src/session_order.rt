//! The law of one bare link over resets, from either start: in each session the fragments accepted at each end are a front of those given to
//! the other, and no more of them count as acknowledged; where nothing was lost, all are; and an undisturbed reset
//! brings both ends up. There is no code here that runs.

ghost use Rattle.std.specs.Prelude.{◌≡◌, ◌++◌, ℕ, List, false};
ghost use Rattle.shdlc_core.specs.declared.answers.LinkState.TheVariants.{Up};
ghost use Rattle.shdlc_core.specs.Machine.{no_session};
ghost use Rattle.link_laws.specs.places.Order.{FragmentsDelivered, FragmentsInOrder};
ghost use Rattle.link_laws.specs.sessions.Losses.{IsShdlcQuiet, losses_after, no_losses};
ghost use Rattle.link_laws.specs.sessions.Settled.{AreShdlcUpTogether, IsShdlcSettled, sure_after};
ghost use Rattle.link_laws.specs.sessions.Sessions.{AllShdlcAllowed, IsShdlcStart, ShdlcLink, ShdlcLinkEvent, shdlc_after, ended_session, shdlc_number_of};
ghost use Rattle.link_laws.specs.sessions.Sessions.{shdlc_session_of};

/// Events happen one after another.
pub fn events_in_turn()
    ensures { (l : ShdlcLink) (events later : List ShdlcLinkEvent) → shdlc_after l (events ++ later) ≡ shdlc_after (shdlc_after l events) later }
{}

/// In each session, whatever was lost and whenever either end was reset, what was accepted at an end is a front of what the
/// other end was given in the session of this number, and what counts as acknowledged was accepted.
pub fn sessions_in_order()
    ensures to_host { (l : ShdlcLink) → IsShdlcStart l → (events : List ShdlcLinkEvent) → AllShdlcAllowed events → (n : ℕ) →
        FragmentsInOrder (shdlc_session_of (shdlc_after l events).controller n) (shdlc_session_of (shdlc_after l events).host n) }
    ensures to_controller { (l : ShdlcLink) → IsShdlcStart l → (events : List ShdlcLinkEvent) → AllShdlcAllowed events → (n : ℕ) →
        FragmentsInOrder (shdlc_session_of (shdlc_after l events).host n) (shdlc_session_of (shdlc_after l events).controller n) }
{}

/// Two ends that are both Up are Up with one number.
pub fn ends_agree_on_the_session()
    ensures { (l : ShdlcLink) → IsShdlcStart l → (events : List ShdlcLinkEvent) → AllShdlcAllowed events →
        (shdlc_after l events).controller.side.phase ≡ Up → (shdlc_after l events).host.side.phase ≡ Up →
        shdlc_number_of (shdlc_after l events).controller ≡ shdlc_number_of (shdlc_after l events).host }
{}

/// No ended session of an end has the number of the one that goes on.
pub fn sessions_have_new_numbers()
    ensures controller { (l : ShdlcLink) → IsShdlcStart l → (events : List ShdlcLinkEvent) → AllShdlcAllowed events →
        (shdlc_after l events).controller.side.phase ≡ Up →
        ended_session (shdlc_after l events).controller.past (shdlc_number_of (shdlc_after l events).controller) ≡ no_session }
    ensures host { (l : ShdlcLink) → IsShdlcStart l → (events : List ShdlcLinkEvent) → AllShdlcAllowed events → (shdlc_after l events).host.side.phase ≡ Up →
        ended_session (shdlc_after l events).host.past (shdlc_number_of (shdlc_after l events).host) ≡ no_session }
{}

/// Where both ends are Up in one session, no frame but of activation was lost and no RNR made since the first of them came up
/// in it, and both wires hold none but of activation, all that was given to either end in it is accepted at the other and
/// acknowledged.
pub fn quiet_session_has_delivered_all()
    ensures to_host { (l : ShdlcLink) → IsShdlcStart l → (events : List ShdlcLinkEvent) → AllShdlcAllowed events →
        IsShdlcQuiet (shdlc_after l events) (losses_after no_losses l events) →
        FragmentsDelivered (shdlc_after l events).controller.side.session (shdlc_after l events).host.side.session }
    ensures to_controller { (l : ShdlcLink) → IsShdlcStart l → (events : List ShdlcLinkEvent) → AllShdlcAllowed events →
        IsShdlcQuiet (shdlc_after l events) (losses_after no_losses l events) →
        FragmentsDelivered (shdlc_after l events).host.side.session (shdlc_after l events).controller.side.session }
{}

/// Where a reset put an RSET on the link while the other end wasn't Waiting, and since then no frame was lost but of activation,
/// no other RSET was sent, no end was stopped, none was inactive and none lost power, and both wires hold no frame but of
/// activation, both ends are Up with one number.
pub fn reset_brings_both_up()
    ensures { (l : ShdlcLink) → IsShdlcStart l → (events : List ShdlcLinkEvent) → AllShdlcAllowed events →
        IsShdlcSettled (shdlc_after l events) (sure_after false l events) →
        AreShdlcUpTogether (shdlc_after l events) }
{}
