//! The law of one link over whole messages, with activation and cuts. There is no code here that runs.

ghost use Rattle.std.specs.Prelude.{◌≡◌, ◌∷◌, ℕ, List, Some};
ghost use Rattle.swp_base.specs.declared.link_terms.Cause.TheVariants.{Chain};
ghost use Rattle.shdlc_core.specs.declared.answers.LinkState.TheVariants.{Up};
ghost use Rattle.link_laws.specs.sessions.Sessions.{AllShdlcAllowed as CoreAllAllowed, IsShdlcStart as CoreIsStart, OnWire, shdlc_after as core_after};
ghost use Rattle.link_laws.specs.machine.Machine.{ended_by};
ghost use Rattle.link_laws.specs.machine.Machine.LinkInput.{Take};
ghost use Rattle.link_laws.specs.messages.Links.{AllAllowed, IsStart, Link, LinkEvent, after_link_events, ended_talk, no_talk, number_of, talk_now, talk_of};
ghost use Rattle.link_laws.specs.messages.Order.{InOrder};
ghost use Rattle.link_laws.specs.messages.Projection.{core_events, core_of};
ghost use Rattle.link_laws.specs.messages.Quiet.{AllDelivered, IsQuiet, losses_of};
ghost use Rattle.link_laws.specs.messages.Settled.{AreUpTogether, IsSettled, sure_of};

/// What happens on a link over messages happens on a link over their fragments.
pub fn links_are_projected()
    ensures same { (l : Link) → IsStart l → (events : List LinkEvent) → AllAllowed l events →
        core_of (after_link_events l events) ≡ core_after (core_of l) (core_events l events) }
    ensures start { (l : Link) → IsStart l → CoreIsStart (core_of l) }
    ensures allowed { (l : Link) → IsStart l → (events : List LinkEvent) → AllAllowed l events → CoreAllAllowed (core_events l events) }
{}

/// No session ends by a chain fault, whatever was lost and whenever either end was reset.
pub fn no_chain_fault_comes()
    ensures controller { (l : Link) → IsStart l → (events : List LinkEvent) → AllAllowed l events → (x : OnWire) (xs : List OnWire) →
        (after_link_events l events).to_controller ≡ x ∷ xs → ended_by (after_link_events l events).controller.side (Take x.frame) ≡ Some Chain → ⊥ }
    ensures host { (l : Link) → IsStart l → (events : List LinkEvent) → AllAllowed l events → (x : OnWire) (xs : List OnWire) →
        (after_link_events l events).to_host ≡ x ∷ xs → ended_by (after_link_events l events).host.side (Take x.frame) ≡ Some Chain → ⊥ }
{}

/// In each session the messages that an end got are a front of the good ones that the other end was given in the session of
/// this number, and what counts as acknowledged was got.
pub fn messages_come_in_order()
    ensures to_host { (l : Link) → IsStart l → (events : List LinkEvent) → AllAllowed l events → (n : ℕ) →
        InOrder (talk_of (after_link_events l events).controller n) (talk_of (after_link_events l events).host n) }
    ensures to_controller { (l : Link) → IsStart l → (events : List LinkEvent) → AllAllowed l events → (n : ℕ) →
        InOrder (talk_of (after_link_events l events).host n) (talk_of (after_link_events l events).controller n) }
{}

/// Two ends that are both Up are Up with one number.
pub fn ends_agree_on_the_session()
    ensures { (l : Link) → IsStart l → (events : List LinkEvent) → AllAllowed l events →
        (after_link_events l events).controller.side.shdlc.phase ≡ Up → (after_link_events l events).host.side.shdlc.phase ≡ Up →
        number_of (after_link_events l events).controller ≡ number_of (after_link_events l events).host }
{}

/// No ended session of an end has the number of the one that goes on.
pub fn sessions_have_new_numbers()
    ensures controller { (l : Link) → IsStart l → (events : List LinkEvent) → AllAllowed l events →
        (after_link_events l events).controller.side.shdlc.phase ≡ Up →
        ended_talk (after_link_events l events).controller.past (number_of (after_link_events l events).controller) ≡ no_talk }
    ensures host { (l : Link) → IsStart l → (events : List LinkEvent) → AllAllowed l events → (after_link_events l events).host.side.shdlc.phase ≡ Up →
        ended_talk (after_link_events l events).host.past (number_of (after_link_events l events).host) ≡ no_talk }
{}

/// Where both ends are Up in one session, no frame but of activation was lost and no RNR made since the first of them came up
/// in it, and both wires hold none but of activation, the messages that an end got are the good ones that the other end was
/// given in it, and all that it was given are acknowledged.
pub fn quiet_session_has_delivered_all()
    ensures to_host { (l : Link) → IsStart l → (events : List LinkEvent) → AllAllowed l events → IsQuiet (after_link_events l events) (losses_of l events) →
        AllDelivered (talk_now (after_link_events l events).controller.side) (talk_now (after_link_events l events).host.side) }
    ensures to_controller { (l : Link) → IsStart l → (events : List LinkEvent) → AllAllowed l events →
        IsQuiet (after_link_events l events) (losses_of l events) →
        AllDelivered (talk_now (after_link_events l events).host.side) (talk_now (after_link_events l events).controller.side) }
{}

/// Where a reset put an RSET on the link while the other end wasn't Waiting, and since then no frame was lost but of activation,
/// no other RSET was sent, activation neither began nor ended, no end that isn't active took a frame, no node lost power, and
/// both wires hold no frame but of activation, both ends are Up with one number.
pub fn reset_brings_both_up()
    ensures { (l : Link) → IsStart l → (events : List LinkEvent) → AllAllowed l events →
        IsSettled (after_link_events l events) (sure_of l events) → AreUpTogether (after_link_events l events) }
{}
