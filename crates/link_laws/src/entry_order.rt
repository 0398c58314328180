//! What is noted of a link, entry by entry, and what can be read off it. There is no code here that runs.

ghost use Rattle.std.specs.Prelude.{◌≡◌, ◌++◌, ◌∷◌, ℕ, false, List};
ghost use Rattle.std.specs.List.{list_any};
ghost use Rattle.link_laws.specs.messages.Links.{AllAllowed, IsStart, Link, LinkEvent, after_link_events, number_of, talk_of};
ghost use Rattle.hcp_packet.specs.Packets.{IsFrontOf};
ghost use Rattle.link_laws.specs.entries.Entries.{End, Entry, trace};
ghost use Rattle.link_laws.specs.entries.Entries.End.{Controller, Host};
ghost use Rattle.link_laws.specs.entries.Order.{InOrderIn, is_noted_chain_fault};
ghost use Rattle.link_laws.specs.entries.Quiet.{IsDeliveredOnLink, IsQuietSince};
ghost use Rattle.link_laws.specs.entries.Reading.{kept, nothing_seen, see_all};
ghost use Rattle.link_laws.specs.entries.Sessions.{IsRead, session_in, number_now};
ghost use Rattle.link_laws.specs.entries.Settled.{AreNotedUpTogether, IsSettledSince};

/// The frames on both wires with their ages and numbers, how many RSETs were put on the link, and the greatest number that each
/// end has put on it and taken, are read off the entries.
pub fn wires_and_numbers_are_read_off()
    ensures { (l : Link) → IsStart l → (events : List LinkEvent) → see_all nothing_seen (trace l events) ≡ kept (after_link_events l events) }
{}

/// The messages that each end was given and got in each session, and how many of its messages are acknowledged whole there, are
/// read off the entries.
pub fn sessions_are_read_off()
    ensures controller { (l : Link) → IsStart l → (events : List LinkEvent) → AllAllowed l events → (n : ℕ) →
        IsRead (trace l events) Controller n (talk_of (after_link_events l events).controller n) }
    ensures host { (l : Link) → IsStart l → (events : List LinkEvent) → AllAllowed l events → (n : ℕ) →
        IsRead (trace l events) Host n (talk_of (after_link_events l events).host n) }
{}

/// Whether each end is up, and with which number, is read off the entries.
pub fn lasting_sessions_are_read_off()
    ensures controller { (l : Link) → IsStart l → (events : List LinkEvent) → AllAllowed l events →
        session_in (trace l events) Controller ≡ number_now (after_link_events l events).controller }
    ensures host { (l : Link) → IsStart l → (events : List LinkEvent) → AllAllowed l events →
        session_in (trace l events) Host ≡ number_now (after_link_events l events).host }
{}

/// At each moment, between any two entries, each end got in each session a front of the good messages that the other sent in it; the
/// good ones among those that count as acknowledged are a front of what the other got; and no more count than were sent.
pub fn messages_are_in_order_at_each_moment()
    ensures { (l : Link) → IsStart l → (events : List LinkEvent) → AllAllowed l events →
        (front : List Entry) → IsFrontOf front (trace l events) → (who : End) (n : ℕ) → InOrderIn front who n }
{}

/// No session of a link ever ends by a packet that can't be joined.
pub fn no_chain_fault_is_noted()
    ensures { (l : Link) → IsStart l → (events : List LinkEvent) → AllAllowed l events →
        list_any is_noted_chain_fault (trace l events) ≡ false }
{}

/// Where both ends are Up and both wires are empty, and since the first of them came up with the number they have no frame was
/// lost, no RNR put on the link and no end started, stopped or cut off, each end got all good messages that the other sent in
/// that session, and all that were sent are acknowledged.
pub fn quiet_session_has_delivered_all()
    ensures to_host { (l : Link) → IsStart l → (events : List LinkEvent) → AllAllowed l events → IsQuietSince (trace l events) (after_link_events l events) →
        IsDeliveredOnLink (trace l events) Controller (number_of (after_link_events l events).controller) }
    ensures to_controller { (l : Link) → IsStart l → (events : List LinkEvent) → AllAllowed l events →
        IsQuietSince (trace l events) (after_link_events l events) →
        IsDeliveredOnLink (trace l events) Host (number_of (after_link_events l events).controller) }
{}

/// Where a reset was asked for at an end, or at the controller's in place of its tick, not refused, while the other end was active
/// and not waiting, and in what was noted behind it no frame was lost but of activation, no RSET put on the link and no end started,
/// stopped or cut off, both ends are up with one number once both wires hold no frames but of activation, all as it is noted. Two ends
/// that are active stay so as long as none is started, stopped or cut off, so that no end that isn't active takes a frame then.
pub fn reset_brings_both_up()
    ensures { (l : Link) → IsStart l → (before : List LinkEvent) (reset : LinkEvent) (behind : List LinkEvent) →
        AllAllowed l (before ++ reset ∷ behind) → IsSettledSince (trace l (before ++ reset ∷ behind)) (after_link_events l before) reset behind →
        AreNotedUpTogether (trace l (before ++ reset ∷ behind)) }
{}
