//! The law of a passive tap on a link over fragments, with resets, losses and activation: it hears all frames that the ends put on the link,
//! whether they come or not, and so it knows both ends and what they get. There is no code here that runs.

ghost use Rattle.std.specs.Prelude.{◌≡◌, Bool, List};
ghost use Rattle.link_laws.specs.sessions.Sessions.{AllShdlcAllowed, IsShdlcStart, ShdlcLink, ShdlcLinkEvent, shdlc_after};
ghost use Rattle.tap_reading.specs.Tap.{new_tap, tap_after, tapped};
ghost use Rattle.world_laws.specs.fragments.Emitted.{NoneIsCut, emitted, got};
ghost use Rattle.world_laws.specs.fragments.Knowing.{IsTrackedBy, StartsSo};

/// What a new tap reports over the frames that both ends put on a link, in order from the first one on, are the messages that the ends
/// got, in order, with the numbers of their sessions, and nothing else, as long as no node loses power.
pub fn tap_reports_what_was_got()
    ensures { (bare : Bool) (l : ShdlcLink) → IsShdlcStart l → StartsSo bare l → (events : List ShdlcLinkEvent) → AllShdlcAllowed events →
        NoneIsCut events → tapped bare (emitted l events) ≡ got l events }
{}

/// At the end of each event the number of a side is that of the session of its end, where it is Up, its count is how many fragments the end
/// has accepted in it, and its list is what the end has ever sent in it.
pub fn tap_knows_both_ends()
    ensures controller { (bare : Bool) (l : ShdlcLink) → IsShdlcStart l → StartsSo bare l → (events : List ShdlcLinkEvent) → AllShdlcAllowed events →
        NoneIsCut events →
        IsTrackedBy (tap_after bare new_tap (emitted l events)).clf (tap_after bare new_tap (emitted l events)).uicc (shdlc_after l events).controller }
    ensures host { (bare : Bool) (l : ShdlcLink) → IsShdlcStart l → StartsSo bare l → (events : List ShdlcLinkEvent) → AllShdlcAllowed events →
        NoneIsCut events →
        IsTrackedBy (tap_after bare new_tap (emitted l events)).uicc (tap_after bare new_tap (emitted l events)).clf (shdlc_after l events).host }
{}
