//! The law of a link whose frames are all taken within their life. There is no code here that runs.

ghost use Rattle.std.specs.Prelude.{◌≡◌, [], List};
ghost use Rattle.shdlc_core.specs.declared.answers.LinkState.TheVariants.{Up};
ghost use Rattle.link_laws.specs.sessions.Sessions.{ShdlcLink, ShdlcLinkEvent, shdlc_after, shdlc_number_of, start};
ghost use Rattle.link_laws.specs.lifetimes.Lifetime.{AllPlain, BeginsAnew, GoesOn, LosesNone};

/// From where a session is new at both ends on, and as long as no frame is lost, by its age among others, and only turns, frames
/// that are taken and ticks happen, no end gives up: both ends stay up in it.
pub fn no_end_gives_up()
    ensures controller { (l : ShdlcLink) → BeginsAnew l → (events : List ShdlcLinkEvent) → AllPlain events → LosesNone l events →
        GoesOn l.controller (shdlc_after l events).controller }
    ensures host { (l : ShdlcLink) → BeginsAnew l → (events : List ShdlcLinkEvent) → AllPlain events → LosesNone l events →
        GoesOn l.host (shdlc_after l events).host }
    ensures from_start { (events : List ShdlcLinkEvent) → AllPlain events → LosesNone start events →
        GoesOn start.controller (shdlc_after start events).controller × GoesOn start.host (shdlc_after start events).host }
{}
