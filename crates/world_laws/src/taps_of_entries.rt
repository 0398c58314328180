//! The law of a passive tap on one link: what it reports, as it hears all frames that the ends put on the link from the first one on, whether
//! they come or not, is what the ends got. There is no code here that runs.

ghost use Rattle.std.specs.Prelude.{◌≡◌, false, List};
ghost use Rattle.std.specs.List.{list_any};
ghost use Rattle.link_laws.specs.messages.Links.{AllAllowed, IsStart, Link, LinkEvent};
ghost use Rattle.link_laws.specs.entries.Entries.{trace};
ghost use Rattle.tap_reading.specs.Lpdus.{tapped_lpdus};
ghost use Rattle.tap_reading.specs.Tap.{tapped};
ghost use Rattle.world_laws.specs.entries.Hearing.{frames_heard, gots_noted, is_bare, is_cut, lpdus_heard};

/// Over all frames that both ends put on a link, in order from the first one on, in any history in which no node loses power, what a new tap
/// reports are the messages that the ends got, with the end, the number of the session, pipe and bytes, in order, and nothing else; so it is over the LPDUs
/// of these frames.
pub fn tap_reports_what_was_got()
    ensures frames { (l : Link) → IsStart l → (events : List LinkEvent) → AllAllowed l events → list_any is_cut (trace l events) ≡ false →
        tapped (is_bare l.controller.side.role) (frames_heard (trace l events)) ≡ gots_noted (trace l events) }
    ensures lpdus { (l : Link) → IsStart l → (events : List LinkEvent) → AllAllowed l events → list_any is_cut (trace l events) ≡ false →
        tapped_lpdus (is_bare l.controller.side.role) (lpdus_heard (trace l events)) ≡ gots_noted (trace l events) }
{}
