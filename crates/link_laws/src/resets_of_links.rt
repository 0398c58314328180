//! How many RSETs are put on a link, without counting the frames that are taken. Nothing here runs.

ghost use Rattle.std.specs.Prelude.{◌+◌, ◌≤◌, List};
ghost use Rattle.link_laws.specs.messages.Links.{IsStart, Link, LinkEvent, after_link_events, happens};
ghost use Rattle.link_laws.specs.messages.Rsets.{NumbersWithin, rset_causes, rset_causes_in, rsets_made};

/// In each event of a link, whatever its nodes do, the RSETs that were put on it and those that its ends have still to send grow by no more
/// than the ticks of its ends and the resets that are asked for. So no more are ever put on it than there were such, and no session of its
/// ends has a greater number than how many were put on it until then.
pub fn rsets_of_a_link_come_of_ticks_and_resets()
    ensures made { (l : Link) (e : LinkEvent) → rsets_made (happens l e) ≤ rsets_made l + rset_causes e }
    ensures put { (l : Link) → IsStart l → (events : List LinkEvent) → (after_link_events l events).resets ≤ rset_causes_in events }
    ensures numbers { (l : Link) → IsStart l → (events : List LinkEvent) → NumbersWithin (rset_causes_in events) (after_link_events l events) }
{}
