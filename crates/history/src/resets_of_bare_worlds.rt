//! How many RSETs are put on the link of a bare world, without counting the frames that are taken. Nothing here runs.

ghost use Rattle.std.specs.Prelude.{◌+◌, ℕ, List};
ghost use Rattle.link_laws.specs.messages.Links.{Link};
ghost use Rattle.link_laws.specs.messages.Rsets.{FewRsets, NumbersWithin};
ghost use Rattle.history.specs.BareRsets.{rsets_by_all_bare, rsets_by_bare};
ghost use Rattle.history.specs.Histories.{Cause};
ghost use Rattle.history.specs.Steps.{bare_link, link_after, link_after_all};

/// Whatever happens to a bare world, the RSETs that were put on its link are at most two for each tick and one for each reset that is asked
/// for, and so are the numbers of its sessions; no frame that is taken or lost counts. `step` goes on from any link, with those that are
/// still to be sent.
pub fn rsets_of_a_bare_world_come_of_ticks_and_resets()
    ensures step { (n : ℕ) (l : Link) (cause : Cause) → FewRsets n l → FewRsets (n + rsets_by_bare cause) (link_after l cause) }
    ensures all { (causes : List Cause) → NumbersWithin (rsets_by_all_bare causes) (link_after_all bare_link causes) }
{}
