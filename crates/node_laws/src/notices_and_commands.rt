//! What a world of nodes keeps is what is read off its entries, beyond tables and counts: the unanswered command of a host. And a
//! controller has notices that aren't answered only at ends that are up. Nothing here runs.

ghost use Rattle.std.specs.Prelude.{◌≡◌, ◌∷◌, ◌++◌, ℕ, true, false, List, [], Option, None, Some};
ghost use Rattle.std.specs.List.{AllByRecursion};
ghost use Rattle.swp_base.specs.InMemory.{Memory};
ghost use Rattle.trace_model.specs.Lines.{IsHost};
ghost use Rattle.trace_model.specs.declared.entry.Entry.{Entry};
ghost use Rattle.trace_model.specs.declared.entry.Entry.TheVariants.{Booted, Cut};
ghost use Rattle.link_laws.specs.machine.Machine.{LinkInput, Message, Turn, give_refusal};
ghost use Rattle.link_laws.specs.machine.Machine.LinkInput.{Reset};
ghost use Rattle.link_laws.specs.messages.Links.{Comes, Ending, exchanged, has_input};
ghost use Rattle.node_laws.specs.links.Notices.{IsOutside};
ghost use Rattle.node_machine.specs.Parts.{Running, Port, Work, Deed};
ghost use Rattle.node_machine.specs.Node.{NodeInput, steps, begins_with, found};
ghost use Rattle.node_machine.specs.Node.NodeInput.{AtEnd, TimePasses};
ghost use Rattle.link_laws.specs.messages.Links.Comes.{NoInput};
ghost use Rattle.node_machine.specs.world.World.{Site, beginning, host_cut, host_ticks, input_of, is_late_at, link_to, sending, ticked_so, work_of};
ghost use Rattle.node_laws.specs.readings.Orders.{AreInitsShort, Fits, IsAnother, IsFresh, IsSilent, KeepsOrder, MayDo};
ghost use Rattle.trace_model.specs.declared.line.Header.{Header};
ghost use Rattle.trace_model.specs.declared.line.Line.{Line};
ghost use Rattle.node_laws.specs.kept.Hosts.{AreHosts, IsSentByHost};
ghost use Rattle.node_machine.specs.world.NodeHistories.{NodeHistory, FollowsNodes, node_entries, world_after};
ghost use Rattle.node_machine.specs.world.World.{NodeWorld, Happening, new_world, world_step};
ghost use Rattle.node_laws.specs.readings.Noticed.{NoticesAreUp};
ghost use Rattle.node_laws.specs.telling.Telling.{IsOrderly};
ghost use Rattle.node_laws.specs.readings.Worlds.{AllRead, IsInitOfHost, MayBeRead, SiteReads, host_does_so, init_of};

/// In each step of a host its unanswered command stays the one that is read off the entries: none where its power was cut in the
/// step. So it is also where a host begins by deeds of its own that give a command only where its end takes it.
pub fn the_unanswered_command_is_read()
    ensures step { (h : ℕ) (before : List Entry) (input : NodeInput) (w : Work) → IsHost h → IsOutside input → KeepsOrder h before w →
        w.cut ≡ false → AllByRecursion IsFresh w.ports → KeepsOrder h before (steps input w) }
    ensures begins { (h : ℕ) (before : List Entry) (deeds : List Deed) (w : Work) → IsHost h → KeepsOrder h before w → w.cut ≡ false →
        MayDo h (Fits w.ports) deeds → KeepsOrder h before (begins_with h deeds w) }
{}

/// A host of a world keeps the unanswered command that is read of it, and none while it doesn't run, over each of its own events:
/// something comes to its end, it sends a message that its end takes, it begins an init whose first command its end takes and none
/// of whose commands is too long, it has a tick, its power is cut, or it boots while it doesn't run. And it keeps it while others act,
/// where what is noted then tells nothing of it, and its end and its node stay.
pub fn a_host_keeps_the_command_that_is_read()
    ensures comes { (t : List Entry) (s : Site) (r : Running) (comes : Comes) (i : LinkInput) → IsHost s.host → SiteReads t s →
        s.node ≡ Some r → input_of (exchanged s.link) comes ≡ Some i →
        SiteReads (t ++ (host_does_so s r comes (steps (AtEnd s.host i))).1) (host_does_so s r comes (steps (AtEnd s.host i))).0 }
    ensures sends { (t : List Entry) (s : Site) (r : Running) (m : Message) → IsHost s.host → SiteReads t s → s.node ≡ Some r →
        give_refusal s.link.host.side m ≡ None →
        SiteReads (t ++ (host_does_so s r NoInput (begins_with s.host (sending s.host m))).1)
        (host_does_so s r NoInput (begins_with s.host (sending s.host m))).0 }
    ensures begins { (t : List Entry) (s : Site) (r : Running) (identity : List ℕ) (pipes : List (List ℕ)) → IsHost s.host →
        SiteReads t s → s.node ≡ Some r → give_refusal s.link.host.side (1, 3 ∷ []) ≡ None → AreInitsShort (Some (init_of identity pipes)) →
        SiteReads (t ++ (host_does_so s r NoInput (begins_with s.host (beginning identity pipes))).1)
        (host_does_so s r NoInput (begins_with s.host (beginning identity pipes))).0 }
    ensures ticks { (t : List Entry) (s : Site) → IsHost s.host → SiteReads t s → SiteReads (t ++ (host_ticks s).1) (host_ticks s).0 }
    ensures cut { (t : List Entry) (s : Site) → SiteReads (t ++ Cut s.host ∷ []) (host_cut s) }
    ensures boots { (t : List Entry) (s : Site) (m : Memory) (content : List ℕ) (n : ℕ) → SiteReads t s → s.node ≡ None →
        SiteReads (t ++ Booted s.host n ∷ []) (record s { memory = m; node = Some (found s.host (s.host ∷ []) content) }) }
    ensures others { (t : List Entry) (es : List Entry) (s : Site) (v : Site) → AllByRecursion (IsSilent s.host) es → v.host ≡ s.host →
        v.node ≡ s.node → v.link.host.side ≡ s.link.host.side → SiteReads t s → SiteReads (t ++ es) v }
{}

/// Whatever step another node has, the controller or another host, nothing that is noted in it tells of the unanswered command of
/// this host.
pub fn steps_of_others_tell_nothing_of_it()
    ensures { (h : ℕ) (input : NodeInput) (w : Work) → IsAnother h w → AllByRecursion (IsSilent h) w.entries →
        AllByRecursion (IsSilent h) (steps input w).entries }
{}

/// In a world that begins nothing is read of any host, and each keeps it so. Whatever happens then, the unanswered command of each
/// host is the one that is read off the entries, and none while it doesn't run: so it is at each moment between events. It asks for
/// hosts from 01 to 07 that are all different; a node that boots doesn't run, and the end of a host takes what the host sends, and
/// the first command of an init, none of whose commands is longer than 4,096 bytes.
pub fn all_hosts_keep_the_commands_that_are_read()
    ensures begin { (hosts : List ℕ) → AllRead hosts [] (new_world hosts) }
    ensures event { (hosts : List ℕ) (t : List Entry) (w : NodeWorld) (c : Happening) → AreHosts hosts → AllRead hosts t w → MayBeRead w c →
        AllRead hosts (t ++ (world_step w c).1) (world_step w c).0 }
{}

/// Behind any lines of a schedule the unanswered command of each host that runs is the one that is read off the entries, and none is
/// read of a host that doesn't run. It asks for hosts from 01 to 07 that are all different, for messages that hosts send, and for
/// inits of hosts, none of whose commands is longer than 4,096 bytes.
pub fn unanswered_commands_are_read_off_histories()
    ensures { (header : Header) (lines : List Line) (t : NodeHistory) → FollowsNodes header lines t → AreHosts header.hosts.items →
        AllByRecursion IsSentByHost lines → AllByRecursion IsInitOfHost lines →
        AllRead header.hosts.items (node_entries t) (world_after (new_world header.hosts.items) lines) }
{}

/// A controller has a notice that isn't answered only at an end that is up: over whatever happens in an orderly world, also over the
/// tick in which the notice is late and its link is reset, and so behind any lines of a schedule with hosts from 01 to 07 that are
/// all different. An end whose notice is late is up, so it never waits, and is reset in place of having its tick.
pub fn unanswered_notices_stand_at_links_that_are_up()
    ensures event { (w : NodeWorld) (c : Happening) → IsOrderly w → NoticesAreUp w → NoticesAreUp (world_step w c).0 }
    ensures histories { (hosts : List ℕ) (lines : List Line) → AreHosts hosts → NoticesAreUp (world_after (new_world hosts) lines) }
    ensures late { (w : NodeWorld) (r : Running) (h : ℕ) (turns : List Turn) (ending : Ending) → IsOrderly w → NoticesAreUp w →
        w.controller ≡ Some r → is_late_at (steps TimePasses (work_of r w.memory.plan (λ n. (link_to w.sites n).controller) [])) h ≡ true →
        ticked_so (link_to w.sites h) true turns ending ≡ has_input (link_to w.sites h) (Reset None) turns ending }
{}
