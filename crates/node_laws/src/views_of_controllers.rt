//! What a controller and its hosts know at a point of a history of nodes, beyond tables, commands and notices, is read off its entries:
//! REC_ERROR of each end, the view of a controller where sessions and creations that wait are, and the init that runs at a host. Nothing
//! here runs.

ghost use Rattle.std.specs.Prelude.{◌≡◌, ◌==◌, ◌∷◌, ◌++◌, ℕ, true, false, [], List, Option, None, Some};
ghost use Rattle.trace_model.specs.Lines.{IsHost};
ghost use Rattle.shdlc_core.specs.declared.answers.LinkState.TheVariants.{Up};
ghost use Rattle.link_laws.specs.machine.Machine.{LinkInput, Message};
ghost use Rattle.link_laws.specs.messages.Links.{Comes, NumberedEnd, exchanged};
ghost use Rattle.link_laws.specs.messages.Links.Comes.{NoInput};
ghost use Rattle.std.specs.List.{AllByRecursion, fold};
ghost use Rattle.swp_base.specs.InMemory.{Memory, Plan};
ghost use Rattle.trace_model.specs.declared.entry.Entry.{Entry};
ghost use Rattle.trace_model.specs.declared.entry.Entry.TheVariants.{Booted, Cut};
ghost use Rattle.trace_model.specs.declared.line.Header.{Header};
ghost use Rattle.trace_model.specs.declared.line.Line.{Line};
ghost use Rattle.hci_tables.specs.Tables.{HciTables};
ghost use Rattle.gate_admin.specs.declared.view.LinkView.{LinkView};
ghost use Rattle.gate_admin.specs.Decide.{decided};
ghost use Rattle.node_machine.specs.Parts.{Init, Running, Work};
ghost use Rattle.node_machine.specs.Node.{NodeInput, begins_with, found, steps};
ghost use Rattle.node_machine.specs.Node.NodeInput.{AtEnd};
ghost use Rattle.node_laws.specs.links.Notices.{IsOutside};
ghost use Rattle.node_laws.specs.readings.Orders.{IsFresh};
ghost use Rattle.node_laws.specs.readings.Worlds.{host_does_so, init_of};
ghost use Rattle.node_laws.specs.views.Inits.{IsBegunByHost, IsNoEndOf, KeepsInit, LeavesInit, SiteKeepsInit, init_after, init_in, init_of_running};
ghost use Rattle.node_machine.specs.Controller.{view_for};
ghost use Rattle.node_machine.specs.world.World.{Site, beginning, host_cut, host_ticks, input_of, new_world, node_at, sending, work_of};
ghost use Rattle.node_machine.specs.world.Lines.{Occurrence};
ghost use Rattle.node_machine.specs.world.NodeHistories.{FollowsNodes, NodeHistory, entries_in, node_entries, occurrences_in, world_after};
ghost use Rattle.node_laws.specs.kept.Hosts.{AreHosts, IsFew, IsSentByHost};
ghost use Rattle.node_laws.specs.links.Runs.{ArePlayable};
ghost use Rattle.node_laws.specs.telling.Telling.{HasEnds, world_behind};
ghost use Rattle.node_laws.specs.readings.Noticed.{ends_between};
ghost use Rattle.node_laws.specs.views.Errors.{ErrorsAreRead};
ghost use Rattle.node_laws.specs.cuts.Histories.{is_one_of};
ghost use Rattle.node_laws.specs.views.Views.{IsSameView, view_at};

/// At the end of each event of a history, and behind any lines of a schedule, REC_ERROR of each end of a link, as its node keeps it while
/// it runs, is the one that is read off the entries: 0 as the node boots, then what a command sets whose ANY_OK is sent, and one more,
/// up to FFFF, for each frame that is refused on its way there. It asks for hosts from 01 to 07 that are all different, for messages
/// that hosts send, and that no node has more commands than a journal counts.
pub fn errors_are_read_off_histories()
    ensures events { (header : Header) (lines : List Line) (t : NodeHistory) → FollowsNodes header lines t → AreHosts header.hosts.items →
        AllByRecursion IsSentByHost lines → IsFew (node_entries t) → (front back : List Occurrence) → occurrences_in t ≡ front ++ back →
        ErrorsAreRead (entries_in front) (world_behind (new_world header.hosts.items) front) }
    ensures lines { (header : Header) (lines : List Line) (t : NodeHistory) → FollowsNodes header lines t → AreHosts header.hosts.items →
        AllByRecursion IsSentByHost lines → IsFew (node_entries t) →
        ErrorsAreRead (node_entries t) (world_after (new_world header.hosts.items) lines) }
{}

/// At the end of each event of a history the view that a controller which runs has of its links, as a command of one of its hosts comes,
/// is the one that is read off the entries: which hosts are configured, connected, have a notice to answer, or that of a creation, also of
/// one that was forgotten, which pipes are those of creations that wait, and REC_ERROR. It asks for what `errors_are_read_off_histories`
/// asks for, and for lines that can be played.
pub fn the_view_of_a_controller_is_read_off_histories()
    ensures { (header : Header) (lines : List Line) (t : NodeHistory) → FollowsNodes header lines t → AreHosts header.hosts.items →
        ArePlayable lines → AllByRecursion IsSentByHost lines → IsFew (node_entries t) → (front back : List Occurrence) → occurrences_in t ≡ front ++ back →
        (r : Running) → (world_behind (new_world header.hosts.items) front).controller ≡ Some r →
        (h : ℕ) → is_one_of header.hosts.items h ≡ true →
        IsSameView (view_for r.core.tables (ends_between (world_behind (new_world header.hosts.items) front).sites r) h)
        (view_at header.hosts.items (entries_in front) h) }
{}

/// By two views that say the same, in whatever order the pipes of creations that wait stand in them, a controller decides the same of each
/// command: so it decides by what is read.
pub fn views_that_say_the_same_decide_the_same()
    ensures { (t : HciTables) (v u : LinkView) (h pipe instruction : ℕ) (body : List ℕ) → IsSameView v u →
        decided t v h pipe instruction body ≡ decided t u h pipe instruction body }
{}

/// In each step of a host the init that runs there stays the one that is read off the entries of the step, behind the one with which the
/// step began: with each response on pipe 01 one more of its commands is answered, and none runs behind its end, the end of the session
/// or a cut of the host's power. So it is where the host sends a message. And behind a line that begins an init, at an end that is up,
/// the new one runs. While an init runs, a command of it waits for its answer and the end is up.
pub fn the_running_init_is_read()
    ensures step { (h : ℕ) (begun : Option Init) (input : NodeInput) (w : Work) → IsHost h → IsOutside input → KeepsInit h begun w →
        w.cut ≡ false → AllByRecursion IsFresh w.ports → KeepsInit h begun (steps input w) }
    ensures sends { (h : ℕ) (begun : Option Init) (m : Message) (w : Work) → IsHost h → KeepsInit h begun w → w.cut ≡ false →
        KeepsInit h begun (begins_with h (sending h m) w) }
    ensures begins { (h : ℕ) (begun : Option Init) (identity : List ℕ) (pipes : List (List ℕ)) (w : Work) → IsHost h →
        (k : KeepsInit h begun w) → w.cut ≡ false → w.entries ≡ [] → k.port.side.shdlc.phase ≡ Up →
        KeepsInit h (Some (init_of identity pipes)) (begins_with h (beginning identity pipes) w) }
{}

/// A host keeps the init that is read of it, and none while it doesn't run, over each of its own events: something comes to its end, it
/// sends a message, it begins an init at an end that is up, it has a tick, its power is cut, or it boots while it doesn't run.
pub fn a_host_keeps_the_init_that_is_read()
    ensures comes { (s : Site) (i : Option Init) (r : Running) (comes : Comes) (input : LinkInput) → IsHost s.host → s.node ≡ Some r →
        SiteKeepsInit i s → input_of (exchanged s.link) comes ≡ Some input →
        SiteKeepsInit (fold (init_after s.host) i (host_does_so s r comes (steps (AtEnd s.host input))).1)
        (host_does_so s r comes (steps (AtEnd s.host input))).0 }
    ensures sends { (s : Site) (i : Option Init) (r : Running) (m : Message) → IsHost s.host → s.node ≡ Some r → SiteKeepsInit i s →
        SiteKeepsInit (fold (init_after s.host) i (host_does_so s r NoInput (begins_with s.host (sending s.host m))).1)
        (host_does_so s r NoInput (begins_with s.host (sending s.host m))).0 }
    ensures begins { (s : Site) (i : Option Init) (r : Running) (identity : List ℕ) (pipes : List (List ℕ)) → IsHost s.host →
        s.node ≡ Some r → SiteKeepsInit i s → s.link.host.side.shdlc.phase ≡ Up →
        SiteKeepsInit (fold (init_after s.host) (Some (init_of identity pipes))
        (host_does_so s r NoInput (begins_with s.host (beginning identity pipes))).1)
        (host_does_so s r NoInput (begins_with s.host (beginning identity pipes))).0 }
    ensures ticks { (s : Site) (i : Option Init) → IsHost s.host → SiteKeepsInit i s →
        SiteKeepsInit (fold (init_after s.host) i (host_ticks s).1) (host_ticks s).0 }
    ensures cut { (s : Site) (i : Option Init) → SiteKeepsInit (fold (init_after s.host) i (Cut s.host ∷ [])) (host_cut s) }
    ensures boots { (s : Site) (i : Option Init) (m : Memory) (content : List ℕ) (n : ℕ) → SiteKeepsInit i s → s.node ≡ None →
        SiteKeepsInit (fold (init_after s.host) i (Booted s.host n ∷ []))
        (record s { memory = m; node = Some (found s.host (s.host ∷ []) content) }) }
{}

/// Whatever step another node has, the controller or another host, nothing that is noted in it tells of the init of this host, where
/// nothing that was noted first does and none of its ends is this host's.
pub fn steps_of_others_tell_nothing_of_an_init()
    ensures { (h n : ℕ) (hosts : List ℕ) (r : Running) (plan : Option Plan) (near_ends : ℕ → NumberedEnd) (es : List Entry) (input : NodeInput) →
        (n == h) ≡ false → HasEnds n hosts r → AllByRecursion (IsNoEndOf h n) hosts → AllByRecursion (LeavesInit h) es →
        AllByRecursion (LeavesInit h) (steps input (work_of r plan near_ends es)).entries }
{}

/// At the end of each event of a history, and behind any lines of a schedule, the init that runs at a host, with its identity, its pipes
/// and the number of its commands that are answered, is the one that is read off the events, and none is read while none runs or the
/// host doesn't. It begins as its line causes it; a response on pipe 01 that has its turn at the host answers one more of its commands;
/// and it ends with its own entry, the end of the session of the host's end, or a cut of the host's power. It asks for hosts from 01 to
/// 07 that are all different, and that lines begin inits at ends of hosts. Of a node that is no host of the header none is read.
pub fn running_inits_are_read_off_histories()
    ensures events { (header : Header) (lines : List Line) (t : NodeHistory) → FollowsNodes header lines t → AreHosts header.hosts.items →
        AllByRecursion IsBegunByHost lines → (front back : List Occurrence) → occurrences_in t ≡ front ++ back → (h : ℕ) → IsHost h →
        init_in front h ≡ init_of_running (node_at (world_behind (new_world header.hosts.items) front) h) }
    ensures lines { (header : Header) (lines : List Line) (t : NodeHistory) → FollowsNodes header lines t → AreHosts header.hosts.items →
        AllByRecursion IsBegunByHost lines → (h : ℕ) → IsHost h →
        init_in (occurrences_in t) h ≡ init_of_running (node_at (world_after (new_world header.hosts.items) lines) h) }
{}
