//! Passes of the controller in histories of worlds of nodes: as each begins, the messages that wait are those that are read, and any
//! command finds room in its turns; so it replies to messages as is read. Nothing here runs.

ghost use Rattle.std.specs.Prelude.{◌≡◌, ◌++◌, ◌+◌, ◌*◌, ◌≤◌, ℕ, false, length, List, Some};
ghost use Rattle.std.specs.List.{AllByRecursion};
ghost use Rattle.trace_model.specs.declared.line.Header.{Header};
ghost use Rattle.trace_model.specs.declared.line.Line.{Line};
ghost use Rattle.journal_laws.specs.Journal.{state_of};
ghost use Rattle.link_laws.specs.machine.Machine.{LinkInput};
ghost use Rattle.link_laws.specs.messages.Links.{Comes};
ghost use Rattle.node_machine.specs.Parts.{Running, Work};
ghost use Rattle.node_machine.specs.Node.NodeInput.{AtEnd, TimePasses};
ghost use Rattle.node_machine.specs.world.World.{NodeWorld, all_aged, input_of, link_to, new_world};
ghost use Rattle.node_machine.specs.world.Lines.{Occurrence};
ghost use Rattle.node_machine.specs.world.NodeHistories.{FollowsNodes, NodeHistory, entries_in, node_entries, occurrences_in};
ghost use Rattle.node_laws.specs.links.Runs.{ArePlayable};
ghost use Rattle.node_laws.specs.telling.Telling.{world_behind};
ghost use Rattle.node_laws.specs.kept.Hosts.{AreHosts, IsFew, IsSentByHost};
ghost use Rattle.node_laws.specs.read_steps.Worlds.{as_it_ticks};
ghost use Rattle.node_laws.specs.passes.Passing.{ComesTo};
ghost use Rattle.node_laws.specs.passes.Steps.{comes_to_pass, controller_begins};
ghost use Rattle.node_laws.specs.replies.Known.{HasRoomForAll, MessagesAreRead};
ghost use Rattle.node_laws.specs.replies.Passes.{AreRepliedIn, BeginsPass};
ghost use Rattle.node_laws.specs.schedules.Ranges.{AreNodeLinesOf};
ghost use Rattle.node_laws.specs.bounds.Commands.{commands_by_events};
ghost use Rattle.node_laws.specs.reply_passes.Counts.{commands_noted};

/// In a history that follows a schedule, for hosts from 01 to 07 that are all different: in each step of the controller, where something
/// comes to one of its ends, or time passes, the messages that wait at its ends as its pass begins, and whether the first of them was
/// noted as held, are what is read off all that was noted until then.
pub fn what_waits_is_read_as_passes_begin()
    ensures comes { (header : Header) (lines : List Line) (t : NodeHistory) → FollowsNodes header lines t → AreHosts header.hosts.items →
        (front back : List Occurrence) → occurrences_in t ≡ front ++ back → (w : NodeWorld) → world_behind (new_world header.hosts.items) front ≡ w →
        (r : Running) → w.controller ≡ Some r → (h : ℕ) (comes : Comes) (i : LinkInput) → input_of (link_to w.sites h) comes ≡ Some i →
        MessagesAreRead (entries_in front ++ (comes_to_pass (AtEnd h i) (controller_begins w r h comes)).entries)
        (comes_to_pass (AtEnd h i) (controller_begins w r h comes)).ports }
    ensures ticks { (header : Header) (lines : List Line) (t : NodeHistory) → FollowsNodes header lines t → AreHosts header.hosts.items →
        (front back : List Occurrence) → occurrences_in t ≡ front ++ back → (w : NodeWorld) → world_behind (new_world header.hosts.items) front ≡ w →
        (r : Running) → w.controller ≡ Some r →
        MessagesAreRead ((entries_in front ++ (all_aged w).1) ++ (comes_to_pass TimePasses (as_it_ticks w r)).entries)
        (comes_to_pass TimePasses (as_it_ticks w r)).ports }
{}

/// In such a history, whose messages hosts send and in which no node has more commands than a journal counts, the generation of the bank in
/// use in the controller's memory is at most one above the number of commands that were noted until then, also over commits and formats
/// that were cut. So in each turn of a pass any command finds room while at most 4,000,000,000 commands were noted.
pub fn journals_have_room_while_few_commands_are_noted()
    ensures memory { (header : Header) (lines : List Line) (t : NodeHistory) → FollowsNodes header lines t → AreHosts header.hosts.items →
        AllByRecursion IsSentByHost lines → IsFew (node_entries t) → (front back : List Occurrence) → occurrences_in t ≡ front ++ back →
        (state_of (world_behind (new_world header.hosts.items) front).memory.content).generation ≤ 1 + commands_noted (entries_in front) }
    ensures comes { (header : Header) (lines : List Line) (t : NodeHistory) → FollowsNodes header lines t → AreHosts header.hosts.items →
        AllByRecursion IsSentByHost lines → IsFew (node_entries t) → (front back : List Occurrence) → occurrences_in t ≡ front ++ back →
        (w : NodeWorld) → world_behind (new_world header.hosts.items) front ≡ w → (r : Running) → w.controller ≡ Some r →
        (h : ℕ) (comes : Comes) (i : LinkInput) (v : Work) → ComesTo (comes_to_pass (AtEnd h i) (controller_begins w r h comes)) v →
        commands_noted (entries_in front ++ v.entries) ≤ 4000000000 → HasRoomForAll v }
    ensures ticks { (header : Header) (lines : List Line) (t : NodeHistory) → FollowsNodes header lines t → AreHosts header.hosts.items →
        AllByRecursion IsSentByHost lines → IsFew (node_entries t) → (front back : List Occurrence) → occurrences_in t ≡ front ++ back →
        (w : NodeWorld) → world_behind (new_world header.hosts.items) front ≡ w → (r : Running) → w.controller ≡ Some r →
        (v : Work) → ComesTo (comes_to_pass TimePasses (as_it_ticks w r)) v →
        commands_noted ((entries_in front ++ (all_aged w).1) ++ v.entries) ≤ 4000000000 → HasRoomForAll v }
{}

/// In such a history, of seven hosts at most, with lines that can be played: in each step of the controller behind events of which at most
/// 4,000,000,000 commands may come, however many events there are, its pass begins so that in its turns, in whatever order the ends have them,
/// any command finds room, and the messages that wait are read. So, where the power is on then, each message that has its turn in it is
/// replied to as is read, and each that is noted as held is the first one there, wasn't noted so before, and lacks what is noted.
pub fn each_pass_of_the_controller_replies_as_is_read()
    ensures comes { (header : Header) (lines : List Line) (t : NodeHistory) → FollowsNodes header lines t → AreHosts header.hosts.items →
        length header.hosts.items ≤ 7 → AllByRecursion IsSentByHost lines → IsFew (node_entries t) → ArePlayable lines → (front back : List Occurrence) →
        occurrences_in t ≡ front ++ back → commands_by_events front ≤ 4000000000 → (w : NodeWorld) → world_behind (new_world header.hosts.items) front ≡ w →
        (r : Running) → w.controller ≡ Some r → (h : ℕ) (comes : Comes) (i : LinkInput) → input_of (link_to w.sites h) comes ≡ Some i →
        BeginsPass (entries_in front) (comes_to_pass (AtEnd h i) (controller_begins w r h comes)) }
    ensures ticks { (header : Header) (lines : List Line) (t : NodeHistory) → FollowsNodes header lines t → AreHosts header.hosts.items →
        length header.hosts.items ≤ 7 → AllByRecursion IsSentByHost lines → IsFew (node_entries t) → ArePlayable lines → (front back : List Occurrence) →
        occurrences_in t ≡ front ++ back → commands_by_events front ≤ 4000000000 → (w : NodeWorld) → world_behind (new_world header.hosts.items) front ≡ w →
        (r : Running) → w.controller ≡ Some r →
        BeginsPass (entries_in front ++ (all_aged w).1) (comes_to_pass TimePasses (as_it_ticks w r)) }
    ensures comes_replied { (header : Header) (lines : List Line) (t : NodeHistory) → FollowsNodes header lines t → AreHosts header.hosts.items →
        length header.hosts.items ≤ 7 → AllByRecursion IsSentByHost lines → IsFew (node_entries t) → ArePlayable lines → (front back : List Occurrence) →
        occurrences_in t ≡ front ++ back → commands_by_events front ≤ 4000000000 → (w : NodeWorld) → world_behind (new_world header.hosts.items) front ≡ w →
        (r : Running) → w.controller ≡ Some r → (h : ℕ) (comes : Comes) (i : LinkInput) → input_of (link_to w.sites h) comes ≡ Some i →
        (comes_to_pass (AtEnd h i) (controller_begins w r h comes)).cut ≡ false →
        AreRepliedIn header.hosts.items (entries_in front) (comes_to_pass (AtEnd h i) (controller_begins w r h comes)) }
    ensures ticks_replied { (header : Header) (lines : List Line) (t : NodeHistory) → FollowsNodes header lines t → AreHosts header.hosts.items →
        length header.hosts.items ≤ 7 → AllByRecursion IsSentByHost lines → IsFew (node_entries t) → ArePlayable lines → (front back : List Occurrence) →
        occurrences_in t ≡ front ++ back → commands_by_events front ≤ 4000000000 → (w : NodeWorld) → world_behind (new_world header.hosts.items) front ≡ w →
        (r : Running) → w.controller ≡ Some r → (comes_to_pass TimePasses (as_it_ticks w r)).cut ≡ false →
        AreRepliedIn header.hosts.items (entries_in front ++ (all_aged w).1) (comes_to_pass TimePasses (as_it_ticks w r)) }
{}

/// A line in its range causes 100 events at most.
pub fn events_of_a_schedule_are_few()
    ensures { (header : Header) (lines : List Line) (t : NodeHistory) → FollowsNodes header lines t → AreNodeLinesOf header lines →
        ArePlayable lines → (front back : List Occurrence) → occurrences_in t ≡ front ++ back → length front ≤ 100 * length lines }
{}
