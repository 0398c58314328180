//! How many commands the nodes of a world note, bounded by what is asked of it: not by frames that are taken, nor by time. Nothing here runs.

ghost use Rattle.std.specs.Prelude.{◌≡◌, ◌*◌, ◌++◌, ◌≤◌, ℕ, length, List, Some};
ghost use Rattle.trace_model.specs.declared.line.Header.{Header};
ghost use Rattle.trace_model.specs.declared.line.Line.{Line};
ghost use Rattle.trace_model.specs.Lines.{IsNodeHeader};
ghost use Rattle.link_laws.specs.machine.Machine.{LinkInput};
ghost use Rattle.link_laws.specs.messages.Links.{Comes};
ghost use Rattle.node_machine.specs.Parts.{Running, Work};
ghost use Rattle.node_machine.specs.Node.NodeInput.{AtEnd, TimePasses};
ghost use Rattle.node_machine.specs.world.World.{Happening, NodeWorld, all_aged, input_of, link_to, new_world};
ghost use Rattle.node_laws.specs.telling.Telling.{world_behind};
ghost use Rattle.node_laws.specs.passes.Passing.{ComesTo};
ghost use Rattle.node_laws.specs.passes.Steps.{comes_to_pass, controller_begins};
ghost use Rattle.node_laws.specs.read_steps.Worlds.{as_it_ticks};
ghost use Rattle.node_machine.specs.world.Lines.{Occurrence, all_happen};
ghost use Rattle.node_machine.specs.world.NodeHistories.{FollowsNodes, NodeHistory, entries_in, occurrences_in};
ghost use Rattle.node_laws.specs.kept.Hosts.{AreHosts};
ghost use Rattle.node_laws.specs.reply_passes.Counts.{commands_noted};
ghost use Rattle.node_laws.specs.schedules.Ranges.{AreNodeLinesOf, lines_asking};
ghost use Rattle.node_laws.specs.bounds.Commands.{AllCome, AreCausedSo, commands_by_all, commands_by_events};

/// Whatever happens to a new world of at most seven hosts, from 01 to 07 and all different, where nodes boot only while they don't run, messages
/// may be sent, windows are in their range and links are activated while the controller runs: the commands that its nodes note are at most 18
/// for each message that a host sends, as many for each command of an init, and three for each activation (`causes`), as long as what is to
/// happen can happen. So it is with any events, each caused in the world behind those before it (`events`). Frames that are taken or lost, time
/// that passes, boots, cuts and resets bring about none beyond these, however many there are; nor do the turns of a pass of the controller behind
/// these events, in whatever order its ends have them, as something comes to one of its ends (`passes`) or as time passes (`ticks`). And of the
/// events of lines in their ranges at most 234 may come for each line that asks for something (`asked`), so no more were noted behind them
/// (`lines`).
pub fn commands_are_bounded_by_what_is_asked_for()
    ensures causes { (hosts : List ℕ) (causes : List Happening) → AreHosts hosts → length hosts ≤ 7 → AllCome (new_world hosts) causes →
        commands_noted (entries_in (all_happen (new_world hosts) causes).1) ≤ commands_by_all causes }
    ensures events { (hosts : List ℕ) (events : List Occurrence) → AreHosts hosts → length hosts ≤ 7 → AreCausedSo (new_world hosts) events →
        commands_noted (entries_in events) ≤ commands_by_events events }
    ensures passes { (hosts : List ℕ) (events : List Occurrence) → AreHosts hosts → length hosts ≤ 7 → AreCausedSo (new_world hosts) events →
        (w : NodeWorld) → world_behind (new_world hosts) events ≡ w → (r : Running) → w.controller ≡ Some r → (h : ℕ) (comes : Comes) (i : LinkInput) →
        input_of (link_to w.sites h) comes ≡ Some i → (v : Work) → ComesTo (comes_to_pass (AtEnd h i) (controller_begins w r h comes)) v →
        commands_noted (entries_in events ++ v.entries) ≤ commands_by_events events }
    ensures ticks { (hosts : List ℕ) (events : List Occurrence) → AreHosts hosts → length hosts ≤ 7 → AreCausedSo (new_world hosts) events →
        (w : NodeWorld) → world_behind (new_world hosts) events ≡ w → (r : Running) → w.controller ≡ Some r → (v : Work) →
        ComesTo (comes_to_pass TimePasses (as_it_ticks w r)) v →
        commands_noted ((entries_in events ++ (all_aged w).1) ++ v.entries) ≤ commands_by_events events }
    ensures asked { (header : Header) (lines : List Line) (t : NodeHistory) → FollowsNodes header lines t → AreNodeLinesOf header lines →
        (front back : List Occurrence) → occurrences_in t ≡ front ++ back → commands_by_events front ≤ 234 * lines_asking lines }
    ensures lines { (header : Header) (lines : List Line) (t : NodeHistory) → FollowsNodes header lines t → IsNodeHeader header →
        AreNodeLinesOf header lines → (front back : List Occurrence) → occurrences_in t ≡ front ++ back →
        commands_noted (entries_in front) ≤ 234 * lines_asking lines }
{}
