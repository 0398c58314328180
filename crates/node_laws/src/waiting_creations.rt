//! The creations that wait at a controller are those that are read off the entries of its world, and so are the blocks that are set
//! aside for their answers. Nothing here runs.

ghost use Rattle.std.specs.Prelude.{◌≡◌, ℕ, List, [], ◌++◌, ◌-◌, ◌^◌, ◌≤◌, length, Some, None};
ghost use Rattle.std.specs.List.{AllByRecursion};
ghost use Rattle.trace_model.specs.declared.entry.Entry.{Entry};
ghost use Rattle.trace_model.specs.declared.line.Header.{Header};
ghost use Rattle.trace_model.specs.declared.line.Line.{Line};
ghost use Rattle.node_machine.specs.world.World.{NodeWorld, Happening, link_to, new_world, world_step};
ghost use Rattle.node_machine.specs.world.Lines.{Occurrence};
ghost use Rattle.node_machine.specs.world.NodeFilters.{asking_in, commands_in};
ghost use Rattle.link_laws.specs.machine.Machine.{give_refusal, turn};
ghost use Rattle.link_laws.specs.machine.Machine.Turn.{Release};
ghost use Rattle.node_machine.specs.world.NodeHistories.{NodeHistory, FollowsNodes, entries_in, node_entries, occurrences_in, world_after};
ghost use Rattle.node_laws.specs.kept.Hosts.{AreHosts, IsSentByHost, IsFew};
ghost use Rattle.node_laws.specs.kept.Worlds.{MayHappen};
ghost use Rattle.node_laws.specs.telling.Telling.{MayBoot, world_behind};
ghost use Rattle.node_laws.specs.creations.Creations.{AsidesAreRead, CreationsAreRead, IfKnowsAsRead};
ghost use Rattle.node_laws.specs.creations.Worlds.{KeepsCreations};

/// In a world that begins no creation is read to wait. Whatever happens then, of each host what is read is the notice of the one creation
/// that it asked for and that waits at a desk of the controller, with the two ends and the number of its pipe; nothing is read exactly
/// where none waits, as while the controller doesn't run; and no two creations of one host wait: so it is at each moment between events,
/// and behind any events of a history that follows a schedule with messages that hosts send.
/// It asks for hosts from 01 to 07 that are all different, and that no node has more commands than a journal counts; a node that boots
/// doesn't run, the power is cut of a node that runs, and a host that sends a command on pipe 01 has none that isn't answered.
pub fn the_controller_keeps_the_creations_that_are_read()
    ensures begin { (hosts : List ℕ) → AreHosts hosts → KeepsCreations hosts [] (new_world hosts) }
    ensures event { (hosts : List ℕ) (t : List Entry) (w : NodeWorld) (c : Happening) → AreHosts hosts → KeepsCreations hosts t w → MayBoot w c →
        MayHappen w c → ((n : ℕ) → length (commands_in t n) ≤ 2 ^ 32 - 1) → KeepsCreations hosts (t ++ (world_step w c).1) (world_step w c).0 }
    ensures read { (hosts : List ℕ) (t : List Entry) (w : NodeWorld) → KeepsCreations hosts t w → CreationsAreRead t w }
    ensures histories { (header : Header) (lines : List Line) (t : NodeHistory) → FollowsNodes header lines t → AreHosts header.hosts.items →
        AllByRecursion IsSentByHost lines → IsFew (node_entries t) → (front back : List Occurrence) → occurrences_in t ≡ front ++ back →
        KeepsCreations header.hosts.items (entries_in front) (world_behind (new_world header.hosts.items) front) }
{}

/// Behind any events of a history that follows a schedule, and behind any lines, of each host what is read off the entries is the notice
/// of the one creation that it asked for and that waits, and nothing exactly where none waits. It asks for hosts from 01 to 07 that are
/// all different, for messages that hosts send, and that no node has more commands than a journal counts.
pub fn waiting_creations_are_read_off_histories()
    ensures events { (header : Header) (lines : List Line) (t : NodeHistory) → FollowsNodes header lines t → AreHosts header.hosts.items →
        AllByRecursion IsSentByHost lines → IsFew (node_entries t) → (front back : List Occurrence) → occurrences_in t ≡ front ++ back →
        CreationsAreRead (entries_in front) (world_behind (new_world header.hosts.items) front) }
    ensures lines { (header : Header) (lines : List Line) (t : NodeHistory) → FollowsNodes header lines t → AreHosts header.hosts.items →
        AllByRecursion IsSentByHost lines → IsFew (node_entries t) →
        CreationsAreRead (node_entries t) (world_after (new_world header.hosts.items) lines) }
{}

/// So what a controller that runs knows of creations is what is read, at each moment between events and behind any lines: a host asks
/// for one exactly where one of it is read, and a pipe is that of a creation that waits exactly where one with its number is read of a
/// host of the world. So the pipe that it gives next is the least one that is free by what is read.
pub fn a_controller_knows_the_creations_that_are_read()
    ensures moment { (hosts : List ℕ) (t : List Entry) (w : NodeWorld) → KeepsCreations hosts t w → IfKnowsAsRead hosts t w.sites w.controller }
    ensures lines { (header : Header) (lines : List Line) (t : NodeHistory) → FollowsNodes header lines t → AreHosts header.hosts.items →
        AllByRecursion IsSentByHost lines → IsFew (node_entries t) →
        IfKnowsAsRead header.hosts.items (node_entries t) (world_after (new_world header.hosts.items) lines).sites
        (world_after (new_world header.hosts.items) lines).controller }
{}

/// The blocks that each end has set aside are those that are read, at each moment between events and behind any lines: one at an end of
/// the controller while a creation of its host waits, else none, and none at ends of hosts. So while a creation waits the end of the
/// controller takes its answer, once this block is released: any answer of at most 32 bytes.
pub fn blocks_set_aside_are_read()
    ensures moment { (hosts : List ℕ) (t : List Entry) (w : NodeWorld) → KeepsCreations hosts t w → AsidesAreRead t w }
    ensures room { (hosts : List ℕ) (t : List Entry) (w : NodeWorld) → KeepsCreations hosts t w → (h : ℕ) (message answer : List ℕ) →
        asking_in t h ≡ Some message → length answer ≤ 32 →
        give_refusal (turn (link_to w.sites h).controller.side Release) (1, answer) ≡ None }
    ensures lines { (header : Header) (lines : List Line) (t : NodeHistory) → FollowsNodes header lines t → AreHosts header.hosts.items →
        AllByRecursion IsSentByHost lines → IsFew (node_entries t) →
        AsidesAreRead (node_entries t) (world_after (new_world header.hosts.items) lines) }
{}
