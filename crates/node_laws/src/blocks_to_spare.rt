//! The blocks that both ends of each link of a world of nodes have in use and to spare are read off its history. Nothing here runs.

ghost use Rattle.std.specs.Prelude.{◌≡◌, ◌++◌, ℕ, List, Some};
ghost use Rattle.std.specs.List.{AllByRecursion};
ghost use Rattle.trace_model.specs.declared.line.Header.{Header};
ghost use Rattle.trace_model.specs.declared.line.Line.{Line};
ghost use Rattle.node_machine.specs.world.World.{Site, new_world, site_at};
ghost use Rattle.node_machine.specs.world.Lines.{Occurrence};
ghost use Rattle.node_machine.specs.world.NodeHistories.{FollowsNodes, NodeHistory, entries_in, node_entries, occurrences_in};
ghost use Rattle.node_laws.specs.links.Runs.{ArePlayable};
ghost use Rattle.node_laws.specs.kept.Hosts.{AreHosts, IsSentByHost, IsFew};
ghost use Rattle.node_laws.specs.telling.Telling.{world_behind};
ghost use Rattle.node_laws.specs.rooms.Rooms.{AreHeldRead, AreSparesRead};

/// At the end of each event of a history that follows a schedule, the messages that are read to be unacknowledged in the session of an
/// end, or in none where it isn't up, are those of its own that aren't acknowledged whole: so the blocks that they need are those that
/// are in use there. It asks for hosts from 01 to 07 that are all different, and for lines that can be played.
pub fn messages_that_need_blocks_are_read_off_histories()
    ensures { (header : Header) (lines : List Line) (t : NodeHistory) → FollowsNodes header lines t → AreHosts header.hosts.items →
        ArePlayable lines → (front back : List Occurrence) → occurrences_in t ≡ front ++ back → (h : ℕ) (s : Site) →
        site_at (world_behind (new_world header.hosts.items) front).sites h ≡ Some s → AreHeldRead (entries_in front) h s.link }
{}

/// The session of an end and the blocks that it has set aside are read too: so at the end of each event of such a history the blocks that
/// both ends of each link have to spare are those that are read, also at an end that isn't up or whose node doesn't run. It asks for hosts
/// from 01 to 07 that are all different, for lines that can be played, for messages that hosts send, and that no node has more commands
/// than a journal counts.
pub fn blocks_to_spare_are_read_off_histories()
    ensures { (header : Header) (lines : List Line) (t : NodeHistory) → FollowsNodes header lines t → AreHosts header.hosts.items →
        ArePlayable lines → AllByRecursion IsSentByHost lines → IsFew (node_entries t) → (front back : List Occurrence) →
        occurrences_in t ≡ front ++ back → (h : ℕ) (s : Site) →
        site_at (world_behind (new_world header.hosts.items) front).sites h ≡ Some s → AreSparesRead (entries_in front) h s.link }
{}
