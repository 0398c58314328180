//! What a history of a world of nodes tells of each of its links, with ticks, cuts and activations: at each moment messages are in order.
//! Nothing here runs.

ghost use Rattle.std.specs.Prelude.{◌≡◌, ◌++◌, ℕ, false, List, Some};
ghost use Rattle.std.specs.List.{AllByRecursion, list_any};
ghost use Rattle.trace_model.specs.declared.line.Header.{Header};
ghost use Rattle.trace_model.specs.declared.line.Line.{Line};
ghost use Rattle.history.specs.Legal.{is_chain_fault};
ghost use Rattle.node_machine.specs.world.World.{Site, new_world, site_at};
ghost use Rattle.node_machine.specs.world.Lines.{Occurrence};
ghost use Rattle.node_machine.specs.world.NodeHistories.{FollowsNodes, NodeHistory, entries_in, node_entries, occurrences_in, world_after};
ghost use Rattle.node_laws.specs.links.Runs.{ArePlayable};
ghost use Rattle.node_laws.specs.kept.Hosts.{AreHosts, IsFew, IsSentByHost};
ghost use Rattle.node_laws.specs.telling.Telling.{IsTimely, world_behind};
ghost use Rattle.node_laws.specs.order.Legal.{LegalNodes, PrefixNodes};
ghost use Rattle.node_laws.specs.order.Resets.{ResetNodes, TickResetNodes};
ghost use Rattle.node_laws.specs.order.Told.{AreEndsRead, AreReadOff, AreSessionsRead, AreWiresRead, HasDelivered, HasDeliveredAll, HasSettled, IsLinkTold};

/// At the end of each event of a history of hosts from 01 to 07 that are all different, each end is new while its node doesn't run, a
/// notice comes to its hundredth tick only at an end that is active and up, and none does at a host: so what is said of ticks of such
/// worlds holds at each moment. And behind all events of a history its world is the one behind its lines.
pub fn worlds_stay_timely()
    ensures timely { (header : Header) (lines : List Line) (t : NodeHistory) → FollowsNodes header lines t → AreHosts header.hosts.items →
        ArePlayable lines → (front back : List Occurrence) → occurrences_in t ≡ front ++ back → (h : ℕ) (s : Site) →
        site_at (world_behind (new_world header.hosts.items) front).sites h ≡ Some s → IsTimely (world_behind (new_world header.hosts.items) front) h s }
    ensures last { (header : Header) (lines : List Line) (t : NodeHistory) → FollowsNodes header lines t →
        world_behind (new_world header.hosts.items) (occurrences_in t) ≡ world_after (new_world header.hosts.items) lines }
{}

/// At the end of each event of such a history each link is what events of the law of one link make of a new one, each of which may
/// happen, and what the history told of the link until then is what that law notes of these events. So what the ends of a link have of
/// each session, the messages sent and got and how many are acknowledged, is what is read off the entries.
pub fn histories_tell_of_each_link()
    ensures told { (header : Header) (lines : List Line) (t : NodeHistory) → FollowsNodes header lines t → AreHosts header.hosts.items →
        ArePlayable lines → (front back : List Occurrence) → occurrences_in t ≡ front ++ back → (h : ℕ) (s : Site) →
        site_at (world_behind (new_world header.hosts.items) front).sites h ≡ Some s → IsLinkTold h s.link (entries_in front) }
    ensures read { (header : Header) (lines : List Line) (t : NodeHistory) → FollowsNodes header lines t → AreHosts header.hosts.items →
        ArePlayable lines → (front back : List Occurrence) → occurrences_in t ≡ front ++ back → (h : ℕ) (s : Site) →
        site_at (world_behind (new_world header.hosts.items) front).sites h ≡ Some s → AreReadOff (entries_in front) h s.link }
{}

/// At the end of each event of such a history the session of each end of each link, as it is read off the entries with all cuts of the
/// power of its node, is the number of the session in which that end is up, and none where it isn't up, as while its node doesn't run.
pub fn sessions_are_read_off_histories_of_nodes()
    ensures { (header : Header) (lines : List Line) (t : NodeHistory) → FollowsNodes header lines t → AreHosts header.hosts.items →
        ArePlayable lines → (front back : List Occurrence) → occurrences_in t ≡ front ++ back → (h : ℕ) (s : Site) →
        site_at (world_behind (new_world header.hosts.items) front).sites h ≡ Some s → AreSessionsRead (entries_in front) h s.link }
{}

/// At the end of each event of such a history the frames on both wires of each link are those that are read off the events: each frame
/// that is put on a wire stands behind those before it, what is taken or lost is the first one, and both wires are empty as the power
/// of a node of the link is cut, and as an activation of the link begins.
pub fn wires_are_read_off_histories_of_nodes()
    ensures { (header : Header) (lines : List Line) (t : NodeHistory) → FollowsNodes header lines t → AreHosts header.hosts.items →
        ArePlayable lines → (front back : List Occurrence) → occurrences_in t ≡ front ++ back → (h : ℕ) (s : Site) →
        site_at (world_behind (new_world header.hosts.items) front).sites h ≡ Some s → AreWiresRead front h s.link }
{}

/// At the end of each event of such a history the ends of each link at which activation is done, and those that wait for the answer to a
/// reset, are those that are read off the events: activation is done where it is noted so, until the power of the node is cut or an
/// activation of the link begins, and an end waits once RSET went out of it, until its session begins, it gives up, or one of these two
/// comes.
pub fn ends_are_read_off_histories_of_nodes()
    ensures { (header : Header) (lines : List Line) (t : NodeHistory) → FollowsNodes header lines t → AreHosts header.hosts.items →
        ArePlayable lines → (front back : List Occurrence) → occurrences_in t ≡ front ++ back → (h : ℕ) (s : Site) →
        site_at (world_behind (new_world header.hosts.items) front).sites h ≡ Some s → AreEndsRead front h s.link }
{}

/// At each moment of such a history, between any two entries, each end has got in each session a front of the good messages that the
/// other end of its link sent in it; the good ones among those that count as acknowledged are a front of what the other got; and no
/// more count than were sent. And no session ends by packets that can't be joined.
pub fn messages_are_in_order_in_each_history()
    ensures in_order { (header : Header) (lines : List Line) (t : NodeHistory) → FollowsNodes header lines t → AreHosts header.hosts.items →
        ArePlayable lines → PrefixNodes t }
    ensures joined { (header : Header) (lines : List Line) (t : NodeHistory) → FollowsNodes header lines t → AreHosts header.hosts.items →
        ArePlayable lines → list_any is_chain_fault (node_entries t) ≡ false }
{}

/// At the end of each event of such a history, where both ends of a link are up in one session, as it is read off the entries, no frame
/// of the link but of activation was lost and no RNR made since the first of them came up in it, and both wires hold none but of
/// activation, the other end got all good messages that an end sent in that session, and all that it sent are acknowledged, as the
/// history notes it (`delivered`). And where a reset put the last RSET on the link, nothing kept its answer back and no frame is on its
/// way but those of activation, both ends are up in one session, as it is read off the entries (`settled`).
pub fn quiet_links_have_delivered_all_in_each_history()
    ensures delivered { (header : Header) (lines : List Line) (t : NodeHistory) → FollowsNodes header lines t → AreHosts header.hosts.items →
        ArePlayable lines → (front back : List Occurrence) → occurrences_in t ≡ front ++ back → (h : ℕ) (s : Site) →
        site_at (world_behind (new_world header.hosts.items) front).sites h ≡ Some s → HasDelivered (entries_in front) h s.link }
    ensures settled { (header : Header) (lines : List Line) (t : NodeHistory) → FollowsNodes header lines t → AreHosts header.hosts.items →
        ArePlayable lines → (front back : List Occurrence) → occurrences_in t ≡ front ++ back → (h : ℕ) (s : Site) →
        site_at (world_behind (new_world header.hosts.items) front).sites h ≡ Some s → HasSettled (entries_in front) h s.link }
{}

/// Where an end of a link was reset in such a history, as a line asked for, while the other end was active and not waiting, and the nodes
/// of the link kept their power in that event, and behind it no frame of the link was lost but of activation, no other RSET put on it, no
/// power of its nodes cut and no activation of it begun, both ends are up with one number once both wires hold no frames but of activation.
/// All of it is read off the events: `standing_behind` for the ends and the wires, `session_now` for the sessions, a frame of activation off
/// its bytes; and that a line lost a frame counts in the event of such a line alone.
/// So it is where the controller's end was reset in a tick, as for a notice that is late, and behind that in the tick no frame of the link was
/// lost but of activation and in it the host's end put no RSET on the link (`in_tick`): what was too old was lost before.
pub fn resets_bring_both_up_in_each_history()
    ensures by_line { (header : Header) (lines : List Line) (t : NodeHistory) → FollowsNodes header lines t → AreHosts header.hosts.items →
        ArePlayable lines → ResetNodes t }
    ensures in_tick { (header : Header) (lines : List Line) (t : NodeHistory) → FollowsNodes header lines t → AreHosts header.hosts.items →
        ArePlayable lines → TickResetNodes t }
{}

/// At the end of each event of such a history, where both ends of a link are up in one session, no frame of the link was lost and no RNR
/// put on it since the first of them came up in it, and both its wires are empty, each end got all good messages that the other end sent
/// in that session, and all that were sent are acknowledged. All this is read off the events: no link's state is spoken of.
pub fn links_that_are_still_have_delivered_all()
    ensures { (header : Header) (lines : List Line) (t : NodeHistory) → FollowsNodes header lines t → AreHosts header.hosts.items →
        ArePlayable lines → (front back : List Occurrence) → occurrences_in t ≡ front ++ back → (h : ℕ) → HasDeliveredAll front h }
{}

/// Every history that follows a schedule is legal: messages are in order at each moment, at the end of each event quiet links have
/// delivered all and resets have brought both ends up, pipes between hosts were made as whitelists allow, commands are kept over power
/// cuts, exactly those that are read to stand in the memories, and messages have their turns in the order in which they came. It asks for
/// hosts from 01 to 07 that are all different, for lines that can be played, for messages that hosts send, and that no node has more
/// commands than a journal counts.
pub fn every_history_of_nodes_is_legal()
    ensures { (header : Header) (lines : List Line) (t : NodeHistory) → FollowsNodes header lines t → AreHosts header.hosts.items →
        ArePlayable lines → AllByRecursion IsSentByHost lines → IsFew (node_entries t) → LegalNodes t }
{}
