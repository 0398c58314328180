//! Whether a link is disturbed while it settles, as it is noted. There is no code here that runs.

ghost use Rattle.std.specs.Prelude.{◌≡◌, ◌+◌, ◌*◌, ◌≤◌, ◌++◌, ◌∷◌, [], ℕ, List, Some};
ghost use Rattle.std.specs.List.{AllByRecursion};
ghost use Rattle.trace_model.specs.declared.line.Header.{Header};
ghost use Rattle.trace_model.specs.declared.line.Line.{Line};
ghost use Rattle.trace_model.specs.declared.line.Line.TheVariants.{Settle};
ghost use Rattle.trace_model.specs.Lines.{IsHeader, IsNodeHeader, MayFollow};
ghost use Rattle.history.specs.Follows.{Follows, host_of};
ghost use Rattle.history.specs.Histories.{History, all_entries};
ghost use Rattle.node_machine.specs.world.NodeHistories.{FollowsNodes, NodeHistory, node_entries};
ghost use Rattle.node_machine.specs.world.World.{Site, site_at};
ghost use Rattle.node_laws.specs.order.Told.{AreUpWith};
ghost use Rattle.node_laws.specs.rounds.RoundEvents.{rounds_events};
ghost use Rattle.lines_told.specs.messages.Recovery.{IsLinkUndisturbed};
ghost use Rattle.lines_told.specs.lines.Below.{bare_link_behind, nodes_behind};
ghost use Rattle.lines_told.specs.lines.Plays.{lines_played_of, plays_of, rounds_to_rest};
ghost use Rattle.world_laws.specs.links.Settling.{settling_events};
ghost use Rattle.world_laws.specs.worlds.Brought.{AreBothUpIn, BothBrought};
ghost use Rattle.world_laws.specs.worlds.NotedFragments.{fragments_noted};
ghost use Rattle.world_laws.specs.worlds.Undisturbed.{AreLeftReady, ArePoweredNotes, AreReadyThroughout, AreUndisturbedNotes, AreUnheldNotes};
ghost use Rattle.world_laws.specs.worlds.Undisturbed.{entries_since};

/// The history of a schedule of a bare world before a line that lets its link settle, and behind it: where both ends are up in one session
/// before it and neither is left busy by the lines before it, and in its rounds no session of the link ends and no frame of it is lost, the
/// link is undisturbed in these rounds. So it has brought all, with 24 (F + 1) rounds at least: all as it is noted.
pub fn bare_links_that_are_noted_undisturbed_have_brought_all()
    ensures undisturbed { (header : Header) → IsHeader header → (lines : List Line) → AllByRecursion (MayFollow header) lines → (n : ℕ) →
        (t later : History) → Follows header (lines_played_of header lines) t →
        Follows header (lines_played_of header (lines ++ Settle n ∷ [])) later → (k : ℕ) → AreBothUpIn (all_entries t) (host_of header) k →
        AreLeftReady lines (host_of header) → AreUndisturbedNotes (entries_since (all_entries t) (all_entries later)) (host_of header) →
        IsLinkUndisturbed (bare_link_behind header (lines_played_of header lines))
        (settling_events n (host_of header) (bare_link_behind header (lines_played_of header lines))) }
    ensures noted { (header : Header) → IsHeader header → (lines : List Line) → AllByRecursion (MayFollow header) lines → (n : ℕ) →
        (t later : History) → Follows header (lines_played_of header lines) t →
        Follows header (lines_played_of header (lines ++ Settle n ∷ [])) later → (k : ℕ) → AreBothUpIn (all_entries t) (host_of header) k →
        AreLeftReady lines (host_of header) → AreUndisturbedNotes (entries_since (all_entries t) (all_entries later)) (host_of header) →
        24 * (fragments_noted (all_entries t) (host_of header) k + 1) ≤ n →
        BothBrought (all_entries t) (all_entries later) (host_of header) k }
{}

/// The history of a schedule of a world of nodes before a line that lets its links settle, and behind it: where both ends of the link of a host
/// are up in one session before it, both take fragments throughout its rounds, and in these rounds no session of the link ends, no frame of it
/// is lost and no power of its nodes is cut, the link is undisturbed in these rounds. So it has brought all, with 24 (F + 1) rounds at least.
/// But for what the ends take all is as it is noted.
pub fn links_of_nodes_that_are_noted_undisturbed_have_brought_all()
    ensures undisturbed { (header : Header) → IsNodeHeader header → (lines : List Line) → AllByRecursion (MayFollow header) lines → (n : ℕ) →
        (t later : NodeHistory) → FollowsNodes header (lines_played_of header lines) t →
        FollowsNodes header (lines_played_of header (lines ++ Settle n ∷ [])) later → (h : ℕ) (s : Site) →
        site_at (nodes_behind header (lines_played_of header lines)).sites h ≡ Some s → (k : ℕ) → AreUpWith (node_entries t) h k →
        AreReadyThroughout s.link
        (rounds_events h (rounds_to_rest header (plays_of header lines) n) (nodes_behind header (lines_played_of header lines))) →
        ArePoweredNotes (entries_since (node_entries t) (node_entries later)) h →
        IsLinkUndisturbed s.link
        (rounds_events h (rounds_to_rest header (plays_of header lines) n) (nodes_behind header (lines_played_of header lines))) }
    ensures noted { (header : Header) → IsNodeHeader header → (lines : List Line) → AllByRecursion (MayFollow header) lines → (n : ℕ) →
        (t later : NodeHistory) → FollowsNodes header (lines_played_of header lines) t →
        FollowsNodes header (lines_played_of header (lines ++ Settle n ∷ [])) later → (h : ℕ) (s : Site) →
        site_at (nodes_behind header (lines_played_of header lines)).sites h ≡ Some s → (k : ℕ) → AreUpWith (node_entries t) h k →
        AreReadyThroughout s.link
        (rounds_events h (rounds_to_rest header (plays_of header lines) n) (nodes_behind header (lines_played_of header lines))) →
        ArePoweredNotes (entries_since (node_entries t) (node_entries later)) h →
        24 * (fragments_noted (node_entries t) h k + 1) ≤ n → BothBrought (node_entries t) (node_entries later) h k }
{}

/// So it is by entries alone, where both ends of the link of a host are up in one session before such a line, no message is held at either of
/// them then, and in what is noted of its rounds none is held there either, no session of the link ends, no frame of it is lost and no power
/// of its nodes is cut: both ends take fragments throughout these rounds, the link is undisturbed in them, and with 24 (F + 1) rounds at least
/// it has brought all.
pub fn links_of_nodes_that_hold_no_message_have_brought_all()
    ensures ready { (header : Header) → IsNodeHeader header → (lines : List Line) → AllByRecursion (MayFollow header) lines → (n : ℕ) →
        (t later : NodeHistory) → FollowsNodes header (lines_played_of header lines) t →
        FollowsNodes header (lines_played_of header (lines ++ Settle n ∷ [])) later → (h : ℕ) (s : Site) →
        site_at (nodes_behind header (lines_played_of header lines)).sites h ≡ Some s →
        AreUnheldNotes (node_entries t) (entries_since (node_entries t) (node_entries later)) h →
        AreReadyThroughout s.link
        (rounds_events h (rounds_to_rest header (plays_of header lines) n) (nodes_behind header (lines_played_of header lines))) }
    ensures undisturbed { (header : Header) → IsNodeHeader header → (lines : List Line) → AllByRecursion (MayFollow header) lines → (n : ℕ) →
        (t later : NodeHistory) → FollowsNodes header (lines_played_of header lines) t →
        FollowsNodes header (lines_played_of header (lines ++ Settle n ∷ [])) later → (h : ℕ) (s : Site) →
        site_at (nodes_behind header (lines_played_of header lines)).sites h ≡ Some s → (k : ℕ) → AreUpWith (node_entries t) h k →
        AreUnheldNotes (node_entries t) (entries_since (node_entries t) (node_entries later)) h →
        ArePoweredNotes (entries_since (node_entries t) (node_entries later)) h →
        IsLinkUndisturbed s.link
        (rounds_events h (rounds_to_rest header (plays_of header lines) n) (nodes_behind header (lines_played_of header lines))) }
    ensures noted { (header : Header) → IsNodeHeader header → (lines : List Line) → AllByRecursion (MayFollow header) lines → (n : ℕ) →
        (t later : NodeHistory) → FollowsNodes header (lines_played_of header lines) t →
        FollowsNodes header (lines_played_of header (lines ++ Settle n ∷ [])) later → (h : ℕ) (s : Site) →
        site_at (nodes_behind header (lines_played_of header lines)).sites h ≡ Some s → (k : ℕ) → AreUpWith (node_entries t) h k →
        AreUnheldNotes (node_entries t) (entries_since (node_entries t) (node_entries later)) h →
        ArePoweredNotes (entries_since (node_entries t) (node_entries later)) h →
        24 * (fragments_noted (node_entries t) h k + 1) ≤ n → BothBrought (node_entries t) (node_entries later) h k }
{}
