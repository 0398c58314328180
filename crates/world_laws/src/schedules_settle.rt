//! Lines of a schedule that let the links settle: where all links are at rest they are quiet, and behind enough rounds all that was sent
//! before them has come. There is no code here that runs.

ghost use Rattle.std.specs.Prelude.{◌≡◌, ◌+◌, ◌*◌, ◌≤◌, ◌++◌, ◌∷◌, [], ℕ, List, Some, false, replicate, true};
ghost use Rattle.std.specs.List.{AllByRecursion};
ghost use Rattle.trace_model.specs.declared.line.Header.{Header};
ghost use Rattle.trace_model.specs.declared.line.Line.{Line};
ghost use Rattle.trace_model.specs.declared.line.Line.TheVariants.{Settle};
ghost use Rattle.trace_model.specs.Lines.{IsHeader, IsNodeHeader, MayFollow};
ghost use Rattle.history.specs.Follows.{Follows, host_of};
ghost use Rattle.history.specs.Histories.{History, all_entries};
ghost use Rattle.node_machine.specs.world.NodeHistories.{FollowsNodes, NodeHistory, NoneIsMisread, node_entries, occurrences_in};
ghost use Rattle.node_machine.specs.world.World.{Site, new_world, site_at};
ghost use Rattle.node_laws.specs.order.Told.{AreUpWith};
ghost use Rattle.node_laws.specs.rounds.BareRounds.{link_after_round};
ghost use Rattle.node_laws.specs.rounds.RoundEvents.{rounds_events};
ghost use Rattle.lines_told.specs.messages.Recovery.{IsLinkUndisturbed, fragments_left};
ghost use Rattle.lines_told.specs.lines.Below.{bare_link_behind, nodes_behind};
ghost use Rattle.lines_told.specs.lines.Plays.{IsPlayFor, Play, lines_played, lines_played_of, plays_of, rests_behind, round_behind, rounds_to_rest};
ghost use Rattle.lines_told.specs.lines.Plays.Play.{Round};
ghost use Rattle.world_laws.specs.links.Resting.{IsLinkQuiet, LinkBrought};
ghost use Rattle.world_laws.specs.links.Settling.{rounds_to_settle, settling_events};
ghost use Rattle.world_laws.specs.worlds.Brought.{AreBothUpIn, BothBrought};
ghost use Rattle.world_laws.specs.worlds.LinkSettled.{LinkSettled};
ghost use Rattle.world_laws.specs.worlds.NotedFragments.{fragments_noted};
ghost use Rattle.world_laws.specs.worlds.NotedRest.{AreNotedQuiet, AreNotedQuietInBare};

/// All links are at rest behind plays exactly where on each of them both wires are empty, no end is waiting, and all messages that an end
/// which is up sent in its session are acknowledged. But for waiting all of it is noted in the history of these plays.
pub fn links_at_rest_are_quiet()
    ensures nodes { (header : Header) → header.hci ≡ true → (plays : List Play) → rests_behind header plays ≡ true →
        AllByRecursion (λ (s : Site). IsLinkQuiet s.link) (nodes_behind header (lines_played header plays)).sites }
    ensures nodes_only { (header : Header) → header.hci ≡ true → (plays : List Play) →
        AllByRecursion (λ (s : Site). IsLinkQuiet s.link) (nodes_behind header (lines_played header plays)).sites →
        rests_behind header plays ≡ true }
    ensures bare { (header : Header) → header.hci ≡ false → (plays : List Play) → rests_behind header plays ≡ true →
        IsLinkQuiet (bare_link_behind header (lines_played header plays)) }
    ensures bare_only { (header : Header) → header.hci ≡ false → (plays : List Play) →
        IsLinkQuiet (bare_link_behind header (lines_played header plays)) → rests_behind header plays ≡ true }
    ensures nodes_noted { (header : Header) → IsNodeHeader header → (plays : List Play) → AllByRecursion (IsPlayFor header) plays →
        (t : NodeHistory) → FollowsNodes header (lines_played header plays) t → rests_behind header plays ≡ true → (h : ℕ) (s : Site) →
        site_at (nodes_behind header (lines_played header plays)).sites h ≡ Some s → AreNotedQuiet (occurrences_in t) h }
    ensures bare_noted { (header : Header) → IsHeader header → (plays : List Play) → AllByRecursion (IsPlayFor header) plays → (t : History) →
        Follows header (lines_played header plays) t → rests_behind header plays ≡ true →
        AreNotedQuietInBare (all_entries t) (host_of header) }
{}

/// Behind plays of a world of nodes, where F fragments of the messages sent both ways on the link of a host aren't acknowledged: where it
/// settles with 24 (F + 1) rounds at least, and in these rounds, while they last, both ends of the link are up and ready and no frame of it
/// is lost but of activation, all good messages that were sent on it before are got, and all that were sent on it before are acknowledged.
/// So it is with a line of a schedule that says so many rounds, all as the history of the schedule notes it before and behind that line
/// (`noted`), while both ends are up in one session.
pub fn links_of_nodes_that_settle_have_brought_all()
    ensures plays { (header : Header) → IsNodeHeader header → (plays : List Play) → AllByRecursion (IsPlayFor header) plays →
        NoneIsMisread (new_world header.hosts.items) (lines_played header plays) → (h : ℕ) (s : Site) →
        site_at (nodes_behind header (lines_played header plays)).sites h ≡ Some s → (n : ℕ) →
        IsLinkUndisturbed s.link (rounds_events h (rounds_to_rest header plays n) (nodes_behind header (lines_played header plays))) →
        24 * (fragments_left s.link + 1) ≤ n →
        LinkSettled (nodes_behind header (lines_played header (plays ++ replicate (rounds_to_rest header plays n) Round))) h s }
    ensures noted { (header : Header) → IsNodeHeader header → (lines : List Line) → AllByRecursion (MayFollow header) lines → (n : ℕ) →
        (t later : NodeHistory) → FollowsNodes header (lines_played_of header lines) t →
        FollowsNodes header (lines_played_of header (lines ++ Settle n ∷ [])) later → (h : ℕ) (s : Site) →
        site_at (nodes_behind header (lines_played_of header lines)).sites h ≡ Some s → (k : ℕ) →
        AreUpWith (node_entries t) h k → AreUpWith (node_entries later) h k →
        IsLinkUndisturbed s.link
        (rounds_events h (rounds_to_rest header (plays_of header lines) n) (nodes_behind header (lines_played_of header lines))) →
        24 * (fragments_noted (node_entries t) h k + 1) ≤ n → BothBrought (node_entries t) (node_entries later) h k }
{}

/// The lines of a round of a bare world do what a round does on its link, and a line that lets it settle comes to as many rounds as those in
/// which the link settles.
pub fn rounds_of_a_bare_world_are_rounds_of_its_link()
    ensures round { (header : Header) → header.hci ≡ false → (before : List Line) →
        bare_link_behind header (before ++ round_behind header before) ≡ link_after_round (host_of header) (bare_link_behind header before) }
    ensures as_many { (header : Header) → header.hci ≡ false → (plays : List Play) (n : ℕ) →
        rounds_to_rest header plays n ≡ rounds_to_settle n (host_of header) (bare_link_behind header (lines_played header plays)) }
{}

/// Where it settles with 24 (F + 1) rounds at least and is undisturbed so, the link of a bare world has brought all too, behind plays whose
/// lines a history follows.
pub fn bare_links_that_settle_have_brought_all()
    ensures plays { (header : Header) → IsHeader header → (plays : List Play) → AllByRecursion (IsPlayFor header) plays → (t : History) →
        Follows header (lines_played header plays) t → (n : ℕ) →
        IsLinkUndisturbed (bare_link_behind header (lines_played header plays))
        (settling_events n (host_of header) (bare_link_behind header (lines_played header plays))) →
        24 * (fragments_left (bare_link_behind header (lines_played header plays)) + 1) ≤ n →
        LinkBrought (bare_link_behind header (lines_played header plays))
        (bare_link_behind header (lines_played header (plays ++ replicate (rounds_to_rest header plays n) Round))) }
    ensures noted { (header : Header) → IsHeader header → (lines : List Line) → AllByRecursion (MayFollow header) lines → (n : ℕ) →
        (t later : History) → Follows header (lines_played_of header lines) t →
        Follows header (lines_played_of header (lines ++ Settle n ∷ [])) later → (k : ℕ) →
        AreBothUpIn (all_entries t) (host_of header) k → AreBothUpIn (all_entries later) (host_of header) k →
        IsLinkUndisturbed (bare_link_behind header (lines_played_of header lines))
        (settling_events n (host_of header) (bare_link_behind header (lines_played_of header lines))) →
        24 * (fragments_noted (all_entries t) (host_of header) k + 1) ≤ n →
        BothBrought (all_entries t) (all_entries later) (host_of header) k }
{}
