//! Laws of what is told of a schedule, and of a history of plays, below either header. Nothing here runs.

ghost use Rattle.std.specs.Prelude.{◌≡◌, ◌≤◌, ◌++◌, ◌∷◌, List, None, length, All};
ghost use Rattle.std.specs.List.{AllByRecursion};
ghost use Rattle.trace_model.specs.declared.line.Header.{Header};
ghost use Rattle.trace_model.specs.declared.line.Line.{Line};
ghost use Rattle.trace_model.specs.Lines.{IsHeader, IsNodeHeader, MayBegin, MayFollow};
ghost use Rattle.history.specs.Histories.{History};
ghost use Rattle.history.specs.Follows.{Follows};
ghost use Rattle.told_laws.specs.texts.Ranges.{IsEntry};
ghost use Rattle.node_machine.specs.world.NodeHistories.{FollowsNodes, NodeHistory};
ghost use Rattle.lines_told.specs.lines.Below.{misread_below};
ghost use Rattle.lines_told.specs.lines.Plays.{AreFewPlays, IsPlayFor, Play, lines_played, lines_played_of, schedule_told};
ghost use Rattle.told_laws.specs.told.Told.{entries_told};
ghost use Rattle.told_laws.specs.told.NodesTold.{nodes_told};

/// All that is told of a history of a bare world that follows the lines of plays, of which at most 20,000 are lines that are said and
/// 400,000,000 are rounds, is in its range: messages and frames are bytes, and the numbers of sessions, the counts and what a refusal names
/// are below 2^32.
pub fn what_is_told_is_in_its_range()
    ensures { (header : Header) (plays : List Play) (t : History) → IsHeader header → AllByRecursion (IsPlayFor header) plays → AreFewPlays plays
        → Follows header (lines_played header plays) t → All IsEntry (entries_told t) }
{}

/// So is all that is told of a history of nodes that follows the lines of such plays: with what a node handles, holds, asks, drops and
/// commits, what a boot finds and what ANY_OK counts, and the tables that lines tell.
pub fn what_is_told_of_nodes_is_in_its_range()
    ensures { (header : Header) (plays : List Play) (t : NodeHistory) → IsNodeHeader header → AllByRecursion (IsPlayFor header) plays →
        AreFewPlays plays → FollowsNodes header (lines_played header plays) t → All IsEntry (nodes_told t) }
{}

/// All that is told of a schedule is in its range, also where its lines let the links settle: of a header that a schedule may begin with, and
/// of at most 20,000 lines that may follow it, none of which damages a frame so that another one is read.
pub fn what_is_told_of_schedules_is_in_its_range()
    ensures { (header : Header) (lines : List Line) → MayBegin header → AllByRecursion (MayFollow header) lines → length lines ≤ 20000 →
        ((front back : List Line) (said : Line) → lines ≡ front ++ said ∷ back → misread_below header (lines_played_of header front) said ≡ None) →
        All IsEntry (schedule_told header lines) }
{}
