//! What is played of a schedule: how many plays there are, which lines they come to, and how many rounds a line that lets the links settle
//! comes to. There is no code here that runs.

ghost use Rattle.std.specs.Prelude.{◌≡◌, ◌*◌, ◌<◌, ◌≤◌, ◌++◌, ◌∷◌, [], ℕ, List, None, length, replicate, true, false};
ghost use Rattle.std.specs.List.{AllByRecursion};
ghost use Rattle.trace_model.specs.declared.line.Header.{Header};
ghost use Rattle.trace_model.specs.declared.line.Line.{Line};
ghost use Rattle.trace_model.specs.Lines.{MayBegin, MayFollow};
ghost use Rattle.lines_told.specs.lines.Below.{IsPlayedLine, is_settling, misread_below, nodes_behind};
ghost use Rattle.lines_told.specs.lines.Plays.{AreFewPlays, IsPlayFor, Play, lines_of_play, lines_played, lines_played_of, lines_said, plays_of};
ghost use Rattle.lines_told.specs.lines.Plays.{plays_of_line, rests_behind, round_behind, rounds_played, rounds_to_rest};
ghost use Rattle.lines_told.specs.lines.Plays.Play.{Round, Said};
ghost use Rattle.lines_told.specs.lines.RoundLines.{HostsStay, IsRoundLine};
ghost use Rattle.node_machine.specs.world.Rounds.{world_rounds_to_settle};

/// One play more comes to its lines behind those of the plays before it, and one line more to its plays. A schedule in which no line lets the
/// links settle comes to its own lines.
pub fn plays_come_to_lines_one_after_another()
    ensures play { (header : Header) (plays : List Play) (p : Play) →
        lines_played header (plays ++ p ∷ []) ≡ lines_played header plays ++ lines_of_play header (lines_played header plays) p }
    ensures line { (header : Header) (lines : List Line) (line : Line) →
        plays_of header (lines ++ line ∷ []) ≡ plays_of header lines ++ plays_of_line header (plays_of header lines) line }
    ensures alone { (header : Header) (lines : List Line) → AllByRecursion (λ (line : Line). is_settling line ≡ false) lines →
        lines_played_of header lines ≡ lines }
{}

/// Of lines that may follow a header, at most 20,000, as many are said at most, and 20,000 rounds are played for each at most; and these
/// plays are such that a world with this header may have them.
pub fn schedules_have_few_plays()
    ensures said { (header : Header) (lines : List Line) → lines_said (plays_of header lines) ≤ length lines }
    ensures rounds { (header : Header) (lines : List Line) → AllByRecursion (MayFollow header) lines →
        rounds_played (plays_of header lines) ≤ 20000 * length lines }
    ensures few { (header : Header) (lines : List Line) → AllByRecursion (MayFollow header) lines → length lines ≤ 20000 →
        AreFewPlays (plays_of header lines) }
    ensures each { (header : Header) (lines : List Line) → AllByRecursion (MayFollow header) lines →
        AllByRecursion (IsPlayFor header) (plays_of header lines) }
{}

/// Below a header that a schedule may begin with each line of a round says that an end of a link of the world takes all that stands on its
/// wire, or that time passes once: as long as a world of nodes keeps the hosts of its header, which it does. Such a line may be played and is
/// never misread. So all lines that plays come to may be played.
pub fn lines_of_plays_may_be_played()
    ensures rounds { (header : Header) → MayBegin header → HostsStay header → (before : List Line) →
        AllByRecursion (IsRoundLine header) (round_behind header before) }
    ensures played { (header : Header) (line : Line) → IsRoundLine header line → IsPlayedLine header line }
    ensures sure { (header : Header) (line : Line) → IsRoundLine header line → (before : List Line) → misread_below header before line ≡ None }
    ensures plays { (header : Header) → MayBegin header → HostsStay header → (plays : List Play) → AllByRecursion (IsPlayFor header) plays →
        AllByRecursion (IsPlayedLine header) (lines_played header plays) }
{}

/// A line that lets the links settle comes to as many rounds as it says at most. Where it comes to fewer all links are at rest behind them,
/// and behind no fewer rounds they are. In a world of nodes they are as many as the rounds in which the world settles.
pub fn links_settle_soonest()
    ensures most { (header : Header) (plays : List Play) (n : ℕ) → rounds_to_rest header plays n ≤ n }
    ensures rests { (header : Header) (plays : List Play) (n : ℕ) → rounds_to_rest header plays n < n →
        rests_behind header (plays ++ replicate (rounds_to_rest header plays n) Round) ≡ true }
    ensures moves { (header : Header) (plays : List Play) (n k : ℕ) → k < rounds_to_rest header plays n →
        rests_behind header (plays ++ replicate k Round) ≡ false }
    ensures nodes { (header : Header) → header.hci ≡ true → (plays : List Play) (n : ℕ) →
        rounds_to_rest header plays n ≡ world_rounds_to_settle n (nodes_behind header (lines_played header plays)) }
{}
