//! Laws of schedules as bytes, below either header: which history a schedule has, and what the transcript of it tells. Nothing here runs.

ghost use Rattle.std.specs.Prelude.{◌≡◌, ◌++◌, ℕ, List, Some, None, false};
ghost use Rattle.std.specs.List.{AllByRecursion};
ghost use Rattle.trace_model.specs.declared.line.Header.{Header};
ghost use Rattle.trace_model.specs.declared.line.Line.{Line};
ghost use Rattle.schedule_text.specs.Entries.{entry_lines};
ghost use Rattle.lines_told.specs.lines.Below.{is_settling};
ghost use Rattle.lines_told.specs.lines.Plays.{lines_played_of, schedule_told};
ghost use Rattle.node_laws.specs.answers.Headline.{IsPlayed, PlayedHistory};
ghost use Rattle.swp_tool.specs.Schedules.{schedule_in};
ghost use Rattle.swp_tool.specs.Transcripts.{done_line, history_below, TellsPlayed};

/// What the lines of bytes below their header come to as they are played, up to where they stop being a schedule, has a history: what
/// becomes of each line in turn (`played`). No other history is played from it (`alone`). Lines of which none lets the links settle come to
/// themselves (`themselves`).
pub fn a_schedule_has_one_history()
    ensures played { (bytes : List ℕ) (header : Header) → (schedule_in bytes).header ≡ Some header →
        IsPlayed header (lines_played_of header (schedule_in bytes).lines) (history_below header (lines_played_of header (schedule_in bytes).lines)) }
    ensures alone { (header : Header) (lines : List Line) (t : PlayedHistory) → IsPlayed header lines t → t ≡ history_below header lines }
    ensures themselves { (header : Header) (lines : List Line) → AllByRecursion (λ (line : Line). is_settling line ≡ false) lines →
        lines_played_of header lines ≡ lines }
{}

/// Where bytes are a schedule to their end, its transcript, with the last line, tells what became of its lines: no other entries have this
/// text.
pub fn a_transcript_tells_its_history()
    ensures { (bytes : List ℕ) (header : Header) → (schedule_in bytes).header ≡ Some header → (schedule_in bytes).stop ≡ None →
        TellsPlayed (schedule_in bytes) (entry_lines (schedule_told header (schedule_in bytes).lines) ++ done_line (schedule_in bytes).count) }
{}
