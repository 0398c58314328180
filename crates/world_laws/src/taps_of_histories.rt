//! The law of a passive tap over histories of a bare link. There is no code here that runs.

ghost use Rattle.std.specs.Prelude.{◌≡◌, ◌++◌, true, List};
ghost use Rattle.std.specs.List.{AllByRecursion};
ghost use Rattle.trace_model.specs.declared.line.Header.{Header};
ghost use Rattle.trace_model.specs.declared.line.Line.{Line};
ghost use Rattle.trace_model.specs.Lines.{IsLineOf};
ghost use Rattle.history.specs.Histories.{Event, History, all_events, entries_of};
ghost use Rattle.history.specs.Follows.{Follows, host_of};
ghost use Rattle.tap_reading.specs.Lpdus.{tapped_lpdus};
ghost use Rattle.world_laws.specs.histories.Tapping.{gots_on, lpdus_on};

/// In each history of a bare world that follows a schedule, what a new tap reports over the frames that both ends put on the link until
/// the end of an event are the messages that they got until then, with end, session, pipe and bytes, in order, and nothing else.
pub fn tap_reports_what_was_got()
    ensures { (header : Header) (lines : List Line) (t : History) → AllByRecursion (IsLineOf header) lines → Follows header lines t →
        (front back : List Event) → all_events t ≡ front ++ back →
        tapped_lpdus true (lpdus_on (host_of header) (t.opening ++ entries_of front)) ≡ gots_on (host_of header) (t.opening ++ entries_of front) }
{}
