//! Laws of the texts of a run.

ghost use Rattle.std.specs.Prelude.{◌≡◌, ◌↔◌, ℕ, List, All, Option, Some, Ok, Err, IsTrue, Contains};
ghost use Rattle.std.specs.List.{flat_map};
ghost use Rattle.trace_model.specs.declared.entry.Entry.{Entry};
ghost use Rattle.trace_model.specs.declared.line.Header.{Header};
ghost use Rattle.trace_model.specs.declared.line.Line.{Line};
ghost use Rattle.trace_model.specs.Lines.{MayBegin};
ghost use Rattle.schedule_text.specs.declared.fault.LineFault.{LineFault};
ghost use Rattle.schedule_text.specs.Entries.{entry_line};
ghost use Rattle.schedule_text.specs.Forms.{FormRow, row_for};
ghost use Rattle.schedule_text.specs.Rules.{words_fault};
ghost use Rattle.schedule_text.specs.Lines.{may_stand, has_nodes, hosts_of, by_row, line_of};
ghost use Rattle.schedule_text.specs.declared.fault.LineFault.TheVariants as fault;
ghost use Rattle.schedule_text.specs.declared.read.Read.TheVariants as read;
ghost use Rattle.told_laws.specs.texts.Ranges.{IsLineSaid, IsEntry};

/// A text is the transcript of one list of entries alone: transcripts that differ in an entry differ in their text.
pub fn a_text_has_one_transcript()
    ensures { (first second : List Entry) → All IsEntry first → All IsEntry second
        → flat_map entry_line first ≡ flat_map entry_line second → first ≡ second }
{}

/// Where the form of a line may stand, the line has a fault exactly where its words have it: their number and shapes, then
/// their digits and ranges, then their hosts. So nothing is refused that has a meaning.
pub fn a_line_has_the_fault_of_its_words()
    ensures { (header : Option Header) (first : List ℕ) (row : FormRow) (ws : List (List ℕ)) (f : LineFault) → row_for first ws ≡ Some row
        → IsTrue (may_stand row.place header)
        → (by_row header (row_for first ws) ws ≡ Err f) ↔ (words_fault (has_nodes header) (hosts_of header) row ws ≡ Some f) }
{}

/// A host that a line below the header is refused for isn't in the header.
pub fn a_refused_host_is_unknown()
    ensures { (header : Header) (bytes : List ℕ) (id : ℕ) → line_of (Some header) bytes ≡ Err (fault.Host id) → ¬ Contains header.hosts.items id }
{}

/// What is read of a line below a header is in its range.
pub fn a_read_line_is_in_its_range()
    ensures { (header : Header) (bytes : List ℕ) (said : Line) → MayBegin header → line_of (Some header) bytes ≡ Ok (read.Line said) → IsLineSaid said }
{}
