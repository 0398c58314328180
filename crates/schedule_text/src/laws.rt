//! Laws of the texts, apart from the program that reads and writes them.
ghost use Rattle.std.specs.Prelude.{◌≡◌, ◌≤◌, length, Some, None, Ok};
ghost use Rattle.trace_model.specs.declared.line.Header.{Header};
ghost use Rattle.trace_model.specs.declared.line.Line.{Line};
ghost use Rattle.trace_model.specs.Lines.{MayBegin, MayFollow};
ghost use Rattle.schedule_text.specs.declared.read.Read.TheVariants as read;
ghost use Rattle.schedule_text.specs.Words.{spaced};
ghost use Rattle.schedule_text.specs.Entries.{header_words, line_text};
ghost use Rattle.schedule_text.specs.Lines.{line_of};

/// What is written of a header, or of a line that may stand below it, is read as that again. A line has to fit into the
/// 9,000 bytes that a line may have.
pub fn texts_are_read_again()
    ensures headers { (header : Header) → MayBegin header → line_of None (spaced (header_words header)) ≡ Ok (read.Header header) }
    ensures lines { (header : Header) (said : Line) → MayBegin header → MayFollow header said → length (line_text said) ≤ 9000
        → line_of (Some header) (line_text said) ≡ Ok (read.Line said) }
{}
