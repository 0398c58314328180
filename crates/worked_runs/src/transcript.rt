//! The text of what a watch is told while a world settles.
use std::alloc::AllocError;
use trace_model::{End, Entry, Line, Watch};

/// Writes what it is told as the transcript has it.
#[derive(Drop)]
pub(crate) struct Transcript {
    pub(crate) text: String,
}

impl Transcript {
    /// An end, behind the word before it.
    fn write_end(&mut self, word: &str, at: End) -> Result<(), AllocError> {
        let side = if at.at_host { "h" } else { "c" };
        write!(self.text, "{word} {:02X}{side}", at.link)
    }

    /// The bytes of a frame, behind the end that put it on the wire or took it.
    fn write_frame(&mut self, word: &str, at: End, bytes: &[u8]) -> Result<(), AllocError> {
        self.write_end(word, at)?;
        write!(self.text, " ")?;
        for byte in bytes {
            write!(self.text, "{byte:02X}")?;
        }
        writeln!(self.text)
    }

    /// The line of an entry. Those that no example tells are a question mark.
    fn write_entry(&mut self, entry: &Entry) -> Result<(), AllocError> {
        match entry {
            Entry::Echo(Line::Settle { rounds }) => writeln!(self.text, "> settle {rounds}"),
            Entry::Emit { at, lpdu } => self.write_frame("emit", *at, lpdu.bytes()),
            Entry::Took { at, lpdu } => self.write_frame("took", *at, lpdu.bytes()),
            Entry::Acked { at, session, count } => {
                self.write_end("acked", *at)?;
                writeln!(self.text, " {session} {count}")
            }
            Entry::Settled { rounds } => writeln!(self.text, "settled {rounds}"),
            _other => writeln!(self.text, "?"),
        }
    }
}

impl Watch for Transcript {
    ghost use Rattle.std.specs.Prelude.{[], true};

    ghost noted = { λ _. [] };

    ghost is_short = { λ _. true };

    fn note(&mut self, entry: &Entry, _body: &[u8]) {
        let _written = self.write_entry(entry);
    }

    fn short(&self) -> bool {
        true
    }
}
