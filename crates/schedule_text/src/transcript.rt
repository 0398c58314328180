//! The text of a transcript that is gathered.
ghost use Rattle.std.specs.Prelude.{◌≡◌, ◌≤◌, ◌++◌, [], length, take, OnOk, OnErr};

use crate::text::Text;
use std::alloc::Global;
use std::marker::Model;
use swp_base::NoMemory;

/// Text of a transcript that grows at its end, until it is written. Contracts see its bytes.
#[derive(Drop)]
pub struct Transcript {
    pub(crate) text: Text,
}

impl Model for Transcript {
    ghost use Rattle.schedule_text.specs.Growth.{Gathered, all_text};

    ghost Value = { Gathered };

    ghost view = { λ transcript. record { items = all_text transcript.text } };
}

impl Transcript {
    /// No text. Takes no memory.
    pub fn new(alloc: Global) -> Transcript
        ensures { result.items ≡ [] }
    {
        Transcript {
            text: Text::new(alloc),
        }
    }

    /// How many bytes it has.
    pub fn len(&self) -> usize
        ensures { result ≡ length self.now.items }
    {
        self.text.bytes.len() + self.text.waiting.len()
    }

    /// Appends bytes. Where there is no memory for them, it stays as it was.
    pub fn append(&mut self, bytes: &[u8]) -> Result<(), NoMemory>
        ensures ok { OnOk result (self.new.items ≡ self.old.items ++ bytes.now) }
        ensures err { OnErr result (self.new.items ≡ self.old.items) }
    {
        self.text.begin();
        self.text.push(bytes);
        self.text.finish()
    }

    /// Takes back all bytes behind the first `len`.
    pub fn truncate(&mut self, len: usize)
        ensures { self.new.items ≡ take len self.old.items }
    {
        self.text.cut_to(len);
    }

    /// Takes back all bytes. Its memory is kept.
    pub fn clear(&mut self)
        ensures { self.new.items ≡ [] }
    {
        self.text.bytes.clear();
        self.text.waiting.clear();
    }

    /// Has all its bytes in one piece, if there is memory for that.
    pub fn join(&mut self)
        ensures { self.new.items ≡ self.old.items }
    {
        self.text.make_room();
    }

    /// Its bytes, in two pieces of which each may be empty.
    pub fn pieces(&self) -> (&[u8], &[u8])
        ensures { self.now.items ≡ result.0.now ++ result.1.now }
    {
        (self.text.bytes.as_slice(), self.text.waiting.as_slice())
    }
}
