ghost use Rattle.std.specs.Prelude.{◌≡◌, ◌++◌, ◌∷◌, [], ℕ, List, Bool, true, false};
ghost use Rattle.trace_model.specs.Notes.{IsNote, with_body};
ghost use Rattle.trace_model.specs.declared.entry.Entry.{Entry};

use crate::Entry;

/// What keeps the entries of a run while there is memory for them. Who notes an entry with a message hands the message's
/// bytes beside the entry, and so takes no memory.
pub trait Watch {
    // the entries that were noted
    ghost noted: { Self → List Entry };

    // there was no memory for an entry
    ghost is_short: { Self → Bool };

    /// Notes an entry, behind the others, with these bytes as its message where its form has one. The entry's own message
    /// is empty, and there are no bytes where its form has none. Once there was no memory for an entry, none is noted
    /// any more.
    fn note(&mut self, entry: &Entry, body: &[u8])
        requires { IsNote entry.now body.now }
        ensures noted { is_short self.new ≡ false → noted self.new ≡ noted self.old ++ with_body body.now entry.now ∷ [] }
        ensures kept { is_short self.new ≡ true → noted self.new ≡ noted self.old }
        ensures stays { is_short self.old ≡ true → is_short self.new ≡ true };

    /// Whether there was no memory for an entry.
    fn short(&self) -> bool
        ensures { result ≡ is_short self.now };
}
