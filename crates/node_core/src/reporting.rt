//! Entries are noted.
ghost use Rattle.std.specs.Prelude.{◌≡◌, ◌++◌, ◌∷◌, [], true, false};
ghost use Rattle.trace_model.specs.Notes.{IsNote, with_body};

use trace_model::{Entry, Watch};

/// Notes an entry, whose message is empty, with these bytes as its message where its form has one.
#[inline(always)]
pub(crate) fn note<W: Watch>(watch: &mut W, entry: Entry, body: &[u8])
    requires { IsNote entry body.now }
    ensures noted { W.is_short watch.new ≡ false → W.noted watch.new ≡ W.noted watch.old ++ with_body body.now entry ∷ [] }
    ensures stays { W.is_short watch.old ≡ true → W.is_short watch.new ≡ true }
{
    watch.note(&entry, body);
}
