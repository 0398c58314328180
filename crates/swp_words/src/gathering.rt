//! Text is gathered, and written before there is no more room for it.
ghost use Rattle.std.specs.Prelude.{◌≡◌, ◌≤◌, ◌+◌, ◌++◌, [], List, ℕ, length, IsTrue, OnOk, OnErr};
ghost use Rattle.swp_base.specs.Outside.{Rose};
ghost use Rattle.swp_decode.specs.Texts.{hex_of};
ghost use Rattle.swp_words.specs.Records.{IsGathered, IsFront};

use crate::output::write_all;
use swp_base::{Failed, Sink};
use swp_decode::{Text, push_hex, push_text};

/// The most text that is gathered before a step: behind it there is room for 2,048 bytes.
const MOST_GATHERED: usize = 6144;

/// Bytes whose hexadecimal digits are gathered at once.
const AT_ONCE: usize = 1024;

/// Writes the text that is gathered. Where a call fails, a front of it was written.
pub fn flush<K: Sink>(sink: &mut K, text: &mut Text) -> Result<(), Failed>
    ensures count { K.faults sink.old ≤ K.faults sink.new }
    ensures fault { OnErr result (Rose (K.faults sink.old) (K.faults sink.new)) }
    ensures room { OnOk result (text.new.items ≡ []) }
    ensures goes { OnOk result ((least : ℕ) (lines before : List ℕ) → IsGathered K.tells text.old.items least lines before (K.written sink.old)
        → IsGathered K.tells text.new.items (length lines) lines before (K.written sink.new)) }
    ensures wrote { OnOk result ((least : ℕ) (lines before : List ℕ) → IsGathered K.tells text.old.items least lines before (K.written sink.old)
        → IsTrue K.tells → K.written sink.new ≡ before ++ lines) }
    ensures ends { OnErr result ((least : ℕ) (lines before : List ℕ) → IsGathered K.tells text.old.items least lines before (K.written sink.old)
        → IsFront K.tells least lines before (K.written sink.new)) }
{
    write_all(sink, text.as_slice())?;
    text.clear();
    Ok(())
}

/// Writes the text that is gathered where it leaves room for fewer than 2,048 bytes.
pub fn make_room<K: Sink>(sink: &mut K, text: &mut Text) -> Result<(), Failed>
    ensures count { K.faults sink.old ≤ K.faults sink.new }
    ensures fault { OnErr result (Rose (K.faults sink.old) (K.faults sink.new)) }
    ensures room { OnOk result (length text.new.items + 2048 ≤ 8192) }
    ensures goes { OnOk result ((least : ℕ) (lines before : List ℕ) → IsGathered K.tells text.old.items least lines before (K.written sink.old)
        → IsGathered K.tells text.new.items least lines before (K.written sink.new)) }
    ensures ends { OnErr result ((least : ℕ) (lines before : List ℕ) → IsGathered K.tells text.old.items least lines before (K.written sink.old)
        → IsFront K.tells least lines before (K.written sink.new)) }
{
    if text.len() > MOST_GATHERED {
        flush(sink, text)?;
    }
    Ok(())
}

/// Gathers a few bytes.
pub fn gather<K: Sink>(sink: &mut K, text: &mut Text, bytes: &[u8]) -> Result<(), Failed>
    requires few { length bytes.now ≤ 2048 }
    ensures count { K.faults sink.old ≤ K.faults sink.new }
    ensures fault { OnErr result (Rose (K.faults sink.old) (K.faults sink.new)) }
    ensures goes { OnOk result ((least : ℕ) (lines before : List ℕ) → IsGathered K.tells text.old.items least lines before (K.written sink.old)
        → IsGathered K.tells text.new.items least (lines ++ bytes.now) before (K.written sink.new)) }
    ensures ends { OnErr result ((least : ℕ) (lines before : List ℕ) → IsGathered K.tells text.old.items least lines before (K.written sink.old)
        → IsFront K.tells least (lines ++ bytes.now) before (K.written sink.new)) }
{
    make_room(sink, text)?;
    push_text(text, bytes);
    Ok(())
}

/// Gathers bytes in hexadecimal, two digits each.
pub fn gather_hex<K: Sink>(sink: &mut K, text: &mut Text, bytes: &[u8]) -> Result<(), Failed>
    ensures count { K.faults sink.old ≤ K.faults sink.new }
    ensures fault { OnErr result (Rose (K.faults sink.old) (K.faults sink.new)) }
    ensures goes { OnOk result ((least : ℕ) (lines before : List ℕ) → IsGathered K.tells text.old.items least lines before (K.written sink.old)
        → IsGathered K.tells text.new.items least (lines ++ hex_of bytes.now) before (K.written sink.new)) }
    ensures ends { OnErr result ((least : ℕ) (lines before : List ℕ) → IsGathered K.tells text.old.items least lines before (K.written sink.old)
        → IsFront K.tells least (lines ++ hex_of bytes.now) before (K.written sink.new)) }
{
    let mut gathered = 0;
    'parts: while gathered < bytes.len() {
        let to = (gathered + AT_ONCE).min(bytes.len());
        make_room(sink, text)?;
        push_hex(text, &bytes[gathered..to]);
        gathered = to;
    }
    Ok(())
}
