//! The top call.
ghost use Rattle.std.specs.Prelude.{◌≡◌, ◌∷◌, ◌↔◌, [], ℕ, Bool, map, string_bytes, codes, IsTrue, IfSome, IfNone, false};
ghost use Rattle.swp_base.specs.Outside.{Rose};
ghost use Rattle.swp_words.specs.Ends.{EndForm, IsEndCommand, AskForAnEnd, form_named};
ghost use Rattle.swp_tool.specs.Generated.{IsGen};
ghost use Rattle.swp_tool.specs.Runs.{IsReplay, IsDecode, IsTap, IsTables, AskForSomething};
ghost use Rattle.swp_tool.specs.Words.{run_source, run_sink, run_memory, IsReplayRun, IsDecodeRun, IsTapRun, IsTablesRun, IsGenRun, IsEndRun};

use crate::generating::generate;
use crate::number::number_given;
use crate::replaying::replay;
use std::alloc::Global;
use swp_base::{Nv, Sink, Source};
use swp_words::Form;
use swp_words::decoding::decode;
use swp_words::lone::{EndAsked, run_end};
use swp_words::status::{Ended, Status};
use swp_words::tables::tables;
use swp_words::tapping::tap;

/// Runs the program: the words are those behind its name. Of its commands all are built. `replay` reads a schedule to its end,
/// to its first fault, or to a line that damages a frame so that another one is read, and writes its transcript. `decode` reads
/// the record of a line and writes a line of text for each frame or fault in it. `tap bare` and `tap hci` read such a record of a
/// link, which is bare or not, and write a line of text for each message that one of its ends got. `tables` writes what the
/// memory keeps, and reads nothing else. `end` runs one node over the memory, the controller or host 02, at its end of a link whose
/// other end is live: it takes what comes on the link, the record of a line or a byte link, and writes what goes out. `gen N` reads
/// nothing, runs the schedule that is drawn from the number N, and writes a line with the counts of what was noted. The memory is
/// handed back; but for `end` its content is as it was.
pub fn run<S: Source, K: Sink, N: Nv + Drop>(
    alloc: Global,
    words: &[String],
    source: &mut S,
    sink: &mut K,
    nv: N,
) -> Ended<N>
    requires { N.capacity nv ≡ 65536 }

    // Each word has a record of its facts (`specs/Words.antt`), most of them for objects that tell what they hold.
    ensures replay { IsReplay (map string_bytes words.now) → IsReplayRun
        (run_source S.tells S.left S.end S.faults source.old source.new) (run_sink K.tells K.written K.faults sink.old sink.new) result.status }
    ensures decode { IsDecode (map string_bytes words.now) → IsDecodeRun
        (run_source S.tells S.left S.end S.faults source.old source.new) (run_sink K.tells K.written K.faults sink.old sink.new) result.status }
    ensures tap { (bare : Bool) → IsTap bare (map string_bytes words.now) → IsTapRun bare
        (run_source S.tells S.left S.end S.faults source.old source.new) (run_sink K.tells K.written K.faults sink.old sink.new) result.status }
    ensures tables { IsTables (map string_bytes words.now) → IsTablesRun
        (run_source S.tells S.left S.end S.faults source.old source.new) (run_sink K.tells K.written K.faults sink.old sink.new)
        (run_memory N.tells N.content N.faults N.reads N.writes nv result.nv) result.status }
    ensures generate { (n : ℕ) → IsGen n (map string_bytes words.now) → IsGenRun n
        (run_source S.tells S.left S.end S.faults source.old source.new) (run_sink K.tells K.written K.faults sink.old sink.new) result.status }
    ensures end { (is_clf : Bool) (form : EndForm) → IsEndCommand is_clf form (map string_bytes words.now) → IsEndRun is_clf form
        (run_source S.tells S.left S.end S.faults source.old source.new) (run_sink K.tells K.written K.faults sink.old sink.new)
        (run_memory N.tells N.content N.faults N.reads N.writes nv result.nv) result.status }

    // Other words are refused exactly, and then nothing is read or written.
    ensures bad_words { (result.status ≡ Status.BadWords) ↔ ¬ AskForSomething (map string_bytes words.now) }
    ensures untouched { result.status ≡ Status.BadWords → (source.new ≡ source.old) × (sink.new ≡ sink.old) }

    // A fault of the outside comes only where its count rose. Nothing is read once the source has said that it ended, or a read has failed.
    ensures read_fault { result.status ≡ Status.ReadFault → Rose (S.faults source.old) (S.faults source.new) }
    ensures write_fault { result.status ≡ Status.WriteFault → Rose (K.faults sink.old) (K.faults sink.new) }
    ensures nv_fault { result.status ≡ Status.NvFault → Rose (N.faults nv) (N.faults result.nv) }
    ensures late { (S.end source.old).ended ≡ false → (S.end source.new).late ≡ (S.end source.old).late }

    // Only the tables and an end need the memory.
    ensures nv { ¬ IsTables (map string_bytes words.now) → ¬ AskForAnEnd (map string_bytes words.now) → result.nv ≡ nv }
{
    if let Some(asked) = end_asked(words) {
        return run_end(alloc, source, sink, nv, asked);
    }
    if is_word(words, b"tables") {
        return tables(alloc, sink, nv);
    }
    if let Some(n) = number_given(words) {
        let status = generate(alloc, n, sink);
        return Ended { status, nv };
    }
    let status = if is_word(words, b"replay") {
        replay(alloc, source, sink)
    } else if is_word(words, b"decode") {
        decode(alloc, source, sink)
    } else if are_words(words, b"tap", b"bare") {
        tap::<S, K, true>(alloc, source, sink)
    } else if are_words(words, b"tap", b"hci") {
        tap::<S, K, false>(alloc, source, sink)
    } else {
        Status::BadWords
    };
    Ended { status, nv }
}

/// Whether the words are this one.
fn is_word(words: &[String], word: &[u8]) -> bool
    ensures { IsTrue result ↔ (map string_bytes words.now ≡ word.now ∷ []) }
{
    match words {
        [given] => is_same(given.as_bytes(), word),
        _ => false,
    }
}

/// Whether the words are these two.
fn are_words(words: &[String], first: &[u8], second: &[u8]) -> bool
    ensures { IsTrue result ↔ (map string_bytes words.now ≡ first.now ∷ second.now ∷ []) }
{
    match words {
        [one, two] => is_same(one.as_bytes(), first) && is_same(two.as_bytes(), second),
        _ => false,
    }
}

/// Whether the words are these three.
fn are_three(words: &[String], first: &[u8], second: &[u8], third: &[u8]) -> bool
    ensures { IsTrue result ↔ (map string_bytes words.now ≡ first.now ∷ second.now ∷ third.now ∷ []) }
{
    match words {
        [one, two, three] => {
            is_same(one.as_bytes(), first)
                && is_same(two.as_bytes(), second)
                && is_same(three.as_bytes(), third)
        }
        _ => false,
    }
}

/// Which end the words ask for, and on what form of link; `None` where they ask for none.
fn end_asked(words: &[String]) -> Option<EndAsked>
    ensures found { IfSome result (λ asked. IsEndCommand asked.is_clf (form_named asked.form) (map string_bytes words.now)) }
    ensures missed { IfNone result (¬ AskForAnEnd (map string_bytes words.now)) }
{
    if are_three(words, b"end", b"clf", b"line") {
        Some(EndAsked {
            is_clf: true,
            form: Form::Line,
        })
    } else if are_three(words, b"end", b"clf", b"bytes") {
        Some(EndAsked {
            is_clf: true,
            form: Form::Bytes,
        })
    } else if are_three(words, b"end", b"uicc", b"line") {
        Some(EndAsked {
            is_clf: false,
            form: Form::Line,
        })
    } else if are_three(words, b"end", b"uicc", b"bytes") {
        Some(EndAsked {
            is_clf: false,
            form: Form::Bytes,
        })
    } else {
        None
    }
}

fn is_same(given: &[u8], word: &[u8]) -> bool
    ensures { IsTrue result ↔ (given.now ≡ word.now) }
{
    given == word
}
