//! The commands `tap bare` and `tap hci`: a record of a line in, a line of text for each message that an end got out.
ghost use Rattle.std.specs.Prelude.{◌≡◌, ◌≢◌, ◌≤◌, ◌<◌, ◌+◌, ◌++◌, [], ◌∷◌, List, ℕ, Bool, length, IsTrue, OnOk, OnErr, false};
ghost use Rattle.swp_base.specs.Outside.{Rose};
ghost use Rattle.swp_tap.specs.Hearing.{report_of};
ghost use Rattle.swp_words.specs.Records.{most_bytes, IsGathered, IsFront};
ghost use Rattle.swp_words.specs.Taps.{end_word, report_head, report_line, report_lines, tap_lines, HasHeard, HasHeardFew, IsTapping, TappedBy};
ghost use Rattle.swp_words.specs.Taps.{IsOfTap};

use crate::gathering::{flush, gather, gather_hex, make_room};
use crate::records::{RecordReader, read_record};
use crate::status::Status;
use std::alloc::Global;
use swp_base::{Failed, Lpdu, Sink, Source};
use swp_decode::{Decoder, Frames, Text, push_decimal, push_hex, push_text};
use swp_tap::{Tap, TapHead};

/// A tap under way: what is kept of the record and of both ends, and the lines that aren't written yet.
#[derive(Drop)]
struct Tapping {
    decoder: Decoder,
    /// Room for the frames of a step; it is kept, since new room is filled before it is used.
    frames: Frames,
    tap: Tap,
    text: Text,
}

/// A tap on a link that is bare or not.
#[derive(Drop)]
struct TapOn<const BARE: bool> {
    tapping: Tapping,
}

/// Gathers what stands before the bytes of a message that an end got.
fn gather_head<K: Sink>(sink: &mut K, text: &mut Text, head: TapHead) -> Result<(), Failed>
    ensures count { K.faults sink.old ≤ K.faults sink.new }
    ensures fault { OnErr result (Rose (K.faults sink.old) (K.faults sink.new)) }
    ensures goes { OnOk result ((least : ℕ) (lines before : List ℕ) → IsGathered K.tells text.old.items least lines before (K.written sink.old)
        → IsGathered K.tells text.new.items least (lines ++ report_head head) before (K.written sink.new)) }
    ensures ends { OnErr result ((least : ℕ) (lines before : List ℕ) → IsGathered K.tells text.old.items least lines before (K.written sink.old)
        → IsFront K.tells least lines before (K.written sink.new)) }
{
    make_room(sink, text)?;
    push_text(text, b"got ");
    push_end(text, head.to_clf);
    push_decimal(text, head.session);
    push_text(text, b" ");
    push_hex(text, &[head.pipe]);
    push_text(text, b" ");
    Ok(())
}

fn push_end(text: &mut Text, is_clf: bool)
    requires { length text.old.items + 2 ≤ 8192 }
    ensures items { text.new.items ≡ text.old.items ++ end_word is_clf }
    ensures sized { length text.new.items ≡ length text.old.items + 2 }
{
    if is_clf {
        push_text(text, b"c ");
    } else {
        push_text(text, b"h ");
    }
}

/// Gathers the line of a message that an end got, with this head and these bytes.
fn gather_report<K: Sink>(
    sink: &mut K,
    text: &mut Text,
    head: TapHead,
    body: &[u8],
) -> Result<(), Failed>
    ensures count { K.faults sink.old ≤ K.faults sink.new }
    ensures fault { OnErr result (Rose (K.faults sink.old) (K.faults sink.new)) }
    ensures goes { OnOk result ((least : ℕ) (lines before : List ℕ) → IsGathered K.tells text.old.items least lines before (K.written sink.old)
        → IsGathered K.tells text.new.items least (lines ++ report_line (report_of head body.now)) before (K.written sink.new)) }
    ensures ends { OnErr result ((least : ℕ) (lines before : List ℕ) → IsGathered K.tells text.old.items least lines before (K.written sink.old)
        → IsFront K.tells least (lines ++ report_line (report_of head body.now)) before (K.written sink.new)) }
{
    gather_head(sink, text, head)?;
    gather_hex(sink, text, body)?;
    gather(sink, text, b"\n")
}

/// Hears a frame, and gathers the line of the message that it tells, if any.
fn hear_frame<K: Sink>(
    sink: &mut K,
    tap: &mut Tap,
    text: &mut Text,
    from_clf: bool,
    lpdu: &Lpdu,
) -> Result<(), Failed>
    requires { tap.old.taken < 4294967295 }
    ensures count { K.faults sink.old ≤ K.faults sink.new }
    ensures fault { OnErr result (Rose (K.faults sink.old) (K.faults sink.new)) }
    ensures taken { tap.new.taken ≡ tap.old.taken + 1 }
    ensures goes { OnOk result ((bare : Bool) (least : ℕ) (frames : List (Bool × List ℕ)) (before : List ℕ)
        → HasHeard bare K.tells tap.old text.old.items least frames before (K.written sink.old)
        → HasHeard bare K.tells tap.new text.new.items least (frames ++ (from_clf, lpdu.now) ∷ []) before (K.written sink.new)) }
    ensures ends { OnErr result ((bare : Bool) (least : ℕ) (frames : List (Bool × List ℕ)) (before : List ℕ)
        → HasHeard bare K.tells tap.old text.old.items least frames before (K.written sink.old)
        → IsFront K.tells least (report_lines bare (frames ++ (from_clf, lpdu.now) ∷ [])) before (K.written sink.new)) }
{
    match tap.tell(from_clf, lpdu) {
        None => Ok(()),
        Some(head) => gather_report(sink, text, head, tap.body()),
    }
}

/// Hears frames one after another.
#[inline(always)]
fn hear_frames<K: Sink>(
    sink: &mut K,
    tap: &mut Tap,
    text: &mut Text,
    frames: &Frames,
) -> Result<(), Failed>
    requires { tap.old.taken + length frames.now.items < 4294967295 }
    ensures count { K.faults sink.old ≤ K.faults sink.new }
    ensures fault { OnErr result (Rose (K.faults sink.old) (K.faults sink.new)) }
    ensures taken { OnOk result (tap.new.taken ≡ tap.old.taken + length frames.now.items) }
    ensures goes { OnOk result ((bare : Bool) (least : ℕ) (heard : List (Bool × List ℕ)) (before : List ℕ)
        → HasHeard bare K.tells tap.old text.old.items least heard before (K.written sink.old)
        → HasHeard bare K.tells tap.new text.new.items least (heard ++ frames.now.items) before (K.written sink.new)) }
    ensures ends { OnErr result ((bare : Bool) (least : ℕ) (heard : List (Bool × List ℕ)) (before : List ℕ)
        → HasHeard bare K.tells tap.old text.old.items least heard before (K.written sink.old)
        → IsFront K.tells least (report_lines bare (heard ++ frames.now.items)) before (K.written sink.new)) }
{
    for frame in frames.as_slice() {
        hear_frame(sink, tap, text, frame.0, &frame.1)?;
    }
    Ok(())
}

impl<const BARE: bool> RecordReader for TapOn<BARE> {
    ghost use Rattle.swp_words.specs.Taps.{tap_lines, IsTapping, HasHeardFew};

    ghost count = { λ t. t.tapping.decoder.count };

    ghost is_sound = { λ t. HasHeardFew t.tapping };

    ghost lines = { tap_lines BARE };

    ghost is_reading = { λ tells t earlier bytes before after. IsTapping BARE tells t.tapping earlier bytes before after };

    fn bytes_read(&self) -> u32 {
        self.tapping.decoder.count
    }

    fn take_first<K: Sink>(&mut self, sink: &mut K, bytes: &[u8; 64]) -> Result<usize, Failed> {
        let tapping = &mut self.tapping;
        tapping.frames.clear();
        let read = tapping.decoder.hear_many(bytes, &mut tapping.frames);
        hear_frames(sink, &mut tapping.tap, &mut tapping.text, &tapping.frames)?;
        Ok(read)
    }

    fn take_byte<K: Sink>(&mut self, sink: &mut K, byte: u8) -> Result<(), Failed> {
        let tapping = &mut self.tapping;
        tapping.frames.clear();
        tapping.decoder.hear(byte, &mut tapping.frames);
        hear_frames(sink, &mut tapping.tap, &mut tapping.text, &tapping.frames)
    }

    fn write_out<K: Sink>(&mut self, sink: &mut K) -> Result<(), Failed> {
        flush(sink, &mut self.tapping.text)
    }

    fn finish<K: Sink>(&mut self, sink: &mut K) -> Result<(), Failed> {
        make_room(sink, &mut self.tapping.text)?;
        self.tapping.decoder.finish(&mut self.tapping.text);
        flush(sink, &mut self.tapping.text)
    }
}

/// Tells the messages that the ends of a link got, by the record of it that the source has left: whether the link is bare is known
/// beforehand. Memory is taken before the first byte is read, and none afterwards.
pub fn tap<S: Source, K: Sink, const BARE: bool>(
    alloc: Global,
    source: &mut S,
    sink: &mut K,
) -> Status
    ensures read_fault { result ≡ Status.ReadFault → Rose (S.faults source.old) (S.faults source.new) }
    ensures write_fault { result ≡ Status.WriteFault → Rose (K.faults sink.old) (K.faults sink.new) }
    ensures tapped { IsTrue S.tells →
        TappedBy BARE K.tells (S.end source.new).given result (S.left source.old) (S.left source.new) (K.written sink.old) (K.written sink.new) }
    ensures ahead { IsTrue S.tells → length (S.left source.old) ≤ most_bytes + 4096 + length (S.left source.new) }
    ensures late { (S.end source.old).ended ≡ false → (S.end source.new).late ≡ (S.end source.old).late }
    ensures words { result ≢ Status.BadWords }
    ensures kind { IsOfTap result }
{
    match Tap::new(alloc, BARE) {
        Err(_) => Status::NoMemory,
        Ok(tap) => {
            let tapping = Tapping {
                decoder: Decoder::new(),
                frames: Frames::new(),
                tap,
                text: Text::new(),
            };
            read_record(alloc, source, sink, TapOn::<BARE> { tapping })
        }
    }
}
