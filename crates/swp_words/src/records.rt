//! Commands that read a line record.
ghost use Rattle.std.specs.Prelude.{◌≡◌, ◌≢◌, ◌≤◌, ◌<◌, ◌+◌, ◌++◌, [], ◌∷◌, List, ℕ, Bool, length, take, IsTrue, OnOk, OnErr, IfOk, IfErr, Ok, Err, false};
ghost use Rattle.swp_base.specs.Outside.{Rose};
ghost use Rattle.swp_words.specs.Records.{most_bytes, piece_of, whole_record, IsFront, IsFrontOfSome, EndedIn, RecordedBy, IsOfRecord};

use crate::driver::{Job, drive};
use crate::status::Status;
use std::alloc::Global;
use swp_base::{Failed, Sink, Source};
use swp_decode::Decoder;

/// The most bytes that are read at once: few enough for the processor's first cache.
const PIECE: usize = 8192;

/// The most bytes that are read at once where the end of the longest record is near.
const LAST_PIECE: usize = 4096;

/// What is made of a line record: lines of text, those of a front of the record a front of its lines. What is gathered of them is
/// written before there is no more room for it.
pub trait RecordReader {
    // how many bytes were read
    ghost count: { Self → ℕ };

    // what is kept can go on
    ghost is_sound: { Self → Type 0 };

    // the lines of the bytes of a record
    ghost lines: { List ℕ → List ℕ };

    // It has read these bytes: what was written and what is gathered are their lines. All lines of the earlier bytes, which come
    // before them, were written. Whether the sink tells what was written comes first, what it held before and holds now last.
    ghost is_reading: { Bool → Self → List ℕ → List ℕ → List ℕ → List ℕ → Type 0 };

    /// How many bytes were read.
    fn bytes_read(&self) -> u32
        ensures value { result ≡ count self.now }
        ensures counted { (tells : Bool) (earlier read before after : List ℕ) → is_reading tells self.now earlier read before after → result ≡ length read };

    /// Reads the first of some bytes of the record, at least one. It answers how many were read.
    fn take_first<K: Sink>(&mut self, sink: &mut K, bytes: &[u8; 64]) -> Result<usize, Failed>
        requires few { count self.old + 64 ≤ 16777216 }
        requires sound { is_sound self.old }
        ensures count { K.faults sink.old ≤ K.faults sink.new }
        ensures fault { OnErr result (Rose (K.faults sink.old) (K.faults sink.new)) }
        ensures some { IfOk result (λ n. 0 < n) }
        ensures within { IfOk result (λ n. n ≤ 64) }
        ensures sound { OnOk result (is_sound self.new) }
        ensures read { IfOk result (λ n. count self.new ≡ count self.old + n) }
        ensures goes { IfOk result (λ n. (earlier read before : List ℕ) → is_reading K.tells self.old earlier read before (K.written sink.old)
            → is_reading K.tells self.new earlier (read ++ take n bytes.now) before (K.written sink.new)) }
        ensures ends { OnErr result ((earlier read rest before : List ℕ) → is_reading K.tells self.old earlier read before (K.written sink.old)
            → IsFrontOfSome lines K.tells earlier (read ++ bytes.now ++ rest) before (K.written sink.new)) };

    /// Reads a byte of the record.
    fn take_byte<K: Sink>(&mut self, sink: &mut K, byte: u8) -> Result<(), Failed>
        requires few { count self.old < 16777216 }
        requires sound { is_sound self.old }
        ensures count { K.faults sink.old ≤ K.faults sink.new }
        ensures fault { OnErr result (Rose (K.faults sink.old) (K.faults sink.new)) }
        ensures sound { OnOk result (is_sound self.new) }
        ensures read { OnOk result (count self.new ≡ count self.old + 1) }
        ensures goes { OnOk result ((earlier read before : List ℕ) → is_reading K.tells self.old earlier read before (K.written sink.old)
            → is_reading K.tells self.new earlier (read ++ byte ∷ []) before (K.written sink.new)) }
        ensures ends { OnErr result ((earlier read rest before : List ℕ) → is_reading K.tells self.old earlier read before (K.written sink.old)
            → IsFrontOfSome lines K.tells earlier (read ++ byte ∷ rest) before (K.written sink.new)) };

    /// Writes the lines that are gathered.
    fn write_out<K: Sink>(&mut self, sink: &mut K) -> Result<(), Failed>
        ensures count { K.faults sink.old ≤ K.faults sink.new }
        ensures fault { OnErr result (Rose (K.faults sink.old) (K.faults sink.new)) }
        ensures sound { is_sound self.old → is_sound self.new }
        ensures read { count self.new ≡ count self.old }
        ensures goes { OnOk result ((earlier read before : List ℕ) → is_reading K.tells self.old earlier read before (K.written sink.old)
            → is_reading K.tells self.new read read before (K.written sink.new)) }
        ensures wrote { OnOk result ((earlier read before : List ℕ) → is_reading K.tells self.old earlier read before (K.written sink.old)
            → IsTrue K.tells → K.written sink.new ≡ before ++ lines read) }
        ensures ends { OnErr result ((earlier read before : List ℕ) → is_reading K.tells self.old earlier read before (K.written sink.old)
            → IsFront K.tells (length (lines earlier)) (lines read) before (K.written sink.new)) };

    /// The record has ended: writes the lines that are gathered, and the last one.
    fn finish<K: Sink>(&mut self, sink: &mut K) -> Result<(), Failed>
        ensures count { K.faults sink.old ≤ K.faults sink.new }
        ensures fault { OnErr result (Rose (K.faults sink.old) (K.faults sink.new)) }
        ensures wrote { OnOk result ((earlier read before : List ℕ) → is_reading K.tells self.old earlier read before (K.written sink.old)
            → IsTrue K.tells → K.written sink.new ≡ before ++ whole_record lines read) }
        ensures ends { OnErr result ((earlier read before : List ℕ) → is_reading K.tells self.old earlier read before (K.written sink.old)
            → IsFront K.tells (length (lines earlier)) (whole_record lines read) before (K.written sink.new)) };
}

/// Reads the bytes of a piece of the record up to sixty-four at a time, as far as so many are left of it and the record may have so
/// many more. It answers how many were read.
fn take_many<K: Sink, R: RecordReader>(
    sink: &mut K,
    reader: &mut R,
    piece: &[u8],
) -> Result<usize, Failed>
    requires few { R.count reader.old ≤ 16777216 }
    requires sound { R.is_sound reader.old }
    ensures count { K.faults sink.old ≤ K.faults sink.new }
    ensures fault { OnErr result (Rose (K.faults sink.old) (K.faults sink.new)) }
    ensures within { IfOk result (λ n. n ≤ length piece.now) }
    ensures few { OnOk result (R.count reader.new ≤ 16777216) }
    ensures sound { OnOk result (R.is_sound reader.new) }
    ensures progress { IfOk result (λ n. R.count reader.new ≡ R.count reader.old + n) }
    ensures goes { IfOk result (λ n. (earlier bytes before : List ℕ) → R.is_reading K.tells reader.old earlier bytes before (K.written sink.old)
        → R.is_reading K.tells reader.new earlier (bytes ++ take n piece.now) before (K.written sink.new)) }
    ensures ends { OnErr result ((earlier bytes rest before : List ℕ) → R.is_reading K.tells reader.old earlier bytes before (K.written sink.old)
        → IsFrontOfSome R.lines K.tells earlier (bytes ++ piece.now ++ rest) before (K.written sink.new)) }
{
    let mut read = 0;
    'piece: while let Some((first, _)) = piece[read..].split_first_chunk::<64>() {
        if reader.bytes_read() > Decoder::MAX_BYTES - 64 {
            break;
        }
        let further = reader.take_first(sink, first)?;
        read += further;
    }
    Ok(read)
}

/// Reads the bytes of a piece of the record one after another, as far as the record may have so many.
fn take_each<K: Sink, R: RecordReader>(
    sink: &mut K,
    reader: &mut R,
    piece: &[u8],
) -> Result<(), Status>
    requires few { R.count reader.old ≤ 16777216 }
    requires sound { R.is_sound reader.old }
    ensures count { K.faults sink.old ≤ K.faults sink.new }
    ensures write_fault { result ≡ Err Status.WriteFault → Rose (K.faults sink.old) (K.faults sink.new) }
    ensures read_fault { result ≢ Err Status.ReadFault }
    ensures words { result ≢ Err Status.BadWords }
    ensures kind { IfErr result IsOfRecord }
    ensures few { OnOk result (R.count reader.new ≤ 16777216) }
    ensures sound { OnOk result (R.is_sound reader.new) }
    ensures progress { OnOk result (R.count reader.new ≡ R.count reader.old + length piece.now) }
    ensures goes { OnOk result ((earlier bytes before : List ℕ) → R.is_reading K.tells reader.old earlier bytes before (K.written sink.old)
        → R.is_reading K.tells reader.new earlier (bytes ++ piece.now) before (K.written sink.new)) }
    ensures ends { IfErr result (λ status. (earlier bytes rest before : List ℕ)
        → R.is_reading K.tells reader.old earlier bytes before (K.written sink.old)
        → EndedIn R.lines K.tells status earlier (bytes ++ piece.now ++ rest) before (K.written sink.new)) }
{
    for byte in piece {
        if reader.bytes_read() == Decoder::MAX_BYTES {
            return match reader.write_out(sink) {
                Ok(()) => Err(Status::TooMany { count: 16_777_217 }),
                Err(Failed) => Err(Status::WriteFault),
            };
        }
        match reader.take_byte(sink, *byte) {
            Ok(()) => {}
            Err(Failed) => return Err(Status::WriteFault),
        }
    }
    Ok(())
}

/// How many bytes are read at once behind so many of the record: at most 4,096 behind the last byte that a record may have.
pub fn piece_behind(count: u32) -> usize
    ensures { result ≡ piece_of count }
{
    if count as usize + PIECE > Decoder::MAX_BYTES as usize {
        LAST_PIECE
    } else {
        PIECE
    }
}

/// A record that is read.
#[derive(Drop)]
struct Recording<R: RecordReader + Drop> {
    reader: R,
}

impl<R: RecordReader + Drop> Job for Recording<R> {
    ghost use Rattle.std.specs.Prelude.{◌+◌, ◌-◌, ◌≤◌, length};
    ghost use Rattle.swp_words.specs.Records.{most_bytes, piece_of, HasRecorded, RecordedBy, MayReadOn, IsOfRecord};

    ghost goes_on = { λ r. MayReadOn (R.count r.reader) (R.is_sound r.reader) };

    ghost bound = { λ r. most_bytes - R.count r.reader };

    ghost piece_size = { λ r. piece_of (R.count r.reader) };

    ghost Origin = { Unit {0} };

    ghost under_way = { λ tells o r input left before after.
        HasRecorded tells R.lines (λ bytes. R.is_reading tells r.reader bytes bytes before after) (R.count r.reader) input left before after };

    ghost ended = { λ tells given o r. RecordedBy R.lines tells given };

    ghost memory_faults = { λ r. 0 };

    ghost is_ending = { IsOfRecord };

    ghost is_ahead = { λ input left. length input ≤ most_bytes + 4096 + length left };

    fn piece(&self) -> usize {
        piece_behind(self.reader.bytes_read())
    }

    fn take<K: Sink>(&mut self, _: Global, sink: &mut K, piece: &[u8]) -> Result<(), Status> {
        let read = match take_many(sink, &mut self.reader, piece) {
            Ok(read) => read,
            Err(Failed) => return Err(Status::WriteFault),
        };
        if let Err(status) = take_each(sink, &mut self.reader, &piece[read..]) {
            return Err(status);
        }
        match self.reader.write_out(sink) {
            Ok(()) => Ok(()),
            Err(Failed) => Err(Status::WriteFault),
        }
    }

    fn close<K: Sink>(&mut self, _: Global, sink: &mut K) -> Status {
        match self.reader.finish(sink) {
            Ok(()) => Status::Done,
            Err(Failed) => Status::WriteFault,
        }
    }

    fn cut_off(&self) -> Status {
        Status::ReadFault
    }
}

/// Reads the record that the source has left. No memory is taken.
pub fn read_record<S: Source, K: Sink, R: RecordReader + Drop>(
    alloc: Global,
    source: &mut S,
    sink: &mut K,
    reader: R,
) -> Status
    requires few { R.count reader ≡ 0 }
    requires sound { R.is_sound reader }
    requires none { (tells : Bool) (before : List ℕ) → R.is_reading tells reader [] [] before before }
    requires no_lines { R.lines [] ≡ [] }
    ensures read_fault { result ≡ Status.ReadFault → Rose (S.faults source.old) (S.faults source.new) }
    ensures write_fault { result ≡ Status.WriteFault → Rose (K.faults sink.old) (K.faults sink.new) }
    ensures recorded { IsTrue S.tells →
        RecordedBy R.lines K.tells (S.end source.new).given result (S.left source.old) (S.left source.new) (K.written sink.old) (K.written sink.new) }
    ensures ahead { IsTrue S.tells → length (S.left source.old) ≤ most_bytes + 4096 + length (S.left source.new) }
    ensures late { (S.end source.old).ended ≡ false → (S.end source.new).late ≡ (S.end source.old).late }
    ensures words { result ≢ Status.BadWords }
    ensures kind { IsOfRecord result }
{
    let mut recording = Recording { reader };
    drive(alloc, source, sink, &mut recording)
}
