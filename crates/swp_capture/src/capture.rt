//! A capture as a record.
ghost use Rattle.std.specs.Prelude.{◌≡◌, ◌≢◌, ◌≤◌, ◌<◌, ◌^◌, ◌⊎◌, IfSome, Err};
ghost use Rattle.swp_base.specs.Outside.{Rose};
ghost use Rattle.swp_capture.specs.declared.status.CaptureStatus.{CaptureStatus};

use crate::output::Output;
use crate::rate::Search;
use crate::status::CaptureStatus;
use line_capture::{CaptureFault, Change, LineReader};
use swp_base::{Failed, Sink, Source};
use vcd_text::{VcdFault, VcdReader, VcdRefusal, VcdTold};

/// How many bytes are read at once.
const MOST_PIECE: usize = 8192;

/// A capture that is being read.
#[derive(Drop)]
struct Capture {
    unit: u64,
    is_known: bool,
    begin: u64,
    search: Search,
    text: VcdReader,
    line: Option<LineReader>,
    output: Output,
    ghost in_range: { (0 < unit) × (unit ≤ 2 ^ 32) × (begin < 2 ^ 63) },
}

/// Reads a capture to its end, and writes its record. `unit` is a sixteenth of the bit period, in femtoseconds; where there is none, it
/// is found in the first changes, which are kept until then. What the bytes of
/// one read make known is written before the next read, and what was known before a refusal is written too.
pub fn record_capture<S: Source, K: Sink>(
    unit: Option<u64>,
    source: &mut S,
    sink: &mut K,
) -> CaptureStatus
    requires some { IfSome unit (λ u. 0 < u) }
    requires few { IfSome unit (λ u. u ≤ 2 ^ 32) }
    ensures read_fault { result ≡ CaptureStatus.ReadFault → Rose (S.faults source.old) (S.faults source.new) }
    ensures write_fault { result ≡ CaptureStatus.WriteFault → Rose (K.faults sink.old) (K.faults sink.new) }
{
    let mut capture = Capture::new(unit);
    let mut buffer = [0; MOST_PIECE];
    'reads: for _ in 0..u64::MAX {
        match source.read(&mut buffer) {
            Err(Failed) => return CaptureStatus::ReadFault,
            Ok(0) => return capture.close(sink),
            Ok(n) => {
                let answer = capture.take_all(sink, &buffer[..n]);
                let status = capture.settled(sink, answer);
                if status != CaptureStatus::Done {
                    return status;
                }
            }
        }
    }
    CaptureStatus::TooLong
}

impl Capture {
    /// Nothing is read yet.
    fn new(unit: Option<u64>) -> Self
        requires some { IfSome unit (λ u. 0 < u) }
        requires few { IfSome unit (λ u. u ≤ 2 ^ 32) }
    {
        let (unit, is_known) = match unit {
            Some(unit) => (unit, true),
            None => (1, false),
        };
        Capture {
            unit,
            is_known,
            begin: 0,
            search: Search::new(),
            text: VcdReader::new(),
            line: None,
            output: Output::new(),
        }
    }

    /// Writes what is known, and gives how the run ended so far.
    fn settled<K: Sink>(&mut self, sink: &mut K, answer: Result<(), CaptureStatus>) -> CaptureStatus
        requires { answer ≢ Err CaptureStatus.ReadFault }
        ensures count { K.faults sink.old ≤ K.faults sink.new }
        ensures read { result ≢ CaptureStatus.ReadFault }
        ensures fault { result ≡ CaptureStatus.WriteFault → (answer ≡ Err CaptureStatus.WriteFault) ⊎ Rose (K.faults sink.old) (K.faults sink.new) }
    {
        match (answer, self.output.flush(sink)) {
            (Err(status), _) => status,
            (Ok(()), Err(status)) => status,
            (Ok(()), Ok(())) => CaptureStatus::Done,
        }
    }

    /// Takes bytes of the text.
    fn take_all<K: Sink>(&mut self, sink: &mut K, bytes: &[u8]) -> Result<(), CaptureStatus>
        ensures count { K.faults sink.old ≤ K.faults sink.new }
        ensures read { result ≢ Err CaptureStatus.ReadFault }
        ensures fault { result ≡ Err CaptureStatus.WriteFault → Rose (K.faults sink.old) (K.faults sink.new) }
    {
        for byte in bytes {
            self.take(sink, *byte)?;
        }
        Ok(())
    }

    /// Takes a byte of the text.
    fn take<K: Sink>(&mut self, sink: &mut K, byte: u8) -> Result<(), CaptureStatus>
        ensures count { K.faults sink.old ≤ K.faults sink.new }
        ensures read { result ≢ Err CaptureStatus.ReadFault }
        ensures fault { result ≡ Err CaptureStatus.WriteFault → Rose (K.faults sink.old) (K.faults sink.new) }
    {
        match self.text.take(byte) {
            Ok(VcdTold::Nothing) => Ok(()),
            Ok(VcdTold::Begins(time)) => {
                self.begin = time;
                if self.is_known {
                    self.line = Some(LineReader::begin(self.unit, time));
                }
                Ok(())
            }
            Ok(VcdTold::Changes(change)) => self.change(sink, change),
            Err(refusal) => Err(refused(refusal)),
        }
    }

    /// Takes a change of the line.
    fn change<K: Sink>(&mut self, sink: &mut K, change: Change) -> Result<(), CaptureStatus>
        ensures count { K.faults sink.old ≤ K.faults sink.new }
        ensures read { result ≢ Err CaptureStatus.ReadFault }
        ensures fault { result ≡ Err CaptureStatus.WriteFault → Rose (K.faults sink.old) (K.faults sink.new) }
    {
        let Some(line) = &mut self.line else {
            return self.seek(sink, change);
        };
        match line.take(change) {
            Ok(piece) => self.output.add(sink, piece),
            Err(fault) => Err(self.late(fault)),
        }
    }

    /// Keeps a change, and begins the line where the rate is known by it.
    fn seek<K: Sink>(&mut self, sink: &mut K, change: Change) -> Result<(), CaptureStatus>
        ensures count { K.faults sink.old ≤ K.faults sink.new }
        ensures read { result ≢ Err CaptureStatus.ReadFault }
        ensures fault { result ≡ Err CaptureStatus.WriteFault → Rose (K.faults sink.old) (K.faults sink.new) }
    {
        self.search.note(change);
        if self.search.is_over() {
            self.begin_line(sink)
        } else {
            Ok(())
        }
    }

    /// Begins the line at the rate that was found, with the changes that were kept.
    fn begin_line<K: Sink>(&mut self, sink: &mut K) -> Result<(), CaptureStatus>
        ensures count { K.faults sink.old ≤ K.faults sink.new }
        ensures read { result ≢ Err CaptureStatus.ReadFault }
        ensures fault { result ≡ Err CaptureStatus.WriteFault → Rose (K.faults sink.old) (K.faults sink.new) }
    {
        let Some(unit) = self.search.unit() else {
            return Err(CaptureStatus::NoRate);
        };
        let mut line = LineReader::begin(unit, self.begin);
        'kept: for at in 0..self.search.count() {
            let Some(change) = self.search.change_at(at) else {
                break;
            };
            match line.take(change) {
                Ok(piece) => self.output.add(sink, piece)?,
                Err(fault) => return Err(self.late(fault)),
            }
        }
        self.line = Some(line);
        Ok(())
    }

    /// The text has ended: writes the rest.
    fn close<K: Sink>(&mut self, sink: &mut K) -> CaptureStatus
        ensures count { K.faults sink.old ≤ K.faults sink.new }
        ensures read { result ≢ CaptureStatus.ReadFault }
        ensures fault { result ≡ CaptureStatus.WriteFault → Rose (K.faults sink.old) (K.faults sink.new) }
    {
        let answer = self.end(sink);
        self.settled(sink, answer)
    }

    fn end<K: Sink>(&mut self, sink: &mut K) -> Result<(), CaptureStatus>
        ensures count { K.faults sink.old ≤ K.faults sink.new }
        ensures read { result ≢ Err CaptureStatus.ReadFault }
        ensures fault { result ≡ Err CaptureStatus.WriteFault → Rose (K.faults sink.old) (K.faults sink.new) }
    {
        // The last word may have no end of line behind it.
        self.take(sink, b' ')?;
        let end = match self.text.finish() {
            Ok(end) => end,
            Err(refusal) => return Err(refused(refusal)),
        };
        if let Some(change) = end.change {
            self.change(sink, change)?;
        }
        if self.line.is_none() {
            self.begin_line(sink)?;
        }
        let Some(line) = &self.line else {
            return Ok(());
        };
        match line.finish(end.time) {
            Ok(piece) => self.output.add(sink, piece),
            Err(fault) => Err(self.late(fault)),
        }
    }

    /// What a time that the line refuses is told as. The text refuses it before.
    fn late(&self, fault: CaptureFault) -> CaptureStatus
        ensures read { result ≢ CaptureStatus.ReadFault }
        ensures write { result ≢ CaptureStatus.WriteFault }
    {
        let fault = match fault {
            CaptureFault::TimeBack => VcdFault::TimeBack,
            CaptureFault::TooLate => VcdFault::TimeTooLarge,
        };
        CaptureStatus::BadCapture {
            line: self.text.line(),
            fault,
        }
    }
}

/// A refusal of the text as the end of a run.
fn refused(refusal: VcdRefusal) -> CaptureStatus
    ensures read { result ≢ CaptureStatus.ReadFault }
    ensures write { result ≢ CaptureStatus.WriteFault }
{
    CaptureStatus::BadCapture {
        line: refusal.line,
        fault: refusal.fault,
    }
}
