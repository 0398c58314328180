//! The bytes of a record on their way out.
ghost use Rattle.std.specs.Prelude.{◌≡◌, ◌≤◌, ◌<◌, ◌⊎◌, OnOk, OnErr, Err};
ghost use Rattle.swp_base.specs.Outside.{Rose};
ghost use Rattle.swp_capture.specs.declared.status.CaptureStatus.{CaptureStatus};

use crate::status::CaptureStatus;
use line_capture::Piece;
use swp_base::{Failed, Sink};

/// How many bytes are written at once.
const ROOM: usize = 8192;

/// How many bytes a record has at most.
const MOST_BYTES: u64 = 16_777_216;

/// Bytes that are not written yet, and how many more the record may have.
#[derive(Drop)]
pub struct Output {
    bytes: [u8; ROOM],
    len: usize,
    left: u64,
    ghost in_range: { len ≤ 8192 },
}

impl Output {
    /// No byte.
    pub fn new() -> Self
        ensures waiting { result.len ≡ 0 }
        ensures left { result.left ≡ 16777216 }
    {
        Output {
            bytes: [0; ROOM],
            len: 0,
            left: MOST_BYTES,
        }
    }

    /// Adds the bytes of a piece, and writes where there is no more room.
    pub fn add<K: Sink>(&mut self, sink: &mut K, piece: Piece) -> Result<(), CaptureStatus>
        ensures count { K.faults sink.old ≤ K.faults sink.new }
        ensures fault { result ≡ Err CaptureStatus.WriteFault → Rose (K.faults sink.old) (K.faults sink.new) }
        ensures others { OnErr result ((result ≡ Err CaptureStatus.WriteFault) ⊎ (result ≡ Err CaptureStatus.TooLong)) }
    {
        if let Some(byte) = piece.first {
            self.add_many(sink, byte, 1)?;
        }
        self.add_many(sink, piece.byte, piece.times)
    }

    /// Adds one byte so many times.
    fn add_many<K: Sink>(&mut self, sink: &mut K, byte: u8, times: u64) -> Result<(), CaptureStatus>
        ensures count { K.faults sink.old ≤ K.faults sink.new }
        ensures fault { result ≡ Err CaptureStatus.WriteFault → Rose (K.faults sink.old) (K.faults sink.new) }
        ensures others { OnErr result ((result ≡ Err CaptureStatus.WriteFault) ⊎ (result ≡ Err CaptureStatus.TooLong)) }
    {
        let mut more = times;
        while more > 0 {
            if self.left == 0 {
                return Err(CaptureStatus::TooLong);
            }
            if self.len == ROOM {
                self.flush(sink)?;
            }
            more -= self.add_some(byte, more);
        }
        Ok(())
    }

    /// Adds one byte as often as there is room for, and at most so many times; gives how often.
    fn add_some(&mut self, byte: u8, times: u64) -> u64
        requires times { 0 < times }
        requires room { self.old.len < 8192 }
        requires left { 0 < self.old.left }
        ensures some { 0 < result }
        ensures most { result ≤ times }
    {
        let room = (ROOM - self.len) as u64;
        let count = times.min(room).min(self.left);
        let end = self.len + count as usize;
        self.bytes[self.len..end].fill(byte);
        self.len = end;
        self.left -= count;
        count
    }

    /// Writes what is not written yet.
    pub fn flush<K: Sink>(&mut self, sink: &mut K) -> Result<(), CaptureStatus>
        ensures count { K.faults sink.old ≤ K.faults sink.new }
        ensures empty { OnOk result (self.new.len ≡ 0) }
        ensures left { self.new.left ≡ self.old.left }
        ensures fault { OnErr result (Rose (K.faults sink.old) (K.faults sink.new)) }
        ensures others { OnErr result (result ≡ Err CaptureStatus.WriteFault) }
    {
        if write_all(sink, &self.bytes[..self.len]).is_err() {
            return Err(CaptureStatus::WriteFault);
        }
        self.len = 0;
        Ok(())
    }
}

/// Writes the whole piece, in as many calls as it takes.
fn write_all<K: Sink>(sink: &mut K, bytes: &[u8]) -> Result<(), Failed>
    ensures count { K.faults sink.old ≤ K.faults sink.new }
    ensures fault { OnErr result (Rose (K.faults sink.old) (K.faults sink.new)) }
{
    let mut at = 0;
    while at < bytes.len() {
        at += sink.write(&bytes[at..])?;
    }
    Ok(())
}
