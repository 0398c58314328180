//! Standard input as a source and standard output as a sink.
ghost use Rattle.std.specs.Prelude.{◌≡◌, [], false};
ghost use Rattle.std.specs.Io.{ReadsAtMost, WritesAtMost};

use std::io::{self, ErrorKind, Read, Write};
use swp_base::{EndOfInput, Failed, Sink, Source};

/// How often a call is made that a signal breaks off.
const TRIES: u32 = 1000;

/// A reader as a source. A read that fails is counted, and the end is noted. One that a signal broke off is made again.
#[derive(Drop)]
pub struct StdinSource<R> {
    reader: R,
    faults: u64,
    end: EndOfInput,
}

impl<R: Read + Drop> StdinSource<R> {
    /// No read has failed, and none has said that the input ended.
    pub fn new(reader: R) -> Self
        ensures faults { result.faults ≡ 0 }
        ensures end { result.end ≡ record { ended = false; late = 0; given = 0 } }
    {
        StdinSource {
            reader,
            faults: 0,
            end: EndOfInput::new(),
        }
    }
}

/// Reads once more where a signal broke the read off, a bounded number of times.
fn read_through<R: Read>(reader: &mut R, buf: &mut [u8]) -> io::Result<usize>
    ensures { ReadsAtMost result buf.new }
{
    for _ in 0..TRIES {
        match reader.read(buf) {
            Err(error) if error.kind() == ErrorKind::Interrupted => {}
            answer => return answer,
        }
    }
    Err(ErrorKind::Interrupted.into())
}

impl<R: Read + Drop> Source for StdinSource<R> {
    ghost faults = { λ s. s.faults };

    ghost tells = { false };

    ghost left = { λ _. [] };

    ghost end = { λ s. s.end };

    fn read(&mut self, buf: &mut [u8]) -> Result<usize, Failed> {
        match read_through(&mut self.reader, buf) {
            Ok(n) => {
                self.end.note(Ok(n));
                Ok(n)
            }
            Err(_) => {
                self.faults = self.faults.saturating_add(1);
                self.end.note(Err(Failed));
                Err(Failed)
            }
        }
    }
}

/// A writer as a sink. A write that fails or that takes nothing is counted. One that a signal broke off is made again.
#[derive(Drop)]
pub struct StdoutSink<W> {
    writer: W,
    faults: u64,
}

impl<W: Write + Drop> StdoutSink<W> {
    /// No write has failed.
    pub fn new(writer: W) -> Self
        ensures { result.faults ≡ 0 }
    {
        StdoutSink { writer, faults: 0 }
    }
}

/// Writes once more where a signal broke the write off, a bounded number of times.
fn write_through<W: Write>(writer: &mut W, bytes: &[u8]) -> io::Result<usize>
    ensures { WritesAtMost result bytes.now }
{
    for _ in 0..TRIES {
        match writer.write(bytes) {
            Err(error) if error.kind() == ErrorKind::Interrupted => {}
            answer => return answer,
        }
    }
    Err(ErrorKind::Interrupted.into())
}

impl<W: Write + Drop> Sink for StdoutSink<W> {
    ghost faults = { λ s. s.faults };

    ghost tells = { false };

    ghost written = { λ _. [] };

    fn write(&mut self, bytes: &[u8]) -> Result<usize, Failed> {
        match write_through(&mut self.writer, bytes) {
            Ok(n) if n > 0 => Ok(n),
            _ => {
                self.faults = self.faults.saturating_add(1);
                Err(Failed)
            }
        }
    }
}
