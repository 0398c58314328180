//! The command `decode`: a record of a line in, a line of text for each frame or fault out.
ghost use Rattle.std.specs.Prelude.{◌≡◌, ◌≢◌, ◌≤◌, ◌<◌, ◌+◌, ◌++◌, [], ◌∷◌, List, ℕ, length, IsTrue, false};
ghost use Rattle.swp_base.specs.Outside.{Rose};
ghost use Rattle.swp_words.specs.Records.{most_bytes, IsOfRecord};
ghost use Rattle.swp_words.specs.Decodings.{DecodedBy};

use crate::gathering::{flush, make_room};
use crate::records::{RecordReader, read_record};
use crate::status::Status;
use std::alloc::Global;
use swp_base::{Failed, Sink, Source};
use swp_decode::{Decoder, Text};

/// A decoding under way: what is kept of the record, and the lines that aren't written yet.
#[derive(Drop)]
struct Decoding {
    decoder: Decoder,
    text: Text,
}

impl RecordReader for Decoding {
    ghost use Rattle.swp_decode.specs.Decoded.{record_lines};
    ghost use Rattle.swp_words.specs.Decodings.{IsDecoding};

    ghost count = { λ d. d.decoder.count };

    ghost is_sound = { λ d. Unit {0} };

    ghost lines = { record_lines };

    ghost is_reading = { IsDecoding };

    fn bytes_read(&self) -> u32 {
        self.decoder.count
    }

    fn take_first<K: Sink>(&mut self, sink: &mut K, bytes: &[u8; 64]) -> Result<usize, Failed> {
        make_room(sink, &mut self.text)?;
        Ok(self.decoder.step_many(bytes, &mut self.text))
    }

    fn take_byte<K: Sink>(&mut self, sink: &mut K, byte: u8) -> Result<(), Failed> {
        make_room(sink, &mut self.text)?;
        self.decoder.step(byte, &mut self.text);
        Ok(())
    }

    fn write_out<K: Sink>(&mut self, sink: &mut K) -> Result<(), Failed> {
        flush(sink, &mut self.text)
    }

    fn finish<K: Sink>(&mut self, sink: &mut K) -> Result<(), Failed> {
        make_room(sink, &mut self.text)?;
        self.decoder.finish(&mut self.text);
        flush(sink, &mut self.text)
    }
}

/// Decodes the record that the source has left. No memory is taken.
pub fn decode<S: Source, K: Sink>(alloc: Global, source: &mut S, sink: &mut K) -> Status
    ensures read_fault { result ≡ Status.ReadFault → Rose (S.faults source.old) (S.faults source.new) }
    ensures write_fault { result ≡ Status.WriteFault → Rose (K.faults sink.old) (K.faults sink.new) }
    ensures decoded { IsTrue S.tells →
        DecodedBy K.tells (S.end source.new).given result (S.left source.old) (S.left source.new) (K.written sink.old) (K.written sink.new) }
    ensures ahead { IsTrue S.tells → length (S.left source.old) ≤ most_bytes + 4096 + length (S.left source.new) }
    ensures late { (S.end source.old).ended ≡ false → (S.end source.new).late ≡ (S.end source.old).late }
    ensures words { result ≢ Status.BadWords }
    ensures kind { IsOfRecord result }
{
    let decoding = Decoding {
        decoder: Decoder::new(),
        text: Text::new(),
    };
    read_record(alloc, source, sink, decoding)
}
