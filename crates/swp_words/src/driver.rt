//! One driver for every command that reads its input piece by piece.
ghost use Rattle.std.specs.Prelude.{◌≡◌, ◌≢◌, ◌≤◌, ◌<◌, ◌++◌, [], List, ℕ, Bool, length, IsTrue, OnOk, IfErr, Err, false};
ghost use Rattle.swp_base.specs.Outside.{Rose};
ghost use Rattle.swp_words.specs.declared.status.Status.{Status as Ending};

use crate::status::Status;
use std::alloc::Global;
use swp_base::{Failed, Sink, Source};

/// The most bytes that are read at once: few enough for the processor's first cache.
pub const MOST_PIECE: usize = 8192;

/// A command that reads its input piece by piece, and writes what a piece causes before the next one is read. Of its input and of
/// what it writes its meaning is told by relations; the first argument of each says whether the sink tells what was written.
pub trait Job {
    // it may read on
    ghost goes_on: { Self → Type 0 };

    // how many bytes more it may read; each piece makes them fewer
    ghost bound: { Self → ℕ };

    // how many bytes it reads at once
    ghost piece_size: { Self → ℕ };

    // what it began with, beside the input and the sink
    ghost Origin: { Type 0 };

    // It has read the input but for what is left, and written what that caused: of the sink, what it held before and what it
    // holds now.
    ghost under_way: { Bool → Origin → Self → List ℕ → List ℕ → List ℕ → List ℕ → Type 0 };

    // where the last read that gave some gave so many bytes, it ended in this way, with what is left of the input, and what the sink held
    // before and holds now
    ghost ended: { Bool → ℕ → Origin → Self → Ending → List ℕ → List ℕ → List ℕ → List ℕ → Type 0 };

    // how many faults its memory has counted; always the same of one without a memory
    ghost memory_faults: { Self → ℕ };

    // a way in which it can end
    ghost is_ending: { Ending → Type 0 };

    // of the input no more than this is left, since so little is read ahead
    ghost is_ahead: { List ℕ → List ℕ → Type 0 };

    /// How many bytes it reads at once: at least one.
    fn piece(&self) -> usize
        requires { goes_on self.now }
        ensures size { result ≡ piece_size self.now }
        ensures some { 0 < result }
        ensures most { result ≤ 8192 };

    /// Takes a piece of the input, and writes what it causes. `Ok` says that it may read on.
    fn take<K: Sink>(&mut self, alloc: Global, sink: &mut K, piece: &[u8]) -> Result<(), Status>
        requires goes { goes_on self.old }
        requires some { 0 < length piece.now }
        requires size { length piece.now ≤ piece_size self.old }
        ensures count { K.faults sink.old ≤ K.faults sink.new }
        ensures write_fault { result ≡ Err Ending.WriteFault → Rose (K.faults sink.old) (K.faults sink.new) }
        ensures memory { memory_faults self.old ≤ memory_faults self.new }
        ensures nv_fault { result ≡ Err Ending.NvFault → Rose (memory_faults self.old) (memory_faults self.new) }
        ensures read_fault { result ≢ Err Ending.ReadFault }
        ensures words { result ≢ Err Ending.BadWords }
        ensures ending { IfErr result is_ending }
        ensures goes { OnOk result (goes_on self.new) }
        ensures progress { OnOk result (bound self.new < bound self.old) }
        ensures on { OnOk result ((o : Origin) (input rest before : List ℕ)
            → under_way K.tells o self.old input (piece.now ++ rest) before (K.written sink.old)
            → under_way K.tells o self.new input rest before (K.written sink.new)) }
        ensures ends { IfErr result (λ status. (given : ℕ) (o : Origin) (input rest before : List ℕ) → length piece.now ≤ given
            → under_way K.tells o self.old input (piece.now ++ rest) before (K.written sink.old)
            → ended K.tells given o self.new status input rest before (K.written sink.new)) }
        ensures ahead { (o : Origin) (input rest before : List ℕ) → under_way K.tells o self.old input (piece.now ++ rest) before (K.written sink.old)
            → is_ahead input rest };

    /// The input has ended: writes the rest.
    fn close<K: Sink>(&mut self, alloc: Global, sink: &mut K) -> Status
        requires goes { goes_on self.old }
        ensures count { K.faults sink.old ≤ K.faults sink.new }
        ensures write_fault { result ≡ Ending.WriteFault → Rose (K.faults sink.old) (K.faults sink.new) }
        ensures nv_fault { result ≡ Ending.NvFault → Rose (memory_faults self.old) (memory_faults self.new) }
        ensures read_fault { result ≢ Ending.ReadFault }
        ensures words { result ≢ Ending.BadWords }
        ensures ending { is_ending result }
        ensures ends { (given : ℕ) (o : Origin) (input before : List ℕ) → under_way K.tells o self.old input [] before (K.written sink.old)
            → ended K.tells given o self.new result input [] before (K.written sink.new) }
        ensures ahead { (o : Origin) (input before : List ℕ) → under_way K.tells o self.old input [] before (K.written sink.old) → is_ahead input [] };

    /// The input can't be read on.
    fn cut_off(&self) -> Status
        requires goes { goes_on self.now }
        ensures fault { result ≡ Ending.ReadFault }
        ensures ending { is_ending Ending.ReadFault }
        ensures ends { (tells : Bool) (given : ℕ) (o : Origin) (input left before after : List ℕ) → under_way tells o self.now input left before after
            → ended tells given o self.now Ending.ReadFault input left before after }
        ensures ahead { (tells : Bool) (o : Origin) (input left before after : List ℕ) → under_way tells o self.now input left before after
            → is_ahead input left };
}

/// Runs a command over the input that the source has left: a piece is read, and taken before the next one is read.
pub fn drive<S: Source, K: Sink, J: Job>(
    alloc: Global,
    source: &mut S,
    sink: &mut K,
    job: &mut J,
) -> Status
    requires goes { J.goes_on job.old }
    ensures read_fault { result ≡ Ending.ReadFault → Rose (S.faults source.old) (S.faults source.new) }
    ensures write_fault { result ≡ Ending.WriteFault → Rose (K.faults sink.old) (K.faults sink.new) }
    ensures nv_fault { result ≡ Ending.NvFault → Rose (J.memory_faults job.old) (J.memory_faults job.new) }
    ensures words { result ≢ Ending.BadWords }
    ensures ending { J.is_ending result }
    ensures ends { IsTrue S.tells → (o : J.Origin) (input before : List ℕ) →
        J.under_way K.tells o job.old input (S.left source.old) before (K.written sink.old)
        → J.ended K.tells (S.end source.new).given o job.new result input (S.left source.new) before (K.written sink.new) }
    ensures ahead { IsTrue S.tells → (o : J.Origin) (input before : List ℕ) →
        J.under_way K.tells o job.old input (S.left source.old) before (K.written sink.old)
        → J.is_ahead input (S.left source.new) }
    ensures late { (S.end source.old).ended ≡ false → (S.end source.new).late ≡ (S.end source.old).late }
{
    let mut buffer = [0; MOST_PIECE];
    'input: loop {
        let piece = &mut buffer[..job.piece()];
        match source.read(piece) {
            Err(Failed) => return job.cut_off(),
            Ok(0) => return job.close(alloc, sink),
            Ok(n) => match job.take(alloc, sink, &piece[..n]) {
                Ok(()) => {}
                Err(status) => return status,
            },
        }
    }
}
