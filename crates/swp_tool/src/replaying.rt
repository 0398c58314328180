//! The command `replay`: a schedule in, its transcript out.
ghost use Rattle.std.specs.Prelude.{◌≡◌, ◌≢◌, ◌≤◌, ◌<◌, ◌+◌, ◌++◌, [], List, ℕ, take, Err, false, IsTrue, OnOk, OnErr};
ghost use Rattle.swp_base.specs.Outside.{Rose};
ghost use Rattle.swp_tool.specs.Runs.{status_of, AppendsText, Replayed, IsUnderWay, IsOfReplay};
ghost use Rattle.swp_tool.specs.Schedules.{schedule_in};
ghost use Rattle.swp_tool.specs.Transcripts.{TellsPlayed};
ghost use Rattle.swp_tool.specs.Pieces.{HasRead, IsReading, IsReadAhead, bytes_left};

use crate::pieces::Pieces;
use crate::replay::Halt;
use std::alloc::Global;
use swp_base::{Failed, Sink, Source};
use swp_words::driver::{Job, drive};
use swp_words::output::write_all;
use swp_words::status::Status;

/// The most bytes of a schedule that are read at once.
const PIECE: usize = 4096;

/// The status of a replay that halts behind `count` whole lines.
fn halted(why: Halt, count: u64) -> Status
    requires { count ≤ 20000 }
    ensures status { result ≡ status_of why count }
    ensures kind { IsOfReplay result }
{
    match why {
        Halt::Fault(fault) => Status::BadSchedule {
            line: count + 1,
            fault,
        },
        Halt::Undetected => Status::Undetected { line: count + 1 },
        Halt::TooMany => Status::TooMany { count: count + 1 },
        Halt::NoMemory => Status::NoMemory,
    }
}

/// Writes what a replay has gathered, at once where there is memory to join its pieces. Where a call fails, a front of it was written.
fn flush<K: Sink>(sink: &mut K, pieces: &mut Pieces) -> Result<(), Failed>
    ensures count { K.faults sink.old ≤ K.faults sink.new }
    ensures fault { OnErr result (Rose (K.faults sink.old) (K.faults sink.new)) }
    ensures wrote { IsTrue K.tells → OnOk result (K.written sink.new ≡ K.written sink.old ++ pieces.old.replay.text.items) }
    ensures front { OnErr result ((n : ℕ) ×
        (IsTrue K.tells → K.written sink.new ≡ K.written sink.old ++ take n pieces.old.replay.text.items)) }
    ensures reading { IsReading pieces.old → IsReading pieces.new }
    ensures same { OnOk result ((bytes text : List ℕ) → HasRead pieces.old bytes text → HasRead pieces.new bytes (text ++ pieces.old.replay.text.items)) }
    ensures gathered { OnOk result (pieces.new.replay.text.items ≡ []) }
    ensures lines { pieces.new.replay.count ≡ pieces.old.replay.count }
    ensures left { bytes_left pieces.new ≡ bytes_left pieces.old }
{
    pieces.replay.text.join();
    let (first, rest) = pieces.replay.text.pieces();
    write_all(sink, first)?;
    write_all(sink, rest)?;
    pieces.replay.text.clear();
    Ok(())
}

impl Job for Pieces {
    ghost use Rattle.swp_tool.specs.Runs.{Replayed, IsUnderWay, IsOfReplay};
    ghost use Rattle.swp_tool.specs.Pieces.{IsReading, IsReadAhead, bytes_left};

    ghost goes_on = { IsReading };

    ghost bound = { bytes_left };

    ghost piece_size = { λ p. 4096 };

    ghost Origin = { Unit {0} };

    ghost under_way = { λ tells o p. IsUnderWay tells p };

    ghost ended = { λ tells given o p. Replayed tells given };

    ghost memory_faults = { λ p. 0 };

    ghost is_ending = { IsOfReplay };

    ghost is_ahead = { IsReadAhead 4096 };

    fn piece(&self) -> usize {
        PIECE
    }

    fn take<K: Sink>(&mut self, alloc: Global, sink: &mut K, piece: &[u8]) -> Result<(), Status> {
        let mut left = piece;
        'parts: while !left.is_empty() {
            let fed = self.feed(alloc, left);
            if flush(sink, self).is_err() {
                return Err(Status::WriteFault);
            }
            match fed {
                Ok(more) => left = more,
                Err(why) => return Err(halted(why, self.replay.count)),
            }
        }
        Ok(())
    }

    fn close<K: Sink>(&mut self, alloc: Global, sink: &mut K) -> Status {
        let finished = self.finish(alloc);
        if flush(sink, self).is_err() {
            return Status::WriteFault;
        }
        match finished {
            Ok(()) => Status::Done,
            Err(why) => halted(why, self.replay.count),
        }
    }

    fn cut_off(&self) -> Status {
        Status::ReadFault
    }
}

/// Replays the schedule that the source has left.
pub fn replay<S: Source, K: Sink>(alloc: Global, source: &mut S, sink: &mut K) -> Status
    ensures read_fault { result ≡ Status.ReadFault → Rose (S.faults source.old) (S.faults source.new) }
    ensures write_fault { result ≡ Status.WriteFault → Rose (K.faults sink.old) (K.faults sink.new) }
    ensures replayed { IsTrue S.tells →
        Replayed K.tells (S.end source.new).given result (S.left source.old) (S.left source.new) (K.written sink.old) (K.written sink.new) }
    ensures known { IsTrue S.tells → result ≡ Status.Done →
        AppendsText K.tells (TellsPlayed (schedule_in (S.left source.old))) (K.written sink.old) (K.written sink.new) }
    ensures ahead { IsTrue S.tells → IsReadAhead 4096 (S.left source.old) (S.left source.new) }
    ensures late { (S.end source.old).ended ≡ false → (S.end source.new).late ≡ (S.end source.old).late }
    ensures words { result ≢ Status.BadWords }
    ensures kind { IsOfReplay result }
{
    let mut pieces = Pieces::new(alloc);
    drive(alloc, source, sink, &mut pieces)
}
