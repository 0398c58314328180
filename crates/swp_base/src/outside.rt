//! The outside world as traits. Each object has a count of faults that never falls, and a call answers `Failed` only
//! where the count rose in that call: it is then greater than before, or stands at the last value of a `u64`. An object
//! may also tell what it holds; its calls then say what they do to that.
ghost use Rattle.std.specs.Prelude.{◌≡◌, ℕ, ◌+◌, ◌^◌, ◌<◌, ◌≤◌, Bool, false, List, [], ◌++◌, length, take, IsTrue, is_ok, IfOk, OnOk, OnErr, slice_range};
ghost use Rattle.swp_base.specs.Outside.{Rose, IsWritten};
ghost use Rattle.swp_base.specs.Endings.{with_read};

use std::alloc::AllocError;

/// A call to the outside world failed, and the count of faults of its object rose.
#[derive(Clone, Copy, Debug, PartialEq, Eq)]
pub struct Failed;

/// There was no memory for what was asked.
#[derive(Clone, Copy, Debug, PartialEq, Eq)]
pub struct NoMemory;

impl From<AllocError> for NoMemory {
    fn from(_: AllocError) -> Self {
        NoMemory
    }
}

/// What is known of a source's reads: whether one has said that it ended or has failed, how many reads were asked of it since
/// then, and how many bytes the last one gave that gave some. The number of reads stands still at the last value of a `u64`.
#[derive(Clone, Copy)]
pub struct EndOfInput {
    /// A read gave no byte, or failed.
    pub ended: bool,
    /// How many reads came behind that one.
    pub late: u64,
    /// The bytes of the last read that gave some; 0 before it.
    pub given: usize,
}

impl EndOfInput {
    /// Nothing was read, and it has not ended.
    pub fn new() -> Self
        ensures { result ≡ record { ended = false; late = 0; given = 0 } }
    {
        EndOfInput {
            ended: false,
            late: 0,
            given: 0,
        }
    }

    /// Notes a read and its answer.
    pub fn note(&mut self, answer: Result<usize, Failed>)
        ensures { self.new ≡ with_read self.old answer }
    {
        if self.ended {
            self.late = self.late.saturating_add(1);
        } else {
            self.ended = matches!(answer, Ok(0) | Err(Failed));
        }
        if let Ok(n) = answer {
            if n != 0 {
                self.given = n;
            }
        }
    }
}

/// Bytes that come from outside.
pub trait Source {
    ghost use Rattle.swp_base.specs.declared.outside.EndOfInput.{EndOfInput};

    // how many of its calls failed; it stands still at the last value of a `u64`
    ghost faults: { Self → ℕ };

    // it tells what is left
    ghost tells: { Bool };

    // the bytes still to come
    ghost left: { Self → List ℕ };

    // whether it has said that it ended or has failed, how many reads were asked of it since, and the bytes of the last one that gave some
    ghost end: { Self → EndOfInput };

    /// Reads some of the bytes that are left into the front of the buffer, and gives their number. It is 0 only at the
    /// end, where nothing is left: so a source says that it ended. A call that fails reads nothing.
    fn read(&mut self, buf: &mut [u8]) -> Result<usize, Failed>
        requires { 0 < length buf.old }
        ensures count { faults self.old ≤ faults self.new }
        ensures fault { OnErr result (Rose (faults self.old) (faults self.new)) }
        ensures bound { IfOk result (λ n. n ≤ length buf.new) }
        ensures read { IsTrue tells →
            IfOk result (λ n. left self.old ≡ take n buf.new ++ left self.new) }
        ensures end { IsTrue tells → IfOk result (λ n. n ≡ 0 → left self.old ≡ []) }
        ensures kept { IsTrue tells → OnErr result (left self.new ≡ left self.old) }
        ensures noted { end self.new ≡ with_read (end self.old) result };
}

/// Bytes that go outside.
pub trait Sink {
    // how many of its calls failed; it stands still at the last value of a `u64`
    ghost faults: { Self → ℕ };

    // it tells what was written
    ghost tells: { Bool };

    // the bytes taken so far
    ghost written: { Self → List ℕ };

    /// Writes some bytes from the front of the piece, at least one, and gives their number. A call that fails writes
    /// nothing.
    fn write(&mut self, bytes: &[u8]) -> Result<usize, Failed>
        requires { 0 < length bytes.now }
        ensures count { faults self.old ≤ faults self.new }
        ensures fault { OnErr result (Rose (faults self.old) (faults self.new)) }
        ensures bound { IfOk result (λ n. (0 < n) × (n ≤ length bytes.now)) }
        ensures wrote { IsTrue tells →
            IfOk result (λ n. written self.new ≡ written self.old ++ take n bytes.now) }
        ensures kept { IsTrue tells → OnErr result (written self.new ≡ written self.old) };
}

/// A memory that keeps its bytes while the power is off.
pub trait Nv {
    // how many of its calls failed; it stands still at the last value of a `u64`
    ghost faults: { Self → ℕ };

    // how many bytes it has
    ghost capacity: { Self → ℕ };

    // it tells its content
    ghost tells: { Bool };

    // its bytes
    ghost content: { Self → List ℕ };

    // what a read does: whether it goes through, and the memory after it
    ghost reads: { Self → Bool → Self → Type 0 };

    // what a write does, of these bytes from this place on: whether it goes through, and the memory after it
    ghost writes: { Self → ℕ → List ℕ → Bool → Self → Type 0 };

    /// How many bytes it has.
    fn size(&self) -> u32
        ensures size { result ≡ capacity self.now }
        ensures told { IsTrue tells → length (content self.now) ≡ result };

    /// Fills the buffer with the bytes from place `at` on. It changes nothing.
    fn read(&mut self, at: u32, buf: &mut [u8]) -> Result<(), Failed>
        requires { at + length buf.old ≤ capacity self.old }
        ensures count { faults self.old ≤ faults self.new }
        ensures fault { OnErr result (Rose (faults self.old) (faults self.new)) }
        ensures size { capacity self.new ≡ capacity self.old }
        ensures bounded { capacity self.old < 2 ^ 32 }
        ensures read { IsTrue tells →
            OnOk result (buf.new ≡ slice_range (content self.old) at (at + length buf.old)) }
        ensures kept { IsTrue tells → content self.new ≡ content self.old }
        ensures step { reads self.old (is_ok result) self.new };

    /// Puts the bytes there from place `at` on. A call that fails leaves any bytes in that range, and no others change.
    fn write(&mut self, at: u32, bytes: &[u8]) -> Result<(), Failed>
        requires { at + length bytes.now ≤ capacity self.old }
        ensures count { faults self.old ≤ faults self.new }
        ensures fault { OnErr result (Rose (faults self.old) (faults self.new)) }
        ensures size { capacity self.new ≡ capacity self.old }
        ensures bounded { capacity self.old < 2 ^ 32 }
        ensures step { writes self.old at bytes.now (is_ok result) self.new };

    // it tells as many bytes as it has
    ghost sized: { (m : Self) → IsTrue tells → length (content m) ≡ capacity m };

    // and what its writes leave
    ghost told: { (old : Self) (at : ℕ) (bytes : List ℕ) (ok : Bool) (new : Self) → IsTrue tells → writes old at bytes ok new
        → IsWritten ok (content old) (content new) at bytes };
}
