//! Bytes of a bank that were read and not passed yet.
ghost use Rattle.std.specs.Prelude.{◌≡◌, ◌+◌, ◌-◌, ◌<◌, ◌≤◌, [], ◌++◌, length, min, drop, false, IsTrue, OnOk, OnErr, slice_range};
ghost use Rattle.swp_base.specs.Outside.{Rose};
ghost use Rattle.nv_journal.specs.Scanning.{IsFilled};

use arrayvec::ArrayVec;
use std::marker::Model;
use swp_base::{Failed, Nv};

/// The most bytes of one read.
const PIECE: usize = 960;

/// Bytes that were read and not passed yet, in order; at most 1,024. Contracts see the list of them.
#[derive(Drop)]
pub struct Ahead {
    bytes: ArrayVec<u8, 1024>,
    /// The index of the first that was not passed.
    from: usize,
}

impl Model for Ahead {
    ghost use Rattle.std.specs.Prelude.{List, ℕ, ◌≤◌, length, drop};

    ghost Value = { List ℕ };

    ghost view = { λ a. drop a.from a.bytes.items };

    ghost invariant = { λ a. (a.from ≤ length a.bytes.items) × (length a.bytes.items ≤ 1024) };
}

impl Ahead {
    /// No bytes.
    pub fn new() -> Self
        ensures { result ≡ [] }
    {
        Self {
            bytes: ArrayVec::new(),
            from: 0,
        }
    }

    /// The bytes.
    pub fn as_slice(&self) -> &[u8]
        ensures { result.now ≡ self.now }
    {
        &self.bytes.as_slice()[self.from..]
    }

    /// Passes the first `n` bytes.
    pub fn pass(&mut self, n: usize)
        requires { n ≤ length self.old }
        ensures { self.new ≡ drop n self.old }
    {
        self.from += n;
    }

    /// Adds the bytes of a piece behind the others.
    fn add(&mut self, piece: &[u8])
        requires { length self.old + length piece.now ≤ 1024 }
        ensures { self.new ≡ self.old ++ piece.now }
    {
        let mut bytes = ArrayVec::<u8, 1024>::new();
        let _kept = bytes.try_extend_from_slice(self.as_slice());
        let _piece = bytes.try_extend_from_slice(piece);
        self.bytes = bytes;
        self.from = 0;
    }
}

/// Where fewer than 65 bytes are ahead, reads the next piece, of the `left` bytes from place `at` on.
pub fn fill<N: Nv>(nv: &mut N, at: u32, left: u32, ahead: &mut Ahead) -> Result<(), Failed>
    requires room { at + left ≤ N.capacity nv.old }
    ensures size { N.capacity nv.new ≡ N.capacity nv.old }
    ensures count { N.faults nv.old ≤ N.faults nv.new }
    ensures fault { OnErr result (Rose (N.faults nv.old) (N.faults nv.new)) }
    ensures kept { IsTrue N.tells → N.content nv.new ≡ N.content nv.old }
    ensures filled { OnOk result (IsFilled N.reads left nv.old ahead.old nv.new ahead.new) }
    ensures enough { OnOk result (min 65 (length ahead.old + left) ≤ length ahead.new) }
    ensures bytes { IsTrue N.tells → OnOk result (ahead.new ≡ ahead.old
        ++ slice_range (N.content nv.old) at (at + (length ahead.new - length ahead.old))) }
    ensures failed { OnErr result ((0 < left) × N.reads nv.old false nv.new × (ahead.new ≡ ahead.old)) }
{
    if ahead.as_slice().len() >= 65 || left == 0 {
        return Ok(());
    }
    let mut piece = [0; PIECE];
    let len = (left as usize).min(PIECE);
    nv.read(at, &mut piece[..len])?;
    ahead.add(&piece[..len]);
    Ok(())
}
