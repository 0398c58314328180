//! Flash memory as a trait of the outside.
ghost use Rattle.std.specs.Prelude.{◌≡◌, ℕ, ◌+◌, ◌<◌, ◌≤◌, Bool, List, length, is_ok, IsTrue, OnOk, OnErr, slice_range};
ghost use Rattle.swp_base.specs.Outside.{Rose};
ghost use Rattle.flash_nv.specs.Cells.{AreCells, IsInPage, IsChanged, programmed, erased};

use swp_base::Failed;

/// A flash memory of 272 pages of 512 bytes each. It is erased by pages, and programming can only clear bits. It may tell its
/// bytes.
pub trait Flash {
    // how many of its calls failed; it stands still at the last value of a `u64`
    ghost faults: { Self → ℕ };

    // it tells its bytes
    ghost tells: { Bool };

    // its bytes
    ghost cells: { Self → List ℕ };

    /// Fills the buffer with the bytes from place `at` on. It changes nothing.
    fn read(&mut self, at: u32, buf: &mut [u8]) -> Result<(), Failed>
        requires { at + length buf.old ≤ 139264 }
        ensures count { faults self.old ≤ faults self.new }
        ensures fault { OnErr result (Rose (faults self.old) (faults self.new)) }
        ensures sized { IsTrue tells → AreCells (cells self.old) }
        ensures read { IsTrue tells →
            OnOk result (buf.new ≡ slice_range (cells self.old) at (at + length buf.old)) }
        ensures kept { IsTrue tells → cells self.new ≡ cells self.old };

    /// Makes each byte from place `at` on the AND of the old and the given one. A call that fails leaves each bit there as it
    /// was or as it was to be. No other byte changes.
    fn program(&mut self, at: u32, bytes: &[u8]) -> Result<(), Failed>
        requires { IsInPage at (length bytes.now) }
        ensures count { faults self.old ≤ faults self.new }
        ensures fault { OnErr result (Rose (faults self.old) (faults self.new)) }
        ensures changed { IsTrue tells →
            IsChanged (is_ok result) (cells self.old) (programmed (cells self.old) at bytes.now) (cells self.new) };

    /// Makes each byte of a page FF. A call that fails leaves each bit of the page as it was or 1. No other byte changes.
    fn erase(&mut self, page: u16) -> Result<(), Failed>
        requires { page < 272 }
        ensures count { faults self.old ≤ faults self.new }
        ensures fault { OnErr result (Rose (faults self.old) (faults self.new)) }
        ensures changed { IsTrue tells →
            IsChanged (is_ok result) (cells self.old) (erased (cells self.old) page) (cells self.new) };
}
