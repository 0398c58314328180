//! A flash memory that is itself kept in memory, and fails as planned.
ghost use Rattle.std.specs.Prelude.{◌≡◌, ◌+◌, ◌-◌, ◌*◌, ◌%◌, ◌<◌, ◌≤◌, length, slice_index, slice_range, true, is_ok, None, Some, Ok, IsTrue, not, bit_and};
ghost use Rattle.std.specs.Prelude.{bit_or};
ghost use Rattle.std.specs.Prelude.{IfOk, IfSome, OnOk, OnErr, is_some, if◌then◌else◌};
ghost use Rattle.swp_base.specs.Outside.{one_more};
ghost use Rattle.flash_nv.specs.Cells.{AreCells, IsInPage, IsChanged, programmed, erased};
ghost use Rattle.flash_nv.specs.Pages.{IsClean};
ghost use Rattle.flash_nv.specs.MemCells.{blank, tears_next, tear_after, tear_mask, mixed, torn, partly};

use crate::Flash;
use arrayvec::ArrayVec;
use std::alloc::{AllocError, Global};
use std::marker::Model;
use swp_base::{Failed, NoMemory};

/// How many bytes a flash memory has.
const SIZE: usize = 139_264;

/// The change that fails, and the mask of the bits that take effect.
#[derive(Drop)]
struct TearPlan {
    /// 1 is the next change.
    nth: u32,
    mask: ArrayVec<u8, 64>,
}

impl Model for TearPlan {
    ghost use Rattle.std.specs.Prelude.{◌<◌, length};
    ghost use Rattle.flash_nv.specs.MemCells.{Tear};

    ghost Value = { Tear };

    ghost view = { λ p. record { nth = p.nth; mask = p.mask.items } };

    ghost invariant = { λ p. (0 < p.nth) × (0 < length p.mask.items) };
}

/// A flash memory that tells its bytes. A `program` or an `erase` fails where that was planned, and no other call does.
#[derive(Drop)]
pub struct MemFlash {
    bytes: Vec<u8>,
    tear: Option<TearPlan>,
    faults: u64,
}

impl Model for MemFlash {
    ghost use Rattle.flash_nv.specs.Cells.{AreCells};
    ghost use Rattle.flash_nv.specs.MemCells.{Chip};

    ghost Value = { Chip };

    ghost view = { λ m. record { cells = m.bytes.items; tear = m.tear; faults = m.faults } };

    ghost invariant = { λ m. AreCells m.bytes.items };
}

impl MemFlash {
    /// A memory whose bytes are all FF, with no fault planned. It fails only where there is no memory for it.
    pub fn new(alloc: Global) -> Result<Self, NoMemory>
        ensures blank { IfOk result (λ m. m ≡ record { cells = blank 139264; tear = None; faults = 0 }) }
        ensures clean { IfOk result (λ m. IsClean m.cells) }
    {
        Ok(Self {
            bytes: blank(alloc, SIZE)?,
            tear: None,
            faults: 0,
        })
    }

    /// Plans that the `nth` `program` or `erase` from now fails, where 1 is the next. Of byte i of its range the bits that are
    /// set in byte i of the mask, modulo its length, take effect. An earlier plan is given up.
    pub fn arm(&mut self, nth: u32, mask: ArrayVec<u8, 64>)
        requires nth { 0 < nth }
        requires mask { 0 < length mask.items }
        ensures { self.new ≡ record self.old { tear = Some (record { nth = nth; mask = mask.items }) } }
    {
        self.tear = Some(TearPlan { nth, mask });
    }

    /// Puts these bytes in the place of those from `at` on, or as many of their bits as planned.
    fn change(&mut self, at: usize, whole: &[u8]) -> Result<(), Failed>
        requires { at + length whole.now ≤ 139264 }
        ensures answer { is_ok result ≡ not (tears_next self.old.tear) }
        ensures count { self.old.faults ≤ self.new.faults }
        ensures fault { self.new.faults ≡ (if tears_next self.old.tear then one_more self.old.faults else self.old.faults) }
        ensures err { OnErr result (self.new.faults ≡ one_more self.old.faults) }
        ensures before { AreCells self.old.cells }
        ensures after { AreCells self.new.cells }
        ensures whole_bytes { (i : _) → slice_index whole.now i < 256 }
        ensures mask_bytes { (i : _) → slice_index (tear_mask self.old.tear) i < 256 }
        ensures tear { self.new.tear ≡ tear_after self.old.tear }
        ensures cells { self.new.cells ≡ torn self.old.cells at whole.now (tear_mask self.old.tear) }
    {
        match spend(&mut self.tear) {
            Some(mask) => {
                mix(self.bytes.as_mut_slice(), at, whole, mask.as_slice());
                self.faults = self.faults.saturating_add(1);
                Err(Failed)
            }
            None => {
                mix(self.bytes.as_mut_slice(), at, whole, &[0xFF]);
                Ok(())
            }
        }
    }
}

impl Flash for MemFlash {
    ghost faults = { λ m. m.faults };

    ghost tells = { true };

    ghost cells = { λ m. m.cells };

    fn read(&mut self, at: u32, buf: &mut [u8]) -> Result<(), Failed>
        requires { at + length buf.old ≤ 139264 }
        ensures sized { AreCells self.old.cells }
        ensures read { buf.new ≡ slice_range self.old.cells at (at + length buf.old) }
        ensures sure { IsTrue (is_ok result) }
        ensures kept { self.new ≡ self.old }
    {
        let from = at as usize;
        buf.copy_from_slice(&self.bytes[from..from + buf.len()]);
        Ok(())
    }

    fn program(&mut self, at: u32, bytes: &[u8]) -> Result<(), Failed>
        requires { IsInPage at (length bytes.now) }
        ensures count { self.old.faults ≤ self.new.faults }
        ensures planned { is_ok result ≡ not (tears_next self.old.tear) }
        ensures fault { OnErr result (self.new.faults ≡ one_more self.old.faults) }
        ensures changed { IsChanged (is_ok result) self.old.cells (programmed self.old.cells at bytes.now) self.new.cells }
        ensures masked { self.new.cells ≡ partly self.old.cells at (length bytes.now) (programmed self.old.cells at bytes.now)
            (tear_mask self.old.tear) }
        ensures tear { self.new.tear ≡ tear_after self.old.tear }
        ensures faults { self.new.faults ≡ (if tears_next self.old.tear then one_more self.old.faults else self.old.faults) }
    {
        let from = at as usize;
        let whole = cleared(&self.bytes[from..from + bytes.len()], bytes);
        self.change(from, &whole[..bytes.len()])
    }

    fn erase(&mut self, page: u16) -> Result<(), Failed>
        requires { page < 272 }
        ensures count { self.old.faults ≤ self.new.faults }
        ensures planned { is_ok result ≡ not (tears_next self.old.tear) }
        ensures fault { OnErr result (self.new.faults ≡ one_more self.old.faults) }
        ensures changed { IsChanged (is_ok result) self.old.cells (erased self.old.cells page) self.new.cells }
        ensures masked { self.new.cells ≡ partly self.old.cells (512 * page) 512 (erased self.old.cells page) (tear_mask self.old.tear) }
        ensures tear { self.new.tear ≡ tear_after self.old.tear }
        ensures faults { self.new.faults ≡ (if tears_next self.old.tear then one_more self.old.faults else self.old.faults) }
    {
        self.change(512 * page as usize, &[0xFF; 512])
    }
}

/// The mask of the next change, where it fails. The plan is spent then, and else comes one nearer.
fn spend(tear: &mut Option<TearPlan>) -> Option<ArrayVec<u8, 64>>
    ensures due { is_some result ≡ tears_next tear.old }
    ensures mask { IfSome result (λ m. m.items ≡ tear_mask tear.old) }
    ensures long { IfSome result (λ m. 0 < length m.items) }
    ensures plan { tear.new ≡ tear_after tear.old }
{
    match tear.take() {
        Some(plan) if plan.nth == 1 => Some(plan.mask),
        Some(plan) => {
            *tear = Some(TearPlan {
                nth: plan.nth - 1,
                mask: plan.mask,
            });
            None
        }
        None => None,
    }
}

/// So many bytes, all FF.
fn blank(alloc: Global, len: usize) -> Result<Vec<u8>, AllocError>
    ensures { IfOk result (λ v. v.items ≡ blank len) }
{
    vec![in alloc; 0xFF; len]
}

/// The AND of two lists of bytes, which fit into a page.
fn cleared(old: &[u8], bytes: &[u8]) -> [u8; 512]
    requires old { length old.now ≡ length bytes.now }
    requires room { length bytes.now ≤ 512 }
    ensures bytes { (i : _) → i < length bytes.now
        → slice_index result i ≡ bit_and (slice_index old.now i) (slice_index bytes.now i) }
    ensures len { length result ≡ 512 }
{
    let mut whole = [0; 512];
    for i in 0..bytes.len() {
        whole[i] = old[i] & bytes[i];
    }
    whole
}

/// Puts these bytes in the place of those from `at` on, as far as the bits of the mask go.
fn mix(cells: &mut [u8], at: usize, whole: &[u8], mask: &[u8])
    requires range { at + length whole.now ≤ length cells.old }
    requires mask { 0 < length mask.now }
    ensures torn { cells.new ≡ torn cells.old at whole.now mask.now }
    ensures whole_bytes { (i : _) → slice_index whole.now i < 256 }
    ensures mask_bytes { (i : _) → slice_index mask.now i < 256 }
{
    for i in 0..whole.len() {
        let take = mask[i % mask.len()];
        cells[at + i] = cells[at + i] & !take | whole[i] & take;
    }
}
