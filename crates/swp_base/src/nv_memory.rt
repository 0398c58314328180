//! Memories that keep their bytes over a power cut, themselves kept in memory.
ghost use Rattle.std.specs.Prelude.{◌≡◌, ◌+◌, ◌^◌, ◌<◌, ◌≤◌, ◌↔◌, length, replicate, slice_index, slice_range, true, refl, is_ok, None, Some, Ok, IsTrue};
ghost use Rattle.std.specs.Prelude.{IsErr, IsOk, IfOk, OnOk, OnErr};
ghost use Rattle.swp_base.specs.Outside.{one_more};
ghost use Rattle.swp_base.specs.Told.{planned_is_told, sure_is_told};
ghost use Rattle.swp_base.specs.InMemory.{read_plan_after, ReadsAsPlanned, ReadsSurely, WritesAsPlanned, WritesSurely};

use crate::front::Front;
use crate::{Failed, NoMemory, Nv};
use arrayvec::ArrayVec;
use std::alloc::Global;
use std::marker::Model;

/// The write that fails, and what its range is filled with.
#[derive(Drop)]
struct WritePlan {
    /// 1 is the next write.
    nth: u32,
    fill: ArrayVec<u8, 64>,
}

impl Model for WritePlan {
    ghost use Rattle.std.specs.Prelude.{◌<◌, length};
    ghost use Rattle.swp_base.specs.InMemory.{Plan};

    ghost Value = { Plan };

    ghost view = { λ p. record { nth = p.nth; fill = p.fill.items } };

    ghost invariant = { λ p. (0 < p.nth) × (0 < length p.fill.items) };
}

/// A memory that tells its content, and whose write or read fails where that was planned: the bytes of the write's range
/// are then filled as planned, and a read leaves the memory as it was. No other call fails.
#[derive(Drop)]
pub struct MemNv {
    bytes: Front,
    plan: Option<WritePlan>,
    /// The number of the read that fails, where 1 is the next.
    failing_read: Option<u32>,
    faults: u64,
}

impl Model for MemNv {
    ghost use Rattle.std.specs.Prelude.{◌^◌, ◌<◌, length};
    ghost use Rattle.swp_base.specs.InMemory.{Memory};

    ghost Value = { Memory };

    ghost view = { λ m. record {
      content = m.bytes;
      plan = m.plan;
      failing_read = m.failing_read;
      faults = m.faults;
    } };

    ghost invariant = { λ m. length m.bytes < 2 ^ 32 };
}

impl MemNv {
    /// A memory of `size` bytes, all FF, with no fault planned. It fails only where there is no memory for it.
    pub fn new(alloc: Global, size: u32) -> Result<Self, NoMemory>
        ensures { IfOk result (λ m. m ≡ record {
          content = replicate size 255;
          plan = None;
          failing_read = None;
          faults = 0;
        }) }
    {
        Ok(Self {
            bytes: Front::new(alloc, size)?,
            plan: None,
            failing_read: None,
            faults: 0,
        })
    }

    /// Plans that the `nth` write from now fails, where 1 is the next. Byte i of its range becomes byte i of `fill`,
    /// modulo its length. An earlier plan is given up.
    pub fn arm(&mut self, nth: u32, fill: ArrayVec<u8, 64>)
        requires nth { 0 < nth }
        requires fill { 0 < length fill.items }
        ensures { self.new ≡ record self.old { plan = Some (record { nth = nth; fill = fill.items }) } }
    {
        self.plan = Some(WritePlan { nth, fill });
    }

    /// Plans that the `nth` read from now fails, where 1 is the next. It fails once. An earlier plan for reads is given up.
    pub fn arm_read(&mut self, nth: u32)
        requires { 0 < nth }
        ensures { self.new ≡ record self.old { failing_read = Some nth } }
    {
        self.failing_read = Some(nth);
    }

    /// Counts a call that fails.
    fn count_fault(&mut self) -> Failed
        ensures { self.new ≡ record self.old { faults = one_more self.old.faults } }
    {
        self.faults = self.faults.saturating_add(1);
        Failed
    }
}

impl Nv for MemNv {
    ghost faults = { λ m. m.faults };

    ghost capacity = { λ m. length m.content };

    ghost tells = { true };

    ghost content = { λ m. m.content };

    ghost reads = { ReadsAsPlanned };

    ghost writes = { WritesAsPlanned };

    ghost sized = { λ m tells. refl };

    ghost told = { λ old at bytes ok new tells made. planned_is_told old at bytes ok new made };

    fn size(&self) -> u32 {
        self.bytes.size()
    }

    fn read(&mut self, at: u32, buf: &mut [u8]) -> Result<(), Failed>
        requires { at + length buf.old ≤ length self.old.content }
        ensures count { self.old.faults ≤ self.new.faults }
        ensures bounded { length self.old.content < 2 ^ 32 }
        ensures read { OnOk result (buf.new ≡ slice_range self.old.content at (at + length buf.old)) }
        ensures step { ReadsAsPlanned self.old (is_ok result) self.new }
    {
        let planned = self.failing_read.take();
        self.failing_read = later(planned);
        if planned == Some(1) {
            return Err(self.count_fault());
        }
        self.bytes.read(at as usize, buf);
        Ok(())
    }

    fn write(&mut self, at: u32, bytes: &[u8]) -> Result<(), Failed>
        requires { at + length bytes.now ≤ length self.old.content }
        ensures count { self.old.faults ≤ self.new.faults }
        ensures size { length self.new.content ≡ length self.old.content }
        ensures bounded { length self.old.content < 2 ^ 32 }
        ensures step { WritesAsPlanned self.old at bytes.now (is_ok result) self.new }
    {
        match self.plan.take() {
            Some(plan) if plan.nth == 1 => {
                self.bytes
                    .fill(at as usize, bytes.len(), plan.fill.as_slice());
                return Err(self.count_fault());
            }
            Some(plan) => {
                self.plan = Some(WritePlan {
                    nth: plan.nth - 1,
                    fill: plan.fill,
                });
            }
            None => {}
        }
        self.bytes.write(at as usize, bytes);
        Ok(())
    }
}

/// A memory that tells its content and never fails.
#[derive(Drop)]
pub struct SureNv {
    bytes: Front,
}

impl Model for SureNv {
    ghost use Rattle.std.specs.Prelude.{List, ℕ, ◌^◌, ◌<◌, length};

    ghost Value = { List ℕ };

    ghost view = { λ m. m.bytes };

    ghost invariant = { λ m. length m.bytes < 2 ^ 32 };
}

impl SureNv {
    /// A memory of `size` bytes, all FF. It fails only where there is no memory for it.
    pub fn new(alloc: Global, size: u32) -> Result<Self, NoMemory>
        ensures { IfOk result (λ m. m ≡ replicate size 255) }
    {
        Ok(Self {
            bytes: Front::new(alloc, size)?,
        })
    }
}

impl Nv for SureNv {
    ghost faults = { λ _. 0 };

    ghost capacity = { λ m. length m };

    ghost tells = { true };

    ghost content = { λ m. m };

    ghost reads = { ReadsSurely };

    ghost writes = { WritesSurely };

    ghost sized = { λ m tells. refl };

    ghost told = { λ old at bytes ok new tells made. sure_is_told old at bytes ok new made };

    fn size(&self) -> u32 {
        self.bytes.size()
    }

    fn read(&mut self, at: u32, buf: &mut [u8]) -> Result<(), Failed>
        requires { at + length buf.old ≤ length self.old }
        ensures bounded { length self.old < 2 ^ 32 }
        ensures read { buf.new ≡ slice_range self.old at (at + length buf.old) }
        ensures step { ReadsSurely self.old (is_ok result) self.new }
    {
        self.bytes.read(at as usize, buf);
        Ok(())
    }

    fn write(&mut self, at: u32, bytes: &[u8]) -> Result<(), Failed>
        requires { at + length bytes.now ≤ length self.old }
        ensures size { length self.new ≡ length self.old }
        ensures bounded { length self.old < 2 ^ 32 }
        ensures step { WritesSurely self.old at bytes.now (is_ok result) self.new }
    {
        self.bytes.write(at as usize, bytes);
        Ok(())
    }
}

/// The plan for reads after a read: it is spent by the read that fails, and else one nearer.
fn later(planned: Option<u32>) -> Option<u32>
    ensures { result ≡ read_plan_after planned }
{
    match planned {
        Some(1) | None => None,
        Some(nth) => Some(nth.saturating_sub(1)),
    }
}
