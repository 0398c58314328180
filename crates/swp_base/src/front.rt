//! A memory of which only the front was written.
ghost use Rattle.std.specs.Prelude.{◌≡◌, ◌+◌, ◌-◌, ◌^◌, ◌<◌, ◌≤◌, ◌++◌, length, replicate, slice_range, vec_capacity, IfOk};
ghost use Rattle.swp_base.specs.Outside.{overwritten};
ghost use Rattle.swp_base.specs.InMemory.{cycled};

use crate::NoMemory;
use std::alloc::Global;
use std::marker::Model;

/// So many bytes. Only the front is held, up to the end of what was written: all behind it are FF. There is room for all bytes
/// from the start, so that no write takes memory.
#[derive(Drop)]
pub(crate) struct Front {
    bytes: Vec<u8>,
    size: u32,
}

impl Model for Front {
    ghost use Rattle.std.specs.Prelude.{List, ℕ, ◌-◌, ◌^◌, ◌<◌, ◌≤◌, ◌++◌, length, replicate, vec_capacity};

    ghost Value = { List ℕ };

    ghost view = { λ f. f.bytes.items ++ replicate (f.size - length f.bytes.items) 255 };

    ghost invariant = { λ f. (length f.bytes.items ≤ f.size) × (f.size ≤ vec_capacity f.bytes) × (f.size < 2 ^ 32) };
}

impl Front {
    /// `size` bytes, all FF. It fails only where there is no memory for them.
    pub(crate) fn new(alloc: Global, size: u32) -> Result<Self, NoMemory>
        ensures { IfOk result (λ f. f ≡ replicate size 255) }
    {
        Ok(Self {
            bytes: Vec::with_capacity(alloc, size as usize)?,
            size,
        })
    }

    /// How many bytes it has.
    pub(crate) fn size(&self) -> u32
        ensures { result ≡ length self.now }
    {
        self.size
    }

    /// Fills the buffer with the bytes from place `at` on.
    pub(crate) fn read(&self, at: usize, buf: &mut [u8])
        requires { at + length buf.old ≤ length self.now }
        ensures { buf.new ≡ slice_range self.now at (at + length buf.old) }
    {
        let written = self.bytes.len();
        let from = at.min(written);
        let held = buf.len().min(written - from);
        buf[..held].copy_from_slice(&self.bytes[from..from + held]);
        buf[held..].fill(0xFF);
    }

    /// Puts the bytes there from place `at` on.
    pub(crate) fn write(&mut self, at: usize, bytes: &[u8])
        requires { at + length bytes.now ≤ length self.old }
        ensures { self.new ≡ overwritten self.old at bytes.now }
    {
        lengthen(&mut self.bytes, at + bytes.len());
        overwrite(self.bytes.as_mut_slice(), at, bytes);
    }

    /// Fills a range with these bytes, over and over.
    pub(crate) fn fill(&mut self, at: usize, len: usize, bytes: &[u8])
        requires range { at + len ≤ length self.old }
        requires some { 0 < length bytes.now }
        ensures filled { self.new ≡ overwritten self.old at (cycled bytes.now len) }
        ensures len { length (cycled bytes.now len) ≡ len }
    {
        lengthen(&mut self.bytes, at + len);
        fill(self.bytes.as_mut_slice(), at, len, bytes);
    }
}

/// Lengthens the front with FF up to this end, where it is shorter.
fn lengthen(front: &mut Vec<u8>, end: usize)
    requires { end ≤ vec_capacity front.old }
    ensures items { front.new.items ≡ front.old.items ++ replicate (end - length front.old.items) 255 }
    ensures capacity { vec_capacity front.old ≤ vec_capacity front.new }
{
    if front.len() < end {
        // within its capacity a vector lengthens without fail
        let _fits = front.resize(end, 0xFF);
    }
}

/// Puts the bytes into the memory from place `at` on.
fn overwrite(memory: &mut [u8], at: usize, bytes: &[u8])
    requires { at + length bytes.now ≤ length memory.old }
    ensures { memory.new ≡ overwritten memory.old at bytes.now }
{
    memory[at..at + bytes.len()].copy_from_slice(bytes);
}

/// Fills a range of the memory with these bytes, over and over.
fn fill(memory: &mut [u8], at: usize, len: usize, bytes: &[u8])
    requires range { at + len ≤ length memory.old }
    requires some { 0 < length bytes.now }
    ensures filled { memory.new ≡ overwritten memory.old at (cycled bytes.now len) }
    ensures len { length (cycled bytes.now len) ≡ len }
{
    for i in 0..len {
        memory[at + i] = bytes[i % bytes.len()];
    }
}
