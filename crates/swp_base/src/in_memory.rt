//! A source and a sink in memory, which fail at the calls that were planned, and move at most so many bytes a call.
ghost use Rattle.std.specs.Prelude.{◌≡◌, ◌<◌, ◌≤◌, ◌↔◌, ◌++◌, min, length, take, drop, [], true, false, Ok, Err, IsTrue, IsErr, IfOk, IfErr, OnErr};
ghost use Rattle.swp_base.specs.Outside.{one_more};
ghost use Rattle.swp_base.specs.InMemory.{is_planned};
ghost use Rattle.swp_base.specs.Endings.{with_read};

use crate::{EndOfInput, Failed, Sink, Source};
use std::marker::Model;

/// A source whose bytes are in memory. It tells what is left. The calls whose numbers, from 1, were planned to fail do
/// so, and no others.
#[derive(Drop)]
pub struct MemSource {
    bytes: Vec<u8>,
    at: usize,
    fails: Vec<u64>,
    piece: u32,
    calls: u64,
    faults: u64,
    end: EndOfInput,
}

impl Model for MemSource {
    ghost use Rattle.std.specs.Prelude.{◌<◌, ◌≤◌, length, drop};
    ghost use Rattle.swp_base.specs.InMemory.{Reading};

    ghost Value = { Reading };

    ghost view = { λ s. record {
      left = drop s.at s.bytes.items;
      fails = s.fails.items;
      piece = s.piece;
      calls = s.calls;
      faults = s.faults;
      end = s.end;
    } };

    ghost invariant = { λ s. (s.at ≤ length s.bytes.items) × (0 < s.piece) };
}

impl MemSource {
    /// A source that has these bytes left. `fails` has the numbers of the calls that fail, and a call reads at most
    /// `piece` bytes.
    pub fn new(bytes: Vec<u8>, fails: Vec<u64>, piece: u32) -> Self
        requires { 0 < piece }
        ensures { result ≡ record {
          left = bytes.items;
          fails = fails.items;
          piece = piece;
          calls = 0;
          faults = 0;
          end = record { ended = false; late = 0; given = 0 };
        } }
    {
        Self {
            bytes,
            at: 0,
            fails,
            piece,
            calls: 0,
            faults: 0,
            end: EndOfInput::new(),
        }
    }

    /// The bytes that are left.
    pub fn left(&self) -> &[u8]
        ensures { result.now ≡ self.now.left }
    {
        &self.bytes[self.at..]
    }
}

impl Source for MemSource {
    ghost faults = { λ s. s.faults };

    ghost tells = { true };

    ghost left = { λ s. s.left };

    ghost end = { λ s. s.end };

    fn read(&mut self, buf: &mut [u8]) -> Result<usize, Failed>
        requires { 0 < length buf.old }
        ensures count { self.old.faults ≤ self.new.faults }
        ensures end { IfOk result (λ n. n ≡ 0 → self.old.left ≡ []) }
        ensures planned { IsErr result ↔ IsTrue (is_planned self.old.fails self.old.calls) }
        ensures moved { IfOk result (λ n.
            n ≡ min (min (length self.old.left) (length buf.old)) self.old.piece) }
        ensures read { IfOk result (λ n. take n buf.new ≡ take n self.old.left) }
        ensures rest { IfOk result (λ n. self.new
            ≡ record self.old { left = drop n self.old.left; calls = one_more self.old.calls; end = with_read self.old.end (Ok n) }) }
        ensures failed { IfErr result (λ why. self.new
            ≡ record self.old { calls = one_more self.old.calls; faults = one_more self.old.faults; end = with_read self.old.end (Err why) }) }
    {
        self.calls = self.calls.saturating_add(1);
        if self.fails.contains(&self.calls) {
            self.faults = self.faults.saturating_add(1);
            self.end.note(Err(Failed));
            return Err(Failed);
        }
        let left = &self.bytes[self.at..];
        let moved = left.len().min(buf.len()).min(self.piece as usize);
        buf[..moved].copy_from_slice(&left[..moved]);
        self.at += moved;
        self.end.note(Ok(moved));
        Ok(moved)
    }
}

/// A sink that keeps what it takes in memory, and tells it. The calls whose numbers, from 1, were planned to fail do
/// so, and no others, but where there is no memory for the bytes.
#[derive(Drop)]
pub struct MemSink {
    bytes: Vec<u8>,
    fails: Vec<u64>,
    piece: u32,
    calls: u64,
    faults: u64,
}

impl Model for MemSink {
    ghost use Rattle.std.specs.Prelude.{◌<◌};
    ghost use Rattle.swp_base.specs.InMemory.{Writing};

    ghost Value = { Writing };

    ghost view = { λ s. record {
      written = s.bytes.items;
      fails = s.fails.items;
      piece = s.piece;
      calls = s.calls;
      faults = s.faults;
    } };

    ghost invariant = { λ s. 0 < s.piece };
}

impl MemSink {
    /// A sink that has taken these bytes. `fails` has the numbers of the calls that fail, and a call writes at most
    /// `piece` bytes.
    pub fn new(bytes: Vec<u8>, fails: Vec<u64>, piece: u32) -> Self
        requires { 0 < piece }
        ensures { result ≡ record {
          written = bytes.items;
          fails = fails.items;
          piece = piece;
          calls = 0;
          faults = 0;
        } }
    {
        Self {
            bytes,
            fails,
            piece,
            calls: 0,
            faults: 0,
        }
    }

    /// The bytes that it took.
    pub fn bytes(&self) -> &[u8]
        ensures { result.now ≡ self.now.written }
    {
        self.bytes.as_slice()
    }
}

impl Sink for MemSink {
    ghost faults = { λ s. s.faults };

    ghost tells = { true };

    ghost written = { λ s. s.written };

    fn write(&mut self, bytes: &[u8]) -> Result<usize, Failed>
        requires { 0 < length bytes.now }
        ensures count { self.old.faults ≤ self.new.faults }
        ensures some { IfOk result (λ n. 0 < n) }
        ensures planned { IsTrue (is_planned self.old.fails self.old.calls) → IsErr result }
        ensures moved { IfOk result (λ n. n ≡ min (length bytes.now) self.old.piece) }
        ensures wrote { IfOk result (λ n. self.new
            ≡ record self.old { written = self.old.written ++ take n bytes.now; calls = one_more self.old.calls }) }
        ensures failed { OnErr result (self.new
            ≡ record self.old { calls = one_more self.old.calls; faults = one_more self.old.faults }) }
    {
        self.calls = self.calls.saturating_add(1);
        let moved = bytes.len().min(self.piece as usize);
        if self.fails.contains(&self.calls)
            || self.bytes.extend_from_slice(&bytes[..moved]).is_err()
        {
            self.faults = self.faults.saturating_add(1);
            return Err(Failed);
        }
        Ok(moved)
    }
}

/// A source whose bytes are in memory, and which never fails. It tells what is left.
#[derive(Drop)]
pub struct SureSource {
    bytes: Vec<u8>,
    at: usize,
    end: EndOfInput,
}

impl Model for SureSource {
    ghost use Rattle.std.specs.Prelude.{◌≤◌, length, drop};
    ghost use Rattle.swp_base.specs.InMemory.{SureReading};

    ghost Value = { SureReading };

    ghost view = { λ s. record { left = drop s.at s.bytes.items; end = s.end } };

    ghost invariant = { λ s. s.at ≤ length s.bytes.items };
}

impl SureSource {
    /// A source that has these bytes left.
    pub fn new(bytes: Vec<u8>) -> Self
        ensures { result ≡ record { left = bytes.items; end = record { ended = false; late = 0; given = 0 } } }
    {
        Self {
            bytes,
            at: 0,
            end: EndOfInput::new(),
        }
    }
}

impl Source for SureSource {
    ghost faults = { λ _. 0 };

    ghost tells = { true };

    ghost left = { λ s. s.left };

    ghost end = { λ s. s.end };

    fn read(&mut self, buf: &mut [u8]) -> Result<usize, Failed>
        ensures moved { result ≡ Ok (min (length self.old.left) (length buf.old)) }
        ensures read { IfOk result (λ n. take n buf.new ≡ take n self.old.left) }
        ensures rest { IfOk result (λ n. self.new ≡ record { left = drop n self.old.left; end = with_read self.old.end (Ok n) }) }
    {
        let left = &self.bytes[self.at..];
        let moved = left.len().min(buf.len());
        buf[..moved].copy_from_slice(&left[..moved]);
        self.at += moved;
        self.end.note(Ok(moved));
        Ok(moved)
    }
}

/// A sink that takes every piece whole and keeps nothing. It never fails, and does not tell what was written.
#[derive(Drop)]
pub struct SureSink;

impl Sink for SureSink {
    ghost faults = { λ _. 0 };

    ghost tells = { false };

    ghost written = { λ _. [] };

    fn write(&mut self, bytes: &[u8]) -> Result<usize, Failed>
        ensures { result ≡ Ok (length bytes.now) }
    {
        Ok(bytes.len())
    }
}
