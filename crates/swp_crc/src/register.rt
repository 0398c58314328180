//! A CRC under way.
ghost use Rattle.std.specs.Prelude.{◌≡◌, ◌+◌, ◌++◌, ◌∷◌, [], List, ℕ};
ghost use Rattle.swp_crc.specs.Crc.{crc_of};
ghost use Rattle.swp_crc.specs.Running.{running_of};

use crate::table::{entry, entry_before_one, entry_before_three, entry_before_two};
use std::marker::Model;

/// The CRC of the bytes pushed so far (ETSI TS 102 613, section 9.2).
#[derive(Clone, Copy)]
pub struct Register {
    remainder: u16,
}

impl Model for Register {
    ghost use Rattle.std.specs.Prelude.{ℕ};

    ghost Value = { ℕ };

    ghost view = { λ r. r.remainder };

    ghost inverse = { λ n. record { remainder = n } };
}

impl Register {
    /// A register before the first byte.
    #[inline]
    pub fn new() -> Self
        ensures { result ≡ running_of [] }
    {
        Self { remainder: 0xFFFF }
    }

    /// Goes on by one byte.
    #[inline]
    pub fn push(&mut self, byte: u8)
        ensures { (bytes : List ℕ) → self.old ≡ running_of bytes → self.new ≡ running_of (bytes ++ byte ∷ []) }
    {
        let index = (self.remainder >> 8) as u8 ^ byte;
        self.remainder = (self.remainder << 8) ^ entry(index);
    }

    /// Goes on by four bytes at once.
    #[inline(always)]
    pub fn push_four(&mut self, four: &[u8; 4])
        ensures { (bytes : List ℕ) → self.old ≡ running_of bytes → self.new ≡ running_of (bytes ++ four.now) }
    {
        let [first, second, third, fourth] = *four;
        let high = (self.remainder >> 8) as u8;
        let low = (self.remainder % 256) as u8;
        let last_two = entry_before_one(third) ^ entry(fourth);
        self.remainder = entry_before_three(high ^ first)
            ^ (entry_before_two(low ^ second) ^ last_two);
    }

    /// The CRC of the bytes pushed.
    #[inline]
    pub fn crc(self) -> u16
        ensures { (bytes : List ℕ) → self ≡ running_of bytes → result ≡ crc_of bytes }
    {
        !self.remainder
    }
}
