//! The 16-bit CRC of a frame: division of its bits by x^16 + x^12 + x^5 + 1, most significant bit first, the first 16
//! bits and the remainder complemented (ETSI TS 102 613, section 9.2; start value, bit order and complement are this
//! project's own).
#![tactic(auto)]

mod register;
mod table;

ghost use Rattle.std.specs.Prelude.{◌≡◌};
ghost use Rattle.swp_crc.specs.Crc.{crc_of};

pub use register::Register;
pub use table::entry;

/// The CRC of these bytes (ETSI TS 102 613, section 9.2).
pub fn crc(bytes: &[u8]) -> u16
    ensures { result ≡ crc_of bytes.now }
{
    let mut register = Register::new();
    let mut read = 0;
    'fours: while let Some((four, _)) = bytes[read..].split_first_chunk::<4>() {
        register.push_four(four);
        read += 4;
    }
    for byte in &bytes[read..] {
        register.push(*byte);
    }
    register.crc()
}
