//! The frame of an LPDU, bit by bit.
ghost use Rattle.std.specs.Prelude.{ℕ, Bool, List, [], ◌∷◌, ◌++◌, ◌≡◌, ◌+◌, ◌≤◌, length, take, map, ◌==◌};
ghost use Rattle.swp_base.specs.Bits.{bits_of_byte};
ghost use Rattle.swp_frame.specs.Stuffing.{frame_of, run_below_five};
ghost use Rattle.swp_frame.specs.Writing.{byte_of_bit, WritesOn};

use arrayvec::ArrayVec;
use swp_base::Lpdu;
use swp_crc::crc;

/// The bits of one frame in the order in which they are sent (ETSI TS 102 613, section 9.2), at most 323.
#[derive(Drop)]
pub struct FrameBits {
    pub bits: ArrayVec<bool, 336>,
}

/// The bytes that stand for the two bits where a frame is written in bytes, one for each bit.
#[derive(Clone, Copy, Debug, PartialEq, Eq)]
pub struct BitBytes {
    pub zero: u8,
    pub one: u8,
}

/// The frame of an LPDU, in the one spelling that this project writes: a 0 is put in after each five 1 bits in a row of the
/// LPDU and its CRC, also where the fifth is the last bit (ETSI TS 102 613, section 9.2; the latter is this project's own).
pub fn write_frame(lpdu: &Lpdu) -> FrameBits
    ensures frame { result.bits.items ≡ frame_of lpdu.now }
    ensures sized { length result.bits.items ≤ 323 }
{
    let mut written: ArrayVec<u8, 336> = ArrayVec::new();
    append_frame(lpdu, BitBytes { zero: 0, one: 1 }, &mut written);
    let bytes = written.as_slice();
    let bools = bools_of(bytes);
    let mut bits = ArrayVec::new();
    append(&bools[..bytes.len()], &mut bits);
    FrameBits { bits }
}

/// Appends the frame of an LPDU as `write_frame` spells it, at most 323 bits, a byte for each.
pub fn append_frame<const N: usize>(lpdu: &Lpdu, bit_bytes: BitBytes, out: &mut ArrayVec<u8, N>)
    requires room { length out.old.items + 323 ≤ N }
    ensures written { out.new.items ≡ out.old.items ++ map (byte_of_bit bit_bytes) (frame_of lpdu.now) }
    ensures sized { length out.new.items ≤ length out.old.items + 323 }
{
    let BitBytes { zero, one } = bit_bytes;
    append(&[zero, one, one, one, one, one, one, zero], out);
    let mut ones = 0;
    for byte in lpdu.bytes() {
        ones = append_byte(bit_bytes, ones, *byte, out);
    }
    let [high, low] = crc(lpdu.bytes()).to_be_bytes();
    let ones = append_byte(bit_bytes, ones, high, out);
    let _ones = append_byte(bit_bytes, ones, low, out);
    append(&[zero, one, one, one, one, one, one, one], out);
}

/// Appends items for which there is room.
#[inline(always)]
fn append<T: Copy, const N: usize>(items: &[T], out: &mut ArrayVec<T, N>)
    requires room { length out.old.items + length items.now ≤ N }
    ensures { out.new.items ≡ out.old.items ++ items.now }
{
    let _fits = out.try_extend_from_slice(items);
}

/// Appends the bits of a byte of a content, where so many 1 bits in a row stand before it. It answers how many stand behind it.
#[inline(always)]
fn append_byte<const N: usize>(
    bit_bytes: BitBytes,
    ones: u8,
    byte: u8,
    out: &mut ArrayVec<u8, N>,
) -> u8
    requires few { ones ≤ 4 }
    requires room { length out.old.items + 16 ≤ N }
    ensures { WritesOn bit_bytes ones (bits_of_byte byte) result out.old.items out.new.items }
{
    match run_behind(ones, byte) {
        Some(run) => {
            append(&bytes_of_byte(bit_bytes, byte), out);
            run
        }
        None => append_bits(bit_bytes, ones, byte, out),
    }
}

/// The 1 bits in a row at the end of a byte, where so many stand before it; none where the fifth in a row is among its bits.
#[inline(always)]
fn run_behind(ones: u8, byte: u8) -> Option<u8>
    requires { ones ≤ 4 }
    ensures { result ≡ run_below_five ones (bits_of_byte byte) }
{
    // The 1 bits that stand before it, and the byte.
    let all = (((1u32 << ones) - 1) << 8) + u32::from(byte);
    let two = all & (all >> 1);
    let four = two & (two >> 2);
    let five = four & (all >> 4);
    if five == 0 {
        Some(all.trailing_ones() as u8)
    } else {
        None
    }
}

/// The bits of a byte, the most significant first.
#[inline(always)]
fn bytes_of_byte(bit_bytes: BitBytes, byte: u8) -> [u8; 8]
    ensures { result ≡ map (byte_of_bit bit_bytes) (bits_of_byte byte) }
{
    [
        bit_bytes.of((byte >> 7) & 1 == 1),
        bit_bytes.of((byte >> 6) & 1 == 1),
        bit_bytes.of((byte >> 5) & 1 == 1),
        bit_bytes.of((byte >> 4) & 1 == 1),
        bit_bytes.of((byte >> 3) & 1 == 1),
        bit_bytes.of((byte >> 2) & 1 == 1),
        bit_bytes.of((byte >> 1) & 1 == 1),
        bit_bytes.of(byte & 1 == 1),
    ]
}

impl BitBytes {
    /// The byte that stands for a bit.
    #[inline(always)]
    fn of(self, bit: bool) -> u8
        ensures { result ≡ byte_of_bit self bit }
    {
        if bit { self.one } else { self.zero }
    }
}

/// Appends the bits of a byte of a content one by one.
#[inline(never)]
fn append_bits<const N: usize>(
    bit_bytes: BitBytes,
    ones: u8,
    byte: u8,
    out: &mut ArrayVec<u8, N>,
) -> u8
    requires few { ones ≤ 4 }
    requires room { length out.old.items + 16 ≤ N }
    ensures { WritesOn bit_bytes ones (bits_of_byte byte) result out.old.items out.new.items }
{
    let mut run = ones;
    for place in 0..8u8 {
        run = append_bit(bit_bytes, run, (byte >> (7 - place)) & 1 == 1, out);
    }
    run
}

/// Appends a bit of a content, and a 0 behind the fifth 1 bit in a row.
fn append_bit<const N: usize>(
    bit_bytes: BitBytes,
    ones: u8,
    bit: bool,
    out: &mut ArrayVec<u8, N>,
) -> u8
    requires few { ones ≤ 4 }
    requires room { length out.old.items + 2 ≤ N }
    ensures { WritesOn bit_bytes ones (bit ∷ []) result out.old.items out.new.items }
{
    out.push(bit_bytes.of(bit));
    if !bit {
        return 0;
    }
    if ones < 4 {
        return ones + 1;
    }
    out.push(bit_bytes.zero);
    0
}

/// Which of these bytes are 1, at the front of an array.
#[inline(always)]
fn bools_of(bytes: &[u8]) -> [bool; 336]
    requires few { length bytes.now ≤ 336 }
    ensures { take (length bytes.now) result ≡ map (λ byte. byte == 1) bytes.now }
{
    let mut bools = [false; 336];
    for (place, byte) in bytes.iter().enumerate() {
        bools[place] = *byte == 1;
    }
    bools
}
