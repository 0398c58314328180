//! The grammar of link protocol data units, both ways: the control byte of ETSI TS 102 613, sections 9.4, 10.4 and 11,
//! and what stands behind it. The control bytes of activation and of contactless tunnelling are this project's own.
#![tactic(auto)]

ghost use Rattle.std.specs.Prelude.{◌≡◌, ℕ, ◌+◌, ◌/◌, ◌<◌, ◌≤◌, ◌↔◌, Ok, Err, IsTrue, length, slice_index};
ghost use Rattle.swp_base.specs.DataUnits.{IsLpdu};
ghost use Rattle.swp_lpdu.specs.Controls.{control_of, HasNumbers, lpdu_of, kind_number, is_unknown, need_of, is_supervisory};

use arrayvec::ArrayVec;
use swp_base::{Act, Control, Info, Kind, Lpdu};

/// Why an LPDU says nothing.
#[derive(Clone, Copy, Debug, PartialEq, Eq)]
pub enum LpduFault {
    /// No frame has this first byte.
    Unknown { byte: u8 },
    /// It has `got` bytes, and its first byte asks for `need`.
    Short { need: u8, got: u8 },
    /// It has `got` bytes, and a supervisory frame has one.
    TooLong { got: u8 },
}

/// What an LPDU says. Bytes behind those that its first byte asks for are not used, but in a supervisory frame, which
/// has none.
pub fn read_lpdu(lpdu: &Lpdu) -> Result<Control, LpduFault>
    ensures says { result ≡ control_of lpdu.now }
    ensures unknown { (b : ℕ) → (result ≡ Err (LpduFault.Unknown b))
        ↔ (IsTrue (is_unknown b) × (slice_index lpdu.now 0 ≡ b)) }
    ensures short { (need got : ℕ) → (result ≡ Err (LpduFault.Short need got))
        ↔ ((need_of (slice_index lpdu.now 0) ≡ need) × (length lpdu.now ≡ got) × (got < need)) }
    ensures too_long { (got : ℕ) → (result ≡ Err (LpduFault.TooLong got))
        ↔ (IsTrue (is_supervisory (slice_index lpdu.now 0)) × (length lpdu.now ≡ got) × (1 < got)) }
{
    let bytes = lpdu.bytes();
    let got = bytes.len() as u8;
    match bytes[0] {
        byte @ 0x80..=0xBF => {
            if got < 2 {
                return Err(LpduFault::Short { need: 2, got });
            }
            let info = Info::new(&bytes[1..]);
            Ok(Control::I {
                ns: (byte - 0x80) / 8,
                nr: byte % 8,
                info,
            })
        }
        byte @ 0xC0..=0xDF => {
            if got > 1 {
                return Err(LpduFault::TooLong { got });
            }
            Ok(Control::S {
                kind: kind_of(byte),
                nr: byte % 8,
            })
        }
        0xF9 => Ok(Control::Rset {
            window: bytes.get(1).copied().unwrap_or(4),
            caps: bytes.get(2).copied().unwrap_or(0),
        }),
        0xE6 => Ok(Control::Ua),
        0x60..=0x6A => read_act(bytes),
        0x40..=0x5F => Ok(Control::Clt),
        byte => Err(LpduFault::Unknown { byte }),
    }
}

/// What the bytes of an LPDU say whose control byte is 60 to 6A: an activation frame, or nothing.
fn read_act(bytes: &[u8]) -> Result<Control, LpduFault>
    requires sized { IsLpdu bytes.now }
    requires low { 0x60 ≤ slice_index bytes.now 0 }
    requires high { slice_index bytes.now 0 ≤ 0x6A }
    ensures says { result ≡ control_of bytes.now }
    ensures unknown { (b : ℕ) → (result ≡ Err (LpduFault.Unknown b))
        ↔ (IsTrue (is_unknown b) × (slice_index bytes.now 0 ≡ b)) }
    ensures short { (need got : ℕ) → (result ≡ Err (LpduFault.Short need got))
        ↔ ((need_of (slice_index bytes.now 0) ≡ need) × (length bytes.now ≡ got) × (got < need)) }
    ensures too_long { (got : ℕ) → (result ≡ Err (LpduFault.TooLong got))
        ↔ (IsTrue (is_supervisory (slice_index bytes.now 0)) × (length bytes.now ≡ got) × (1 < got)) }
{
    let got = bytes.len() as u8;
    match bytes[0] {
        byte @ (0x60 | 0x68) => Ok(Control::Act {
            act: Act::Ready,
            again: byte == 0x68,
        }),
        byte @ (0x61 | 0x69) => {
            if got < 3 {
                return Err(LpduFault::Short { need: 3, got });
            }
            let id = u16::from_be_bytes([bytes[1], bytes[2]]);
            Ok(Control::Act {
                act: Act::SyncId(id),
                again: byte == 0x69,
            })
        }
        byte @ (0x62 | 0x6A) => {
            if got < 2 {
                return Err(LpduFault::Short { need: 2, got });
            }
            Ok(Control::Act {
                act: Act::PowerMode(bytes[1]),
                again: byte == 0x6A,
            })
        }
        byte => Err(LpduFault::Unknown { byte }),
    }
}

/// The kind of the supervisory frame with this control byte, C0 to DF.
fn kind_of(byte: u8) -> Kind
    requires low { 0xC0 ≤ byte }
    requires high { byte ≤ 0xDF }
    ensures { byte / 8 ≡ 24 + kind_number result }
{
    match (byte / 8) % 4 {
        0 => Kind::Rr,
        1 => Kind::Rej,
        2 => Kind::Rnr,
        _ => Kind::Srej,
    }
}

/// The LPDU that says this, for numbers below 8. A reset has both its bytes, and a frame of contactless tunnelling is
/// the byte 40.
pub fn write_lpdu(control: &Control) -> Lpdu
    requires { HasNumbers control.now }
    ensures bytes { result ≡ lpdu_of control.now }
    ensures read_again { control_of result ≡ Ok control.now }
{
    match control {
        Control::I { ns, nr, info } => write_fragment(*ns, *nr, info),
        Control::S { kind, nr } => Lpdu::new(&[0xC0 + 8 * (*kind as u8) + *nr]),
        Control::Rset { window, caps } => Lpdu::new(&[0xF9, *window, *caps]),
        Control::Ua => Lpdu::new(&[0xE6]),
        Control::Act { act, again } => write_act(*act, *again),
        Control::Clt => Lpdu::new(&[0x40]),
    }
}

/// The LPDU of the I frame with these numbers N(S) and N(R), which are below 8, and this information field (ETSI TS 102 613, section 10.4).
#[inline(always)]
pub fn write_fragment(ns: u8, nr: u8, info: &Info) -> Lpdu
    requires ns { ns < 8 }
    requires nr { nr < 8 }
    ensures bytes { result ≡ lpdu_of (Control.I ns nr info.now) }
    ensures read_again { control_of result ≡ Ok (Control.I ns nr info.now) }
{
    let mut bytes = ArrayVec::new();
    bytes.push(0x80 + 8 * ns + nr);
    let _fits = bytes.try_extend_from_slice(info.bytes());
    Lpdu { bytes }
}

/// The LPDU of an activation frame.
fn write_act(act: Act, again: bool) -> Lpdu
    ensures bytes { result ≡ lpdu_of (Control.Act act again) }
    ensures read_again { control_of result ≡ Ok (Control.Act act again) }
{
    let repeat = if again { 8 } else { 0 };
    match act {
        Act::Ready => Lpdu::new(&[0x60 + repeat]),
        Act::SyncId(id) => {
            let [high, low] = id.to_be_bytes();
            Lpdu::new(&[0x61 + repeat, high, low])
        }
        Act::PowerMode(power) => Lpdu::new(&[0x62 + repeat, power]),
    }
}
