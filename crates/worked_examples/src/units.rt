use crate::shown::{same, same_bytes};
use byte_link::{ByteLink, Unit, write_unit};
use std::process::Abort;
use swp_base::{FrameFault, Lpdu};

/// What the last of these bytes gives to a new link.
fn last_of(bytes: &[u8]) -> Unit {
    let mut link = ByteLink::new();
    let mut last = Unit::Nothing;
    for byte in bytes {
        last = link.feed(*byte);
    }
    last
}

/// The last of these bytes gives this to a new link.
fn gives(rt: &impl Abort, bytes: &[u8], unit: Unit) {
    same(rt, &last_of(bytes), &unit);
}

#[test]
fn units_are_read(rt: HostRuntime) {
    let c1 = Lpdu::new(&[0xC1]);
    gives(&rt, &[0x00, 0x01, 0xC1, 0xD7, 0x62], Unit::Frame(c1));
    gives(&rt, &[0x00, 0x00], Unit::Tick);
    let length = FrameFault::Length { bits: 248 };
    gives(&rt, &[0x00, 0x1F], Unit::Refused(length));
    gives(&rt, &[0x00, 0x1F, 0x00, 0x00], Unit::Nothing);
    let differs = FrameFault::Crc {
        want: 0xD762,
        got: 0xD763,
    };
    gives(&rt, &[0x00, 0x01, 0xC1, 0xD7, 0x63], Unit::Refused(differs));
    gives(&rt, &[0x00, 0x01, 0xC1, 0xD7, 0x63, 0x00, 0x00], Unit::Tick);
}

#[test]
fn unit_is_spelled(rt: HostRuntime) {
    let sync = Lpdu::new(&[0x61, 0x00, 0x01]);
    let unit = [0x00, 0x03, 0x61, 0x00, 0x01, 0x8F, 0x19];
    same_bytes(&rt, write_unit(&sync).as_slice(), unit.as_slice());
}
