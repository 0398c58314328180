use crate::shown::same;
use swp_crc::*;

#[test]
fn checksums_of_worked_frames(rt: HostRuntime) {
    let sums = [
        crc(b"123456789"),
        crc(&[0xC1]),
        crc(&[0xE6]),
        crc(&[0x80, 0x81, 0x03]),
        crc(&[0xDD]),
    ];
    same(&rt, &sums, &[0xD64E, 0xD762, 0x83E7, 0x10F3, 0x04DF]);
}

#[test]
fn entries_are_remainders(rt: HostRuntime) {
    let entries = [entry(0x01), entry(0x80), entry(0xFF)];
    same(&rt, &entries, &[0x1021, 0x9188, 0x1EF0]);
}
