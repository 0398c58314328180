//! Worked examples of whitelists.
use crate::shown::same;
use std::process::Abort;
use whitelist::{holds, whitelist_ok};

/// A value is a whitelist of host 02, or isn't.
fn is_whitelist(rt: &impl Abort, value: &[u8], ok: bool) {
    same(rt, &(value, whitelist_ok(0x02, value)), &(value, ok));
}

#[test]
fn whitelists_are_told(rt: HostRuntime) {
    is_whitelist(&rt, &[], true);
    is_whitelist(&rt, &[0x02], false);
    is_whitelist(&rt, &[0x01], true);
    is_whitelist(&rt, &[0x03, 0x01], true);
    is_whitelist(&rt, &[0x03, 0x01, 0x03], false);
    is_whitelist(&rt, &[0x00, 0xFF, 0x01], true);
    is_whitelist(&rt, &[0x01, 0x03, 0x04, 0x05, 0x06, 0x07, 0x08], true);
    is_whitelist(
        &rt,
        &[0x00, 0x01, 0x03, 0x04, 0x05, 0x06, 0x07, 0x08],
        false,
    );
    let held = [holds(&[0x01, 0x03], 0x03), holds(&[0x01, 0x03], 0x02)];
    same(&rt, &held, &[true, false]);
}
