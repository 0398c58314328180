//! Worked examples of registries.
ghost use Rattle.std.specs.Prelude.{IsTrue};
ghost use Rattle.registry.specs.Values.{is_kept};

use crate::shown::{same, same_bytes};
use registry::{Access, Registry, SESSION_IDENTITY, WHITELIST, access_of};
use std::process::Abort;

/// A parameter of a gate may be used so.
fn allows(rt: &impl Abort, gate: u8, param: u8, access: Access) {
    same(
        rt,
        &(gate, param, access_of(gate, param)),
        &(gate, param, access),
    );
}

#[test]
fn gates_have_their_parameters(rt: HostRuntime) {
    allows(&rt, 0x00, 0x01, Access::ReadWrite);
    allows(&rt, 0x00, 0x02, Access::ReadOnly);
    allows(&rt, 0x00, 0x03, Access::ReadWrite);
    allows(&rt, 0x00, 0x04, Access::ReadOnly);
    allows(&rt, 0x00, 0x05, Access::Unknown);
    allows(&rt, 0x00, 0x00, Access::Unknown);
    allows(&rt, 0x05, 0x00, Access::Unknown);
    allows(&rt, 0x05, 0x01, Access::ReadOnly);
    allows(&rt, 0x05, 0x06, Access::ReadOnly);
    allows(&rt, 0x05, 0x07, Access::Unknown);
    allows(&rt, 0x06, 0x01, Access::ReadWrite);
    allows(&rt, 0x06, 0x02, Access::Unknown);
    allows(&rt, 0x04, 0x01, Access::Unknown);
}

/// The registry has this value of a parameter of gate 00.
fn has(rt: &impl Abort, registry: &Registry, host: u8, param: u8, value: &[u8])
    requires { IsTrue (is_kept host 0 param) }
{
    same_bytes(rt, registry.get(host, 0x00, param).as_slice(), value);
}

#[test]
fn a_value_equal_to_its_default_is_absent(rt: HostRuntime) {
    let mut registry = Registry::new();
    has(&rt, &registry, 0x02, SESSION_IDENTITY, &[0xFF; 8]);
    registry.set(0x02, 0x00, WHITELIST, &[0x01]);
    registry.set(0x02, 0x00, SESSION_IDENTITY, &[0x11; 8]);
    registry.set(0x01, 0x00, WHITELIST, &[0x02, 0x03]);
    let set = registry.values().len();
    has(&rt, &registry, 0x02, SESSION_IDENTITY, &[0x11; 8]);
    registry.set(0x02, 0x00, SESSION_IDENTITY, &[0xFF; 8]);
    let set_back = registry.values().len();
    registry.clear_host(0x02);
    let cleared = registry.values().len();
    same(&rt, &[set, set_back, cleared], &[3, 2, 1]);
    has(&rt, &registry, 0x02, WHITELIST, &[]);
    has(&rt, &registry, 0x01, WHITELIST, &[0x02, 0x03]);
}
