//! The tests of the commands that read and set a parameter, the same for each gate.
ghost use Rattle.std.specs.Prelude.{◌≡◌};
ghost use Rattle.gate_answers.specs.Answers.{first_of, tests_to_set, tests_to_get};

use crate::Response;
use registry::{Access, access_of};

/// Why ANY_SET_PARAMETER with this body is refused at a gate, whatever the value: the body is empty, the gate has no such
/// parameter, or it may only be read (ETSI TS 102 622, section 6.1). That they are tested in this order is this project's own.
pub fn refusal_to_set(gate: u8, body: &[u8]) -> Option<Response>
    ensures { result ≡ first_of (tests_to_set gate body.now) }
{
    let Some(param) = body.first().copied() else {
        return Some(Response::CommandParameterUnknown);
    };
    match access_of(gate, param) {
        Access::Unknown => Some(Response::RegistryParameterUnknown),
        Access::ReadOnly => Some(Response::RegistryAccessDenied),
        Access::ReadWrite => None,
    }
}

/// Why ANY_GET_PARAMETER with this body is refused at a gate: the body isn't one byte, or the gate has no such parameter
/// (ETSI TS 102 622, section 6.1). That they are tested in this order is this project's own.
pub fn refusal_to_get(gate: u8, body: &[u8]) -> Option<Response>
    ensures { result ≡ first_of (tests_to_get gate body.now) }
{
    let [param] = body else {
        return Some(Response::CommandParameterUnknown);
    };
    match access_of(gate, *param) {
        Access::Unknown => Some(Response::RegistryParameterUnknown),
        _ => None,
    }
}
