//! The identity management gate (ETSI TS 102 622, sections 4.3 and 7.1). What it says of itself is this project's own.
#![tactic(auto)]

ghost use Rattle.std.specs.Prelude.{◌≡◌, ◌≤◌, length};
ghost use Rattle.gate_answers.specs.Answers.{IsCommandMessage, instruction_in, body_in};
ghost use Rattle.gate_identity.specs.Identity.{identity_served, identity_value};

use arrayvec::ArrayVec;
use gate_answers::{
    ANY_GET_PARAMETER, ANY_SET_PARAMETER, IDENTITY_GATE, Response, answer, instruction_of,
    refusal_to_get, refusal_to_set, refused,
};

/// The parameters VERSION_SW and VERSION_HARD: 01.00.00.
const VERSION: [u8; 3] = [0x01, 0x00, 0x00];

/// The parameter VENDOR_NAME: `SWP HCI` in ASCII.
const VENDOR_NAME: [u8; 7] = [0x53, 0x57, 0x50, 0x20, 0x48, 0x43, 0x49];

/// Answers a command on a pipe to the identity management gate of a host that has these gates (ETSI TS 102 622, section 7.1; the values
/// of its parameters are this project's own). It asks for at most 23 gates and for a message that is a command.
pub fn serve(gates: &[u8], message: &[u8]) -> ArrayVec<u8, 24>
    requires few { length gates.now ≤ 23 }
    requires command { IsCommandMessage message.now }
    ensures { result.items ≡ identity_served gates.now (instruction_in message.now) (body_in message.now) }
{
    let body = &message[1..];
    match instruction_of(message) {
        ANY_SET_PARAMETER => refused(refusal_to_set(IDENTITY_GATE, body).unwrap_or(
            Response::RegistryAccessDenied,
        )),
        ANY_GET_PARAMETER => match refusal_to_get(IDENTITY_GATE, body) {
            Some(response) => refused(response),
            None => answer(Response::Ok, value_of(gates, body[0])),
        },
        _ => refused(Response::CommandNotSupported),
    }
}

// The value of a parameter.
fn value_of(gates: &[u8], param: u8) -> &[u8]
    ensures value { result.now ≡ identity_value gates.now param }
    ensures sized { length gates.now ≤ 23 → length result.now ≤ 23 }
{
    match param {
        0x01 => &VERSION,
        0x02 => &[0x02],
        0x03 => &VERSION,
        0x04 => &VENDOR_NAME,
        0x05 => &[0x01],
        _ => gates,
    }
}
