//! The link management gate (ETSI TS 102 622, sections 4.3 and 7.1): the register REC_ERROR of one end.
#![tactic(auto)]

ghost use Rattle.std.specs.Prelude.{◌≡◌, ◌==◌, not, if◌then◌else◌, length, option_map, Some, None};
ghost use Rattle.gate_answers.specs.Answers.{IsCommandMessage, instruction_in, body_in, value_in, answer_of, first_of};
ghost use Rattle.gate_link.specs.Link.{link_served, tests_to_set_errors, count_bytes, count_in};

use arrayvec::ArrayVec;
use gate_answers::{
    ANY_GET_PARAMETER, ANY_SET_PARAMETER, LINK_MANAGEMENT_GATE, Response, answer, instruction_of,
    refusal_to_get, refusal_to_set, refused,
};

/// Answers a command on a pipe to the link management gate of an end whose REC_ERROR is `errors`. The second answer is
/// REC_ERROR's new value, where the command sets it (ETSI TS 102 622, section 7.1; that it has two bytes is this project's own). It asks
/// for a message that is a command.
pub fn serve(errors: u16, message: &[u8]) -> (ArrayVec<u8, 24>, Option<u16>)
    requires { IsCommandMessage message.now }
    ensures answer { result.0.items ≡ (link_served errors (instruction_in message.now) (body_in message.now)).0 }
    ensures set { result.1 ≡ (link_served errors (instruction_in message.now) (body_in message.now)).1 }
{
    let body = &message[1..];
    match instruction_of(message) {
        ANY_SET_PARAMETER => match refusal(body) {
            Some(response) => (refused(response), None),
            None => (refused(Response::Ok), Some(count_in(body))),
        },
        ANY_GET_PARAMETER => match refusal_to_get(LINK_MANAGEMENT_GATE, body) {
            Some(response) => (refused(response), None),
            None => (answer(Response::Ok, &errors.to_be_bytes()), None),
        },
        _ => (refused(Response::CommandNotSupported), None),
    }
}

// Why REC_ERROR isn't set: a value has two bytes.
fn refusal(body: &[u8]) -> Option<Response>
    ensures { result ≡ first_of (tests_to_set_errors body.now) }
{
    match refusal_to_set(LINK_MANAGEMENT_GATE, body) {
        Some(response) => Some(response),
        None if body.len() != 3 => Some(Response::CommandParameterUnknown),
        None => None,
    }
}

// The count that a body of three bytes sets.
fn count_in(body: &[u8]) -> u16
    requires { length body.now ≡ 3 }
    ensures { result ≡ count_in (value_in body.now) }
{
    u16::from_be_bytes([body[1], body[2]])
}
