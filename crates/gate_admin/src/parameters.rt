//! The parameters of the administration gate.
ghost use Rattle.std.specs.Prelude.{◌≡◌, ◌≤◌, ◌∷◌};
ghost use Rattle.gate_admin.specs.View.{is_configured, hosts_where};
ghost use Rattle.gate_admin.specs.Decide.{IsRecordableDecision, setting, getting};

use crate::body::{behind_first, byte_at};
use crate::decision::Decision;
use crate::view::LinkView;
use arrayvec::ArrayVec;
use gate_answers::{
    ADMINISTRATION_GATE, Notice, Response, answer, refusal_to_get, refusal_to_set, refused,
};
use hci_tables::{Command, Tables, is_allowed};
use registry::{HOST_LIST, MAX_PIPE, SESSION_IDENTITY, WHITELIST};

/// The value of MAX_PIPE: the most dynamic pipes.
const MAX_PIPE_VALUE: u8 = 0x6E;

/// ANY_SET_PARAMETER of the administration gate.
pub(crate) fn set(view: &LinkView, host: u8, body: &[u8]) -> Decision
    requires some { 1 ≤ host }
    requires host { host ≤ 7 }
    ensures decided { result ≡ setting view.now host body.now }
    ensures recordable { IsRecordableDecision result }
{
    if let Some(response) = refusal_to_set(ADMINISTRATION_GATE, body) {
        return Decision::Answer(refused(response));
    }
    let param = byte_at(body, 0);
    if !is_allowed(host, param, behind_first(body)) {
        return Decision::Answer(refused(Response::CommandParameterUnknown));
    }
    if param == WHITELIST && view.is_asked(host) {
        return Decision::Answer(refused(Response::Inhibited));
    }
    let mut value = ArrayVec::new();
    let _ = value.try_extend_from_slice(behind_first(body));
    Decision::Commit {
        command: Command::Set {
            host,
            gate: ADMINISTRATION_GATE,
            param,
            value,
        },
        answer: refused(Response::Ok),
        tell: 0,
        notice: Notice::new(),
    }
}

/// ANY_GET_PARAMETER of the administration gate.
pub(crate) fn get(tables: &Tables, view: &LinkView, host: u8, body: &[u8]) -> Decision
    requires some { 1 ≤ host }
    requires host { host ≤ 7 }
    ensures decided { result ≡ getting tables.now view.now host body.now }
    ensures recordable { IsRecordableDecision result }
{
    if let Some(response) = refusal_to_get(ADMINISTRATION_GATE, body) {
        return Decision::Answer(refused(response));
    }
    match byte_at(body, 0) {
        MAX_PIPE => Decision::Answer(answer(Response::Ok, &[MAX_PIPE_VALUE])),
        HOST_LIST => Decision::Answer(answer(Response::Ok, host_list(view).as_slice())),
        param @ (SESSION_IDENTITY | WHITELIST) => {
            let value = tables.registry().get(host, ADMINISTRATION_GATE, param);
            Decision::Answer(answer(Response::Ok, value.as_slice()))
        }
        _ => Decision::Answer(answer(Response::Ok, &[])),
    }
}

// The controller and the configured hosts.
fn host_list(view: &LinkView) -> ArrayVec<u8, 20>
    ensures { result.items ≡ 0 ∷ hosts_where (is_configured view.now) }
{
    let mut hosts = ArrayVec::new();
    hosts.push(0);
    for host in 1..8 {
        if view.is_configured(host) {
            hosts.push(host);
        }
    }
    hosts
}
