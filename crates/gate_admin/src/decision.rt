//! Decisions.
ghost use Rattle.std.specs.Prelude.{◌≡◌, ◌≤◌, ◌<◌};
ghost use Rattle.gate_answers.specs.Answers.{IsCommandMessage, instruction_in, body_in};
ghost use Rattle.gate_admin.specs.Decide.{IsRecordableDecision, decided};

use crate::body::behind_first;
use crate::parameters::{get, set};
use crate::pipes::{clear, close, create, delete, far_end, is_opened, open};
use crate::view::LinkView;
use gate_answers::{
    ADM_CLEAR_ALL_PIPE, ADM_CREATE_PIPE, ADM_DELETE_PIPE, ANY_CLOSE_PIPE, ANY_GET_PARAMETER,
    ANY_OPEN_PIPE, ANY_SET_PARAMETER, Answer, Notice, Response, instruction_of, refused,
};
use hci_tables::{Command, Tables};

/// What a controller does with a command (ETSI TS 102 622, section 6.1).
#[derive(Debug, Drop, PartialEq, Eq)]
pub enum Decision {
    /// It is answered.
    Answer(Answer),
    /// The tables are changed, it is answered, and the hosts of a mask get a notice.
    Commit {
        command: Command,
        answer: Answer,
        tell: u8,
        notice: Notice,
    },
    /// Another host is asked. When it agrees, the tables are changed and the command is answered.
    Ask {
        host: u8,
        notice: Notice,
        command: Command,
        answer: Answer,
    },
}

/// What a controller does with a command of a host on a pipe: the tests of the pipe, its opening and closing, and all commands of the
/// administration gate (ETSI TS 102 622, sections 6.1 and 8.1; the order of the tests, and when a command is inhibited, are this
/// project's own). It asks for a host from 01 to 07, a pipe below 70, and a message that is a command.
/// Whether there is room for a commit, a host's waiting creation, relays and the other gates aren't looked at here.
pub fn decide(tables: &Tables, view: &LinkView, host: u8, pipe: u8, message: &[u8]) -> Decision
    requires some { 1 ≤ host }
    requires host { host ≤ 7 }
    requires pipe { pipe < 112 }
    requires command { IsCommandMessage message.now }
    ensures decided { result ≡ decided tables.now view.now host pipe (instruction_in message.now) (body_in message.now) }
    ensures recordable { IsRecordableDecision result }
{
    let instruction = instruction_of(message);
    if far_end(tables, host, pipe).is_none() {
        return Decision::Answer(refused(Response::NotConnected));
    }
    if !is_opened(tables, host, pipe) && instruction != ANY_OPEN_PIPE {
        return Decision::Answer(refused(Response::PipeNotOpened));
    }
    let body = behind_first(message);
    match instruction {
        ANY_OPEN_PIPE => open(tables, host, pipe, body),
        ANY_CLOSE_PIPE => close(host, pipe, body),
        ANY_SET_PARAMETER => set(view, host, body),
        ANY_GET_PARAMETER => get(tables, view, host, body),
        ADM_CREATE_PIPE => create(tables, view, host, body),
        ADM_DELETE_PIPE => delete(tables, view, host, body),
        ADM_CLEAR_ALL_PIPE => clear(tables, view, host, body),
        _ => Decision::Answer(refused(Response::CommandNotSupported)),
    }
}
