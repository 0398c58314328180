//! Response codes and answers.
ghost use Rattle.std.specs.Prelude.{◌≡◌, ◌<◌, ◌≤◌, length, []};
ghost use Rattle.gate_answers.specs.Answers.{code_of, answer_of};

use arrayvec::ArrayVec;
use hcp_packet::{MessageKind, write_header};

/// How a command was answered (ETSI TS 102 622, section 6.2).
#[derive(Clone, Copy, Debug, PartialEq, Eq)]
pub enum Response {
    /// ANY_OK, 00.
    Ok,
    /// ANY_E_NOT_CONNECTED, 01.
    NotConnected,
    /// ANY_E_CMD_PAR_UNKNOWN, 02.
    CommandParameterUnknown,
    /// ANY_E_NOK, 03.
    NotOk,
    /// ADM_E_NO_PIPES_AVAILABLE, 04.
    NoPipesAvailable,
    /// ANY_E_REG_PAR_UNKNOWN, 05.
    RegistryParameterUnknown,
    /// ANY_E_PIPE_NOT_OPENED, 06.
    PipeNotOpened,
    /// ANY_E_CMD_NOT_SUPPORTED, 07.
    CommandNotSupported,
    /// ANY_E_INHIBITED, 08.
    Inhibited,
    /// ANY_E_TIMEOUT, 09.
    Timeout,
    /// ANY_E_REG_ACCESS_DENIED, 0A.
    RegistryAccessDenied,
    /// ANY_E_PIPE_ACCESS_DENIED, 0B.
    PipeAccessDenied,
}

impl Response {
    /// Its code, 00 to 0B (ETSI TS 102 622, section 6.2).
    pub fn code(self) -> u8
        ensures code { result ≡ code_of self }
        ensures small { result < 12 }
    {
        match self {
            Response::Ok => 0x00,
            Response::NotConnected => 0x01,
            Response::CommandParameterUnknown => 0x02,
            Response::NotOk => 0x03,
            Response::NoPipesAvailable => 0x04,
            Response::RegistryParameterUnknown => 0x05,
            Response::PipeNotOpened => 0x06,
            Response::CommandNotSupported => 0x07,
            Response::Inhibited => 0x08,
            Response::Timeout => 0x09,
            Response::RegistryAccessDenied => 0x0A,
            Response::PipeAccessDenied => 0x0B,
        }
    }
}

/// An answer, a whole message: at most 24 bytes. That bound is this project's own.
pub type Answer = ArrayVec<u8, 24>;

/// The answer of this code that carries these bytes, as a whole message (ETSI TS 102 622, section 6.2).
pub fn answer(response: Response, value: &[u8]) -> Answer
    requires { length value.now ≤ 23 }
    ensures { result.items ≡ answer_of response value.now }
{
    let mut message = ArrayVec::new();
    message.push(write_header(MessageKind::Response, response.code()));
    let _ = message.try_extend_from_slice(value);
    message
}

/// The answer of this code alone (ETSI TS 102 622, section 6.2).
pub fn refused(response: Response) -> Answer
    ensures { result.items ≡ answer_of response [] }
{
    answer(response, &[])
}
