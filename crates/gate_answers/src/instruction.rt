//! Gates, instructions and notices.
ghost use Rattle.std.specs.Prelude.{◌≡◌, ◌<◌, ◌≤◌, ◌+◌, ◌∷◌, length, Ok};
ghost use Rattle.hcp_packet.specs.MessageHeader.{header_of};
ghost use Rattle.gate_answers.specs.Answers.{instruction_in, IsCommandMessage};

use arrayvec::ArrayVec;

/// The administration gate (ETSI TS 102 622, sections 4.3 and 7.1).
pub const ADMINISTRATION_GATE: u8 = 0x00;

/// The loopback gate (ETSI TS 102 622, sections 4.3, 7.1 and 8.5).
pub const LOOPBACK_GATE: u8 = 0x04;

/// The identity management gate (ETSI TS 102 622, sections 4.3 and 7.1).
pub const IDENTITY_GATE: u8 = 0x05;

/// The link management gate (ETSI TS 102 622, sections 4.3 and 7.1).
pub const LINK_MANAGEMENT_GATE: u8 = 0x06;

/// The command that sets a parameter of a gate's registry (ETSI TS 102 622, section 6.1).
pub const ANY_SET_PARAMETER: u8 = 0x01;

/// The command that reads a parameter of a gate's registry (ETSI TS 102 622, section 6.1).
pub const ANY_GET_PARAMETER: u8 = 0x02;

/// The command that opens a pipe (ETSI TS 102 622, section 6.1).
pub const ANY_OPEN_PIPE: u8 = 0x03;

/// The command that closes a pipe (ETSI TS 102 622, section 6.1).
pub const ANY_CLOSE_PIPE: u8 = 0x04;

/// The command that creates a pipe (ETSI TS 102 622, section 6.1).
pub const ADM_CREATE_PIPE: u8 = 0x10;

/// The command that deletes a pipe (ETSI TS 102 622, section 6.1).
pub const ADM_DELETE_PIPE: u8 = 0x11;

/// The notice that a pipe is to be created (ETSI TS 102 622, section 6.1).
pub const ADM_NOTIFY_PIPE_CREATED: u8 = 0x12;

/// The notice that a pipe was deleted (ETSI TS 102 622, section 6.1).
pub const ADM_NOTIFY_PIPE_DELETED: u8 = 0x13;

/// The command that deletes all pipes of a host (ETSI TS 102 622, section 6.1).
pub const ADM_CLEAR_ALL_PIPE: u8 = 0x14;

/// The notice that all pipes of a host were deleted (ETSI TS 102 622, section 6.1).
pub const ADM_NOTIFY_ALL_PIPE_CLEARED: u8 = 0x15;

/// The event by which a loopback gate is sent data, and sends it back (ETSI TS 102 622, section 6.3).
pub const EVT_POST_DATA: u8 = 0x02;

/// A notice, a whole message: at most eight bytes. That bound is this project's own.
pub type Notice = ArrayVec<u8, 8>;

/// The notice, or another command, of this instruction with this body, as a whole message (ETSI TS 102 622, section 5.2).
pub fn notice(instruction: u8, body: &[u8]) -> Notice
    requires instruction { instruction < 64 }
    requires body { length body.now ≤ 7 }
    ensures message { result.items ≡ instruction ∷ body.now }
    ensures command { IsCommandMessage result.items }
{
    let mut message = ArrayVec::new();
    message.push(instruction);
    let _ = message.try_extend_from_slice(body);
    message
}

/// The instruction of a message that is a command, 00 to 3F (ETSI TS 102 622, section 5.2).
pub fn instruction_of(message: &[u8]) -> u8
    requires { IsCommandMessage message.now }
    ensures { result ≡ instruction_in message.now }
{
    message[0] % 64
}
