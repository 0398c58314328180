//! Where a pipe leads, and which messages go on to another host.
ghost use Rattle.std.specs.Prelude.{◌≡◌};
ghost use Rattle.node_machine.specs.Controller.{own_gate, goes_through, relayed_to};
ghost use Rattle.pipe_table.specs.PipeRows.{pipe_at};
ghost use Rattle.node_machine.specs.HostReplies.{is_gate};
ghost use Rattle.node_deeds.specs.Pipes.{gate_in};

use gate_admin::{far_end, is_opened};
use gate_answers::{ADMINISTRATION_GATE, ANY_CLOSE_PIPE, ANY_OPEN_PIPE};
use hci_tables::Tables;
use hcp_packet::{MessageKind, read_header};

/// The gate of the controller, but administration, at which a pipe of a host ends.
pub(crate) fn own_gate(tables: &Tables, host: u8, pipe: u8) -> Option<u8>
    ensures { result ≡ own_gate tables.now host pipe }
{
    match far_end(tables, host, pipe) {
        Some((end_host, gate)) if end_host == 0 && gate != ADMINISTRATION_GATE => Some(gate),
        _ => None,
    }
}

/// A command is neither ANY_OPEN_PIPE nor ANY_CLOSE_PIPE, and its pipe is opened.
pub(crate) fn goes_through(tables: &Tables, host: u8, pipe: u8, instruction: u8) -> bool
    ensures { result ≡ goes_through tables.now host pipe instruction }
{
    is_opened(tables, host, pipe)
        && !(instruction == ANY_OPEN_PIPE || instruction == ANY_CLOSE_PIPE)
}

/// The other host, where a message on an opened pipe is for it: a command that opens or closes a pipe isn't.
#[inline(always)]
pub(crate) fn relayed_to(tables: &Tables, host: u8, pipe: u8, message: &[u8]) -> Option<u8>
    ensures { result ≡ relayed_to tables.now host (pipe, message.now) }
{
    let opens_or_closes = matches!(
        read_header(message),
        Ok((MessageKind::Command, ANY_OPEN_PIPE | ANY_CLOSE_PIPE))
    );
    if !is_opened(tables, host, pipe) || opens_or_closes {
        return None;
    }
    match far_end(tables, host, pipe) {
        Some((other, _gate)) if other != 0 => Some(other),
        _ => None,
    }
}

/// Whether this is the gate.
pub(crate) fn is_gate(gate: u8, at: Option<u8>) -> bool
    ensures { result ≡ is_gate gate at }
{
    match at {
        Some(number) => number == gate,
        None => false,
    }
}

/// The gate of this host at which a dynamic pipe ends that another one made.
pub(crate) fn gate_of_pipe(tables: &Tables, host: u8, pipe: u8) -> Option<u8>
    ensures { result ≡ gate_in (pipe_at tables.now.rows pipe) host }
{
    match tables.pipes().find(pipe) {
        Some(row) if row.dest == host => Some(row.dest_gate),
        _ => None,
    }
}
