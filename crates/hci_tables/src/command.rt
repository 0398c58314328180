//! Commands.
use arrayvec::ArrayVec;
use pipe_table::{FIRST_DYNAMIC, FIRST_RESERVED, PipeRow};
use registry::{SESSION_IDENTITY, WHITELIST};
use std::alloc::AllocError;
use whitelist::whitelist_ok;

/// A change of the tables. What it changes is of ETSI TS 102 622, sections 4.4 and 4.5; that changes are such commands is this project's
/// own.
#[derive(Debug, Drop, PartialEq, Eq)]
pub enum Command {
    /// A pipe is created, closed. It joins two different hosts.
    Create(PipeRow),
    /// A pipe is deleted.
    Delete {
        pid: u8,
    },
    /// All pipes of a host are deleted, its static pipes closed, its session identity and whitelist at their defaults.
    Clear {
        host: u8,
    },
    /// A dynamic pipe, or the static pipe 00 or 01 of a host, is opened or closed.
    SetOpened {
        host: u8,
        pid: u8,
        opened: bool,
    },
    /// A parameter of a host is set.
    Set {
        host: u8,
        gate: u8,
        param: u8,
        value: ArrayVec<u8, 20>,
    },
    /// A host's sync identifier is kept. If it isn't the one that was kept, the session identity is at its default again.
    Sync {
        host: u8,
        id: u16,
    },
}

impl Command {
    ghost use Rattle.std.specs.Prelude.{◌≡◌};
    ghost use Rattle.hci_tables.specs.Commands.{is_command};

    /// Whether it may be recorded: its hosts are 00 to 07, 01 to 07 for a parameter or an identifier, its pipe is dynamic,
    /// or static where it is opened or closed, a created pipe is closed and joins two hosts, and a parameter is
    /// SESSION_IDENTITY or WHITELIST of gate 00, with a value that it may have. This project's own.
    pub fn is_recordable(&self) -> bool
        ensures { result ≡ is_command self.now }
    {
        match self {
            Command::Create(row) => is_creation(row),
            Command::Delete { pid } => is_dynamic(*pid),
            Command::Clear { host } => is_host(*host),
            Command::SetOpened { host, pid, .. } => is_opening(*host, *pid),
            Command::Set {
                host,
                gate,
                param,
                value,
            } => is_setting(*host, *gate, *param, value.as_slice()),
            Command::Sync { host, .. } => is_sync_host(*host),
        }
    }

    /// Another command that is equal to it. It takes no memory.
    pub fn copied(&self) -> Self
        ensures { result ≡ self.now }
    {
        match self {
            Command::Create(row) => Command::Create(*row),
            Command::Delete { pid } => Command::Delete { pid: *pid },
            Command::Clear { host } => Command::Clear { host: *host },
            Command::SetOpened { host, pid, opened } => Command::SetOpened {
                host: *host,
                pid: *pid,
                opened: *opened,
            },
            Command::Set {
                host,
                gate,
                param,
                value,
            } => Command::Set {
                host: *host,
                gate: *gate,
                param: *param,
                value: copied_value(value),
            },
            Command::Sync { host, id } => Command::Sync {
                host: *host,
                id: *id,
            },
        }
    }
}

ghost use Rattle.std.specs.Prelude.{◌≡◌, ◌&&◌, ◌==◌, not, nat_le, nat_lt};
ghost use Rattle.registry.specs.Values.{is_kept};
ghost use Rattle.hci_tables.specs.Commands.{is_dynamic, is_host, is_allowed};

pub(crate) fn is_dynamic(pid: u8) -> bool
    ensures { result ≡ is_dynamic pid }
{
    FIRST_DYNAMIC <= pid && pid < FIRST_RESERVED
}

pub(crate) fn is_creation(row: &PipeRow) -> bool
    ensures { result ≡ (is_dynamic row.now.pid && is_host row.now.creator && is_host row.now.dest
        && not (row.now.creator == row.now.dest) && not row.now.opened) }
{
    is_dynamic(row.pid)
        && row.creator <= 7
        && row.dest <= 7
        && row.creator != row.dest
        && !row.opened
}

pub(crate) fn is_host(host: u8) -> bool
    ensures { result ≡ is_host host }
{
    host <= 7
}

pub(crate) fn is_opening(host: u8, pid: u8) -> bool
    ensures { result ≡ (is_host host && nat_lt pid 112) }
{
    host <= 7 && pid < FIRST_RESERVED
}

pub(crate) fn is_sync_host(host: u8) -> bool
    ensures { result ≡ (nat_le 1 host && nat_le host 7) }
{
    1 <= host && host <= 7
}

pub(crate) fn is_setting(host: u8, gate: u8, param: u8, value: &[u8]) -> bool
    ensures { result ≡ (is_kept host gate param && is_allowed host param value.now) }
{
    let kept = 1 <= host
        && host <= 7
        && gate == 0
        && (param == SESSION_IDENTITY || param == WHITELIST);
    kept && is_allowed(host, param, value)
}

/// Whether a kept parameter of a host may have this value: eight bytes for SESSION_IDENTITY, and for WHITELIST at most seven
/// different bytes, none the host's own number (ETSI TS 102 622, section 7.1; what WHITELIST may be is this project's own).
pub fn is_allowed(host: u8, param: u8, value: &[u8]) -> bool
    ensures { result ≡ is_allowed host param value.now }
{
    if param == SESSION_IDENTITY {
        value.len() == 8
    } else {
        whitelist_ok(host, value)
    }
}

impl Clone for Command {
    ghost use Rattle.std.specs.Prelude.{◌≡◌};

    ghost is_clone = { λ a b. b ≡ a };

    fn clone(&self) -> Result<Self, AllocError> {
        Ok(self.copied())
    }
}

// Another value that is equal to it.
fn copied_value(value: &ArrayVec<u8, 20>) -> ArrayVec<u8, 20>
    ensures { result ≡ value.now }
{
    let mut copy = ArrayVec::new();
    let _all = copy.try_extend_from_slice(value.as_slice());
    copy
}
