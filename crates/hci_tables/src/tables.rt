//! The tables.
ghost use Rattle.std.specs.Prelude.{◌≡◌, ◌≤◌, if◌then◌else◌};
ghost use Rattle.hci_tables.specs.Tables.{without_identity};

use crate::Command;
use crate::statics::{self, Statics};
use crate::syncs::{self, Syncs};
use arrayvec::ArrayVec;
use pipe_table::{FIRST_DYNAMIC, PipeTable};
use registry::{Registry, SESSION_IDENTITY};
use std::alloc::AllocError;
use std::marker::Model;

// The session identity of a host stays, or is at its default again.
fn keep_identity(registry: &mut Registry, host: u8, kept: bool)
    requires some { 1 ≤ host }
    requires host { host ≤ 7 }
    ensures { registry.new ≡ (if kept then registry.old else without_identity registry.old host) }
{
    if !kept {
        registry.set(host, 0x00, SESSION_IDENTITY, &[0xFF; 8]);
    }
}

/// What a node keeps: the dynamic pipes, the opened static pipes, the hosts' registries and their sync identifiers (ETSI TS 102 622,
/// sections 4.4 and 4.5; the sync identifiers are this project's own).
#[derive(Debug, Drop, PartialEq, Eq)]
pub struct Tables {
    pipes: PipeTable,
    statics: Statics,
    registry: Registry,
    syncs: Syncs,
}

impl Model for Tables {
    ghost use Rattle.hci_tables.specs.Tables.{HciTables, static_place, sync_host};
    ghost use Rattle.sorted_rows.specs.Rows.{AreRows};

    ghost Value = { HciTables };

    ghost view = { λ t. record { rows = t.pipes; statics = t.statics.items; values = t.registry; syncs = t.syncs.items } };

    ghost invariant = { λ t. AreRows static_place 0 16 t.statics.items × AreRows sync_host 1 8 t.syncs.items };

    ghost inverse = { λ t. record { pipes = t.rows; statics = record { items = t.statics }; registry = t.values; syncs = record { items = t.syncs } } };
}

impl Tables {
    ghost use Rattle.std.specs.Prelude.{◌≡◌, ◌≤◌, ◌<◌};
    ghost use Rattle.hci_tables.specs.Commands.{IsCommand};
    ghost use Rattle.sorted_rows.specs.Rows.{AreRows};
    ghost use Rattle.hci_tables.specs.Tables.{no_tables, static_place, sync_host, is_kept_sync, apply, close};

    /// No pipes, no static pipe opened, all parameters at their defaults, no identifier kept.
    pub fn new() -> Tables
        ensures { result ≡ no_tables }
    {
        Tables {
            pipes: PipeTable::new(),
            statics: ArrayVec::new(),
            registry: Registry::new(),
            syncs: ArrayVec::new(),
        }
    }

    /// The dynamic pipes (ETSI TS 102 622, section 4.4).
    pub fn pipes(&self) -> &PipeTable
        ensures { result.now ≡ self.now.rows }
    {
        &self.pipes
    }

    /// The hosts' registries (ETSI TS 102 622, section 4.5).
    pub fn registry(&self) -> &Registry
        ensures { result.now ≡ self.now.values }
    {
        &self.registry
    }

    /// The opened static pipes, as pairs of host and pipe, sorted (ETSI TS 102 622, section 4.4).
    pub fn statics(&self) -> &[(u8, u8)]
        ensures statics { result.now ≡ self.now.statics }
        ensures sorted { AreRows static_place 0 16 self.now.statics }
    {
        self.statics.as_slice()
    }

    /// The sync identifiers that are kept, as pairs of host and identifier, sorted. That they are kept is this project's own.
    pub fn syncs(&self) -> &[(u8, u16)]
        ensures syncs { result.now ≡ self.now.syncs }
        ensures sorted { AreRows sync_host 1 8 self.now.syncs }
    {
        self.syncs.as_slice()
    }

    /// Whether this is the sync identifier that is kept of a host. This project's own.
    pub fn is_kept(&self, host: u8, id: u16) -> bool
        ensures { result ≡ is_kept_sync self.now.syncs host id }
    {
        syncs::is_kept(self.syncs.as_slice(), host, id)
    }

    /// Does what a command says. It asks for a command that may be recorded.
    pub fn apply(&mut self, command: &Command)
        requires { IsCommand command.now }
        ensures { self.new ≡ apply self.old command.now }
    {
        match command {
            Command::Create(row) => self.pipes.insert(row.as_opened(false)),
            Command::Delete { pid } => {
                self.pipes.remove(*pid);
            }
            Command::Clear { host } => self.clear(*host),
            Command::SetOpened { host, pid, opened } if *pid < FIRST_DYNAMIC => self.set_static(
                *host, *pid, *opened,
            ),
            Command::SetOpened { pid, opened, .. } => {
                self.pipes.set_opened(*pid, *opened);
            }
            Command::Set {
                host,
                gate,
                param,
                value,
            } => self.registry.set(*host, *gate, *param, value.as_slice()),
            Command::Sync { host, id } => self.sync(*host, *id),
        }
    }

    fn clear(&mut self, host: u8)
        ensures { self.new ≡ apply self.old (Command.Clear host) }
    {
        self.pipes.clear_host(host);
        statics::close_host(&mut self.statics, host);
        self.registry.clear_host(host);
    }

    fn set_static(&mut self, host: u8, pid: u8, opened: bool)
        requires host { host ≤ 7 }
        requires pipe { pid < 2 }
        ensures { self.new ≡ apply self.old (Command.SetOpened host pid opened) }
    {
        if opened {
            statics::open(&mut self.statics, host, pid);
        } else {
            statics::close(&mut self.statics, host, pid);
        }
    }

    fn sync(&mut self, host: u8, id: u16)
        requires some { 1 ≤ host }
        requires host { host ≤ 7 }
        ensures { self.new ≡ apply self.old (Command.Sync host id) }
    {
        let kept = syncs::is_kept(self.syncs.as_slice(), host, id);
        keep_identity(&mut self.registry, host, kept);
        syncs::keep(&mut self.syncs, host, id);
    }

    /// Closes every pipe, static ones too, as a node finds them when it boots. This project's own.
    pub fn close(&mut self)
        ensures { self.new ≡ close self.old }
    {
        self.pipes.close();
        self.statics.clear();
    }
}

impl Clone for Tables {
    ghost use Rattle.std.specs.Prelude.{◌≡◌};

    ghost is_clone = { λ a b. b ≡ a };

    fn clone(&self) -> Result<Self, AllocError> {
        Ok(Tables {
            pipes: self.pipes.clone()?,
            statics: self.statics.clone()?,
            registry: self.registry.clone()?,
            syncs: self.syncs.clone()?,
        })
    }
}
