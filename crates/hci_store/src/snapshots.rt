//! The snapshot of tables.
ghost use Rattle.std.specs.Prelude.{◌≡◌, ◌+◌, ◌*◌, ◌≤◌, [], ◌∷◌, ◌++◌, length, map, filter, All};
ghost use Rattle.journal_laws.specs.Records.{used};
ghost use Rattle.hci_tables.specs.Commands.{IsCommand};
ghost use Rattle.hci_tables.specs.Bodies.{body_of};
ghost use Rattle.hci_tables.specs.Tables.{AreTables};
ghost use Rattle.hci_store.specs.Recordable.{IsRecordable};
ghost use Rattle.hci_store.specs.Snapshots.{snapshot_of, sync_command, set_command, create_command, open_command, static_command};

use arrayvec::ArrayVec;
use hci_tables::{Command, Tables, write_command};
use nv_journal::Snapshot;
use pipe_table::PipeRow;
use registry::RegValue;

// Appends the record of a command.
fn push(snapshot: &mut Snapshot, command: &Command)
    requires command { IsCommand command.now }
    requires room { used snapshot.old + length (body_of command.now) + 4 ≤ 2560 }
    ensures records { snapshot.new ≡ snapshot.old ++ body_of command.now ∷ [] }
    ensures used { used snapshot.new ≡ used snapshot.old + 4 + length (body_of command.now) }
{
    let body = write_command(command);
    snapshot.push(body.as_slice());
}

// The kept sync identifiers.
fn push_syncs(snapshot: &mut Snapshot, syncs: &[(u8, u16)])
    requires may { All (λ s. IsCommand (sync_command s)) syncs.now }
    requires room { used snapshot.old + 8 * length syncs.now ≤ 2560 }
    ensures records { snapshot.new ≡ snapshot.old ++ map (λ s. body_of (sync_command s)) syncs.now }
    ensures used { used snapshot.new ≡ used snapshot.old + 8 * length syncs.now }
{
    for sync in syncs {
        let (host, id) = *sync;
        push(snapshot, &Command::Sync { host, id });
    }
}

// The values of the registry.
fn push_values(snapshot: &mut Snapshot, values: &[RegValue])
    requires may { All (λ v. IsCommand (set_command v)) values.now }
    requires room { used snapshot.old + 28 * length values.now ≤ 2560 }
    ensures records { snapshot.new ≡ snapshot.old ++ map (λ v. body_of (set_command v)) values.now }
    ensures used { used snapshot.new ≤ used snapshot.old + 28 * length values.now }
{
    for value in values {
        push_value(snapshot, value);
    }
}

// A value of the registry.
fn push_value(snapshot: &mut Snapshot, value: &RegValue)
    requires may { IsCommand (set_command value.now) }
    requires room { used snapshot.old + 28 ≤ 2560 }
    ensures records { snapshot.new ≡ snapshot.old ++ body_of (set_command value.now) ∷ [] }
    ensures used { used snapshot.new ≤ used snapshot.old + 28 }
{
    let mut bytes = ArrayVec::new();
    let _ = bytes.try_extend_from_slice(value.value.as_slice());
    push(
        snapshot,
        &Command::Set {
            host: value.host,
            gate: value.gate,
            param: value.param,
            value: bytes,
        },
    );
}

// The rows, closed.
fn push_rows(snapshot: &mut Snapshot, rows: &[PipeRow])
    requires may { All (λ r. IsCommand (create_command r)) rows.now }
    requires room { used snapshot.old + 10 * length rows.now ≤ 2560 }
    ensures records { snapshot.new ≡ snapshot.old ++ map (λ r. body_of (create_command r)) rows.now }
    ensures used { used snapshot.new ≡ used snapshot.old + 10 * length rows.now }
{
    for row in rows {
        push(snapshot, &Command::Create(row.as_opened(false)));
    }
}

// The opened rows, each under its creator.
fn push_opened(snapshot: &mut Snapshot, rows: &[PipeRow])
    requires may { All (λ r. IsCommand (open_command r)) rows.now }
    requires room { used snapshot.old + 8 * length rows.now ≤ 2560 }
    ensures records { snapshot.new ≡ snapshot.old
        ++ map (λ r. body_of (open_command r)) (filter (λ r. r.opened) rows.now) }
    ensures used { used snapshot.new ≤ used snapshot.old + 8 * length rows.now }
{
    for row in rows {
        if row.opened {
            push(
                snapshot,
                &Command::SetOpened {
                    host: row.creator,
                    pid: row.pid,
                    opened: true,
                },
            );
        }
    }
}

// The opened static pipes.
fn push_statics(snapshot: &mut Snapshot, statics: &[(u8, u8)])
    requires may { All (λ s. IsCommand (static_command s)) statics.now }
    requires room { used snapshot.old + 8 * length statics.now ≤ 2560 }
    ensures records { snapshot.new ≡ snapshot.old ++ map (λ s. body_of (static_command s)) statics.now }
    ensures used { used snapshot.new ≡ used snapshot.old + 8 * length statics.now }
{
    for static_pipe in statics {
        let (host, pid) = *static_pipe;
        push(
            snapshot,
            &Command::SetOpened {
                host,
                pid,
                opened: true,
            },
        );
    }
}

/// The snapshot of tables whose commands may be recorded: it takes at most 2,556 bytes in a bank.
pub fn snapshot_of(tables: &Tables) -> Snapshot
    requires { IsRecordable tables.now }
    ensures records { result ≡ map body_of (snapshot_of tables.now) }
    ensures tables { AreTables tables.now }
    ensures room { used result ≤ 2560 }
{
    let mut snapshot = Snapshot::new();
    push_syncs(&mut snapshot, tables.syncs());
    push_values(&mut snapshot, tables.registry().values());
    push_rows(&mut snapshot, tables.pipes().rows());
    push_opened(&mut snapshot, tables.pipes().rows());
    push_statics(&mut snapshot, tables.statics());
    snapshot
}
