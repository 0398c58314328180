//! What a host does with a command of its controller on pipe 01.
ghost use Rattle.std.specs.Prelude.{◌≡◌, [], ◌≤◌, ◌<◌, ◌==◌, ◌&&◌, Option};
ghost use Rattle.hci_tables.specs.Commands.{IsCommand};
ghost use Rattle.gate_answers.specs.Answers.{IsCommandMessage, instruction_in, body_in};
ghost use Rattle.node_machine.specs.Carrying.{own_view};
ghost use Rattle.node_machine.specs.Parts.{Init as InitOf};
ghost use Rattle.node_machine.specs.HostReplies.{accepts, is_open_gate, is_welcome, pipe_named_in, pipe_created, pipe_deleted, pipes_cleared, notified_deeds};
ghost use Rattle.node_deeds.specs.Shown.{Handling, deeds_shown};
ghost use Rattle.node_deeds.specs.Cores.{IsReady, AreDoable};
ghost use Rattle.node_deeds.specs.Hosts.{host_core};

use crate::answering::{body_in, refused_on};
use crate::deeds::{Deed, Deeds};
use crate::view::ADMINISTRATION_PIPE;
use gate_answers::{
    ADM_NOTIFY_ALL_PIPE_CLEARED, ADM_NOTIFY_PIPE_CREATED, ADM_NOTIFY_PIPE_DELETED, IDENTITY_GATE,
    LOOPBACK_GATE, Response, instruction_of, refused,
};
use hci_store::Store;
use hci_tables::Command;
use pipe_table::{FIRST_DYNAMIC, FIRST_RESERVED, PipeRow};
use swp_base::Nv;

/// The first gate that a host may give a use of its own.
const FIRST_FREE_GATE: u8 = 0x10;

/// A command of the controller on pipe 01.
pub(crate) fn notified<N: Nv + Drop>(
    deeds: &mut Deeds,
    store: &mut Store<N>,
    host: u8,
    message: &[u8],
)
    requires ready { IsReady store.old }
    requires some { 1 ≤ host }
    requires host { host ≤ 7 }
    requires command { IsCommandMessage message.now }
    requires none { deeds.old.items ≡ [] }
    ensures deeds { (a : Handling) (init : Option InitOf) → deeds_shown a deeds.new.items
        ≡ notified_deeds (own_view (host_core host store.old.journal.state store.old.tables init)) (instruction_in message.now) (body_in message.now) }
    ensures doable { AreDoable deeds.new.items }
    ensures unchanged { store.new ≡ store.old }
{
    let body = body_in(message);
    match instruction_of(message) {
        ADM_NOTIFY_PIPE_CREATED => pipe_created(deeds, store, host, body),
        ADM_NOTIFY_PIPE_DELETED => pipe_deleted(deeds, store, host, body),
        ADM_NOTIFY_ALL_PIPE_CLEARED => pipes_cleared(deeds, store, host, body),
        _ => refused_on(
            deeds,
            host,
            ADMINISTRATION_PIPE,
            Response::CommandNotSupported,
        ),
    }
}

// A command is committed and answered by ANY_OK.
fn accepts<N: Nv + Drop>(deeds: &mut Deeds, store: &mut Store<N>, host: u8, command: Command)
    requires ready { IsReady store.old }
    requires command { IsCommand command }
    requires none { deeds.old.items ≡ [] }
    ensures deeds { (a : Handling) (init : Option InitOf) → deeds_shown a deeds.new.items
        ≡ accepts (own_view (host_core host store.old.journal.state store.old.tables init)) command }
    ensures doable { AreDoable deeds.new.items }
    ensures unchanged { store.new ≡ store.old }
{
    if store.room(&command) {
        deeds.push(Deed::Commits(command));
        deeds.push(Deed::Sends {
            host,
            pipe: ADMINISTRATION_PIPE,
            message: refused(Response::Ok),
        });
        deeds.push(Deed::SaysOk);
    } else {
        refused_on(deeds, host, ADMINISTRATION_PIPE, Response::NotOk)
    }
}

// ADM_NOTIFY_PIPE_CREATED.
fn pipe_created<N: Nv + Drop>(deeds: &mut Deeds, store: &mut Store<N>, host: u8, body: &[u8])
    requires ready { IsReady store.old }
    requires host { host ≤ 7 }
    requires none { deeds.old.items ≡ [] }
    ensures deeds { (a : Handling) (init : Option InitOf) → deeds_shown a deeds.new.items
        ≡ pipe_created (own_view (host_core host store.old.journal.state store.old.tables init)) body.now }
    ensures doable { AreDoable deeds.new.items }
    ensures unchanged { store.new ≡ store.old }
{
    match pipe_named_in(body) {
        Some(row) => {
            if is_welcome(host, &row) {
                accepts(deeds, store, host, Command::Create(row))
            } else {
                refused_on(deeds, host, ADMINISTRATION_PIPE, Response::NotOk)
            }
        }
        None => refused_on(deeds, host, ADMINISTRATION_PIPE, Response::NotOk),
    }
}

/// The pipe that two ends and a number name, as a notice and an answer carry them.
pub(crate) fn pipe_named_in(body: &[u8]) -> Option<PipeRow>
    ensures { result ≡ pipe_named_in body.now }
{
    match body {
        [creator, creator_gate, dest, dest_gate, pid] => Some(PipeRow {
            pid: *pid,
            creator: *creator,
            creator_gate: *creator_gate,
            dest: *dest,
            dest_gate: *dest_gate,
            opened: false,
        }),
        _ => None,
    }
}

// A pipe that another host made to this one may be taken.
fn is_welcome(own: u8, row: &PipeRow) -> bool
    ensures { result ≡ is_welcome own row.now }
{
    let ends = row.creator <= 7 && row.creator != own && row.dest == own;
    ends && is_open_gate(row.dest_gate) && FIRST_DYNAMIC <= row.pid && row.pid < FIRST_RESERVED
}

fn is_open_gate(gate: u8) -> bool
    ensures { result ≡ is_open_gate gate }
{
    gate == LOOPBACK_GATE || gate == IDENTITY_GATE || FIRST_FREE_GATE <= gate
}

// ADM_NOTIFY_PIPE_DELETED: a pipe that the host doesn't keep is answered too.
fn pipe_deleted<N: Nv + Drop>(deeds: &mut Deeds, store: &mut Store<N>, host: u8, body: &[u8])
    requires ready { IsReady store.old }
    requires none { deeds.old.items ≡ [] }
    ensures deeds { (a : Handling) (init : Option InitOf) → deeds_shown a deeds.new.items
        ≡ pipe_deleted (own_view (host_core host store.old.journal.state store.old.tables init)) body.now }
    ensures doable { AreDoable deeds.new.items }
    ensures unchanged { store.new ≡ store.old }
{
    match body {
        [pid] => {
            if store.tables().pipes().find(*pid).is_some() {
                accepts(deeds, store, host, Command::Delete { pid: *pid })
            } else {
                refused_on(deeds, host, ADMINISTRATION_PIPE, Response::Ok)
            }
        }
        _ => refused_on(
            deeds,
            host,
            ADMINISTRATION_PIPE,
            Response::CommandParameterUnknown,
        ),
    }
}

// ADM_NOTIFY_ALL_PIPE_CLEARED.
fn pipes_cleared<N: Nv + Drop>(deeds: &mut Deeds, store: &mut Store<N>, host: u8, body: &[u8])
    requires ready { IsReady store.old }
    requires none { deeds.old.items ≡ [] }
    ensures deeds { (a : Handling) (init : Option InitOf) → deeds_shown a deeds.new.items
        ≡ pipes_cleared (own_view (host_core host store.old.journal.state store.old.tables init)) body.now }
    ensures doable { AreDoable deeds.new.items }
    ensures unchanged { store.new ≡ store.old }
{
    match body {
        [cleared] if *cleared <= 7 => accepts(
            deeds,
            store,
            host,
            Command::Clear { host: *cleared },
        ),
        _ => refused_on(
            deeds,
            host,
            ADMINISTRATION_PIPE,
            Response::CommandParameterUnknown,
        ),
    }
}
