//! What a host does with a message.
ghost use Rattle.std.specs.Prelude.{◌≡◌, ℕ, Bool, ◌≤◌, ◌<◌, ◌^◌, ◌==◌, ◌&&◌, ◌∷◌, [], if◌then◌else◌, List, length, Option};
ghost use Rattle.hcp_packet.specs.MessageHeader.{header_of};
ghost use Rattle.pipe_table.specs.PipeRows.{pipe_at};
ghost use Rattle.gate_answers.specs.Answers.{IsCommandMessage, instruction_in, body_in};
ghost use Rattle.node_machine.specs.Carrying.{own_view, end_view};
ghost use Rattle.node_machine.specs.Parts.{Core, Port};
ghost use Rattle.gate_loopback.specs.Loopback.{posts_back};
ghost use Rattle.node_machine.specs.Parts.{Init as InitOf};
ghost use Rattle.node_machine.specs.Parts.Deed.{Sends};
ghost use Rattle.node_machine.specs.HostReplies.{is_gate, ordered_deeds, host_deeds};
ghost use Rattle.node_deeds.specs.Pipes.{gate_in};
ghost use Rattle.node_deeds.specs.Shown.{deeds_shown, init_shown};
ghost use Rattle.node_deeds.specs.Cores.{IsReady, AreDoable};
ghost use Rattle.node_deeds.specs.Hosts.{host_core, handled_by, init_running, host_kind_deeds, IsHostAt};

use crate::answering::{answered, body_in, dropped, link_answered, passed_on};
use crate::controller::GATES;
use crate::deeds::Deeds;
use crate::desks::Desk;
use crate::inits::{Init, Ordered};
use crate::notices::notified;
use crate::pipes::{gate_of_pipe, is_gate};
use crate::responses::heard;
use crate::view::ADMINISTRATION_PIPE;
use gate_answers::{IDENTITY_GATE, LOOPBACK_GATE};
use gate_loopback::posts_back;
use hci_store::Store;
use hci_tables::Tables;
use hcp_packet::{MessageKind, read_header};
use swp_base::Nv;

/// The pipe on which the two ends of a link talk about the link itself.
const LINK_PIPE: u8 = 0x00;

/// What a host has under way. This project's own.
#[derive(Drop)]
pub struct Tasks {
    /// The last command on pipe 01 without a response.
    pub command: Option<Ordered>,
    /// The init that runs.
    pub init: Option<Init>,
}

/// What a host does with a message is put into a list, which is empty, in order. It asks for a store that was started and may be used,
/// a desk of a host from 01 to 07, which is the host's own number, and a pipe that isn't reserved. The store stays as it is (ETSI TS 102 622,
/// sections 6 to 8; what a host notes for itself is this project's own).
pub fn put_host_deeds<N: Nv + Drop>(
    deeds: &mut Deeds,
    store: &mut Store<N>,
    desk: &Desk,
    is_up: bool,
    tasks: &Tasks,
    pipe: u8,
    message: &[u8],
)
    requires ready { IsReady store.old }
    requires some { 1 ≤ desk.now.host }
    requires host { desk.now.host ≤ 7 }
    requires pipe { pipe < 112 }
    requires none { deeds.old.items ≡ [] }
    ensures deeds { (core : Core) (p : Port) → IsHostAt store.old desk.now is_up tasks.now core p
        → deeds_shown (handled_by desk.now.host (init_running tasks.now.init) pipe message.now) deeds.new.items
        ≡ host_deeds (own_view core) (end_view p) (pipe, message.now) }
    ensures doable { AreDoable deeds.new.items }
    ensures unchanged { store.new ≡ store.old }
{
    if is_up {
        heard_of(deeds, store, desk, tasks, pipe, message)
    } else {
        dropped(deeds, pipe)
    }
}

// A message of a link that is up.
fn heard_of<N: Nv + Drop>(
    deeds: &mut Deeds,
    store: &mut Store<N>,
    desk: &Desk,
    tasks: &Tasks,
    pipe: u8,
    message: &[u8],
)
    requires ready { IsReady store.old }
    requires some { 1 ≤ desk.now.host }
    requires host { desk.now.host ≤ 7 }
    requires pipe { pipe < 112 }
    requires none { deeds.old.items ≡ [] }
    ensures deeds { deeds_shown (handled_by desk.now.host (init_running tasks.now.init) pipe message.now) deeds.new.items
        ≡ host_kind_deeds (host_core desk.now.host store.old.journal.state store.old.tables (init_running tasks.now.init))
        desk.now.errors tasks.now.command (pipe, message.now) (header_of message.now) }
    ensures doable { AreDoable deeds.new.items }
    ensures unchanged { store.new ≡ store.old }
{
    match read_header(message) {
        Ok((MessageKind::Command, _instruction)) => commanded(
            deeds,
            store,
            desk.host,
            desk.errors,
            pipe,
            message,
        ),
        Ok((MessageKind::Event, _instruction)) => posted(
            deeds,
            store.tables(),
            desk.host,
            pipe,
            message,
        ),
        Ok((MessageKind::Response, code)) => {
            if pipe == ADMINISTRATION_PIPE {
                heard(deeds, store, desk.host, tasks, code, body_in(message));
            }
        }
        Err(_fault) => {}
    }
}

// A command: one on a pipe to the loopback gate is only noted.
fn commanded<N: Nv + Drop>(
    deeds: &mut Deeds,
    store: &mut Store<N>,
    host: u8,
    errors: u16,
    pipe: u8,
    message: &[u8],
)
    requires ready { IsReady store.old }
    requires some { 1 ≤ host }
    requires host { host ≤ 7 }
    requires pipe { pipe < 112 }
    requires command { IsCommandMessage message.now }
    requires none { deeds.old.items ≡ [] }
    ensures deeds { (init : Option InitOf) → deeds_shown (handled_by host init pipe message.now) deeds.new.items
        ≡ ordered_deeds (own_view (host_core host store.old.journal.state store.old.tables init)) errors pipe
        (instruction_in message.now) (body_in message.now) }
    ensures doable { AreDoable deeds.new.items }
    ensures unchanged { store.new ≡ store.old }
{
    if pipe == ADMINISTRATION_PIPE {
        notified(deeds, store, host, message);
        return;
    }
    if pipe == LINK_PIPE {
        link_answered(deeds, errors, host, pipe, message);
        return;
    }
    if is_gate(IDENTITY_GATE, gate_of_pipe(store.tables(), host, pipe)) {
        answered(deeds, host, pipe, gate_identity::serve(&GATES, message));
    }
}

// An event to the loopback gate goes back.
fn posted(deeds: &mut Deeds, tables: &Tables, host: u8, pipe: u8, message: &[u8])
    requires none { deeds.old.items ≡ [] }
    ensures deeds { (init : Option InitOf) → deeds_shown (handled_by host init pipe message.now) deeds.new.items
        ≡ (if is_gate 4 (gate_in (pipe_at tables.now.rows pipe) host) && posts_back message.now then Sends host (pipe, message.now) ∷ [] else []) }
    ensures doable { AreDoable deeds.new.items }
{
    if is_gate(LOOPBACK_GATE, gate_of_pipe(tables, host, pipe)) && posts_back(message) {
        passed_on(deeds, host);
    }
}
