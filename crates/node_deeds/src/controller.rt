//! What a controller does with a message of a host.
ghost use Rattle.std.specs.Prelude.{◌≡◌, [], ◌≤◌, ◌<◌, ◌==◌, ◌&&◌, List, length, None};
ghost use Rattle.gate_answers.specs.Answers.{IsCommandMessage, instruction_in, body_in};
ghost use Rattle.node_machine.specs.Parts.{Core, Port};
ghost use Rattle.node_machine.specs.Controller.{has_link, gate_deeds, own_gate, goes_through, command_deeds, event_deeds, relay_deeds, view_of};
ghost use Rattle.node_machine.specs.Controller.{is_command_message};
ghost use Rattle.node_machine.specs.Controller.{controller_deeds};
ghost use Rattle.node_deeds.specs.Shown.{ports_shown, deeds_shown, AreSeen};
ghost use Rattle.node_deeds.specs.Cores.{controller_core, handled, IsReady, IsCoreOf, AreDoable, AreSoundDesks};

use crate::answering::{answered, dropped, link_answered, passed_on, refused_on};
use crate::deeds::Deeds;
use crate::desks::{Desk, desk_at};
use crate::pipes::{goes_through, is_gate, own_gate, relayed_to};
use crate::replies::{put_decision, replied};
use crate::view::{ADMINISTRATION_PIPE, errors_at, is_in, is_linked, view_for, waits_for};
use gate_admin::{decide, is_opened};
use gate_answers::{IDENTITY_GATE, LINK_MANAGEMENT_GATE, LOOPBACK_GATE, Response, instruction_of};
use gate_loopback::posts_back;
use hci_store::Store;
use hci_tables::Tables;
use hcp_packet::{MessageKind, read_header};
use swp_base::Nv;

/// GATES_LIST: the loopback gate and the identity gate.
pub(crate) const GATES: [u8; 2] = [LOOPBACK_GATE, IDENTITY_GATE];

/// What a controller does with a message of a host is put into a list, which is empty, in order. It asks for a store that was started
/// and may be used, at most seven desks, a host from 01 to 07 and a pipe that isn't reserved. In the mask `up` bit h stands for host h:
/// its link is up. The store stays as it is (ETSI TS 102 622, sections 6.1 and 8.1; that relays, creations that wait and room are looked at in
/// this order is this project's own).
pub fn put_controller_deeds<N: Nv + Drop>(
    deeds: &mut Deeds,
    store: &mut Store<N>,
    desks: &[Desk],
    up: u8,
    host: u8,
    pipe: u8,
    message: &[u8],
)
    requires ready { IsReady store.old }
    requires few { length desks.now ≤ 7 }
    requires sound { AreSoundDesks desks.now }
    requires some { 1 ≤ host }
    requires host { host ≤ 7 }
    requires pipe { pipe < 112 }
    requires none { deeds.old.items ≡ [] }
    ensures deeds { (core : Core) (ports : List Port) → IsCoreOf store.old core → AreSeen up desks.now ports
        → deeds_shown (handled pipe message.now) deeds.new.items ≡ controller_deeds (view_of core ports) host (pipe, message.now) }
    ensures doable { AreDoable deeds.new.items }
    ensures unchanged { store.new ≡ store.old }
{
    if let Some(other) = relayed_to(store.tables(), host, pipe, message) {
        relayed(deeds, desks, up, host, other, pipe, message);
        return;
    }
    let Some(desk) = desk_at(desks, host) else {
        dropped(deeds, pipe);
        return;
    };
    if !is_in(up, desk.host) {
        dropped(deeds, pipe);
        return;
    }
    match read_header(message) {
        // A command of a host whose creation waits is dropped on pipe 01.
        Ok((MessageKind::Command, _instruction)) => {
            if pipe == ADMINISTRATION_PIPE && desks.iter().any(|desk| waits_for(desk, host)) {
                dropped(deeds, pipe)
            } else {
                commanded(deeds, store, desks, up, host, pipe, message)
            }
        }
        Ok((MessageKind::Event, _instruction)) => posted(
            deeds,
            store.tables(),
            host,
            pipe,
            message,
        ),
        Ok((MessageKind::Response, code)) => {
            if pipe == ADMINISTRATION_PIPE {
                replied(deeds, store, desk, code)
            } else {
                dropped(deeds, pipe)
            }
        }
        Err(_fault) => dropped(deeds, pipe),
    }
}

// A message that is for another host. A command that can't go there is answered, where its own link is up.
fn relayed(deeds: &mut Deeds, desks: &[Desk], up: u8, host: u8, other: u8, pipe: u8, message: &[u8])
    requires pipe { pipe < 112 }
    requires none { deeds.old.items ≡ [] }
    ensures deeds { deeds_shown (handled pipe message.now) deeds.new.items
        ≡ relay_deeds (has_link (ports_shown up desks.now)) host (pipe, message.now) other (has_link (ports_shown up desks.now) other) }
    ensures doable { AreDoable deeds.new.items }
{
    if is_linked(desks, up, other) {
        passed_on(deeds, other);
        return;
    }
    if is_linked(desks, up, host) && is_command(message) {
        refused_on(deeds, host, pipe, Response::NotConnected);
        return;
    }
    dropped(deeds, pipe)
}

fn is_command(message: &[u8]) -> bool
    ensures { result ≡ is_command_message message.now }
{
    matches!(read_header(message), Ok((MessageKind::Command, _)))
}

// A command of a host: one of its gates serves it, or the administration gate decides.
fn commanded<N: Nv + Drop>(
    deeds: &mut Deeds,
    store: &mut Store<N>,
    desks: &[Desk],
    up: u8,
    host: u8,
    pipe: u8,
    message: &[u8],
)
    requires ready { IsReady store.old }
    requires few { length desks.now ≤ 7 }
    requires some { 1 ≤ host }
    requires host { host ≤ 7 }
    requires pipe { pipe < 112 }
    requires command { IsCommandMessage message.now }
    requires none { deeds.old.items ≡ [] }
    ensures deeds { deeds_shown (handled pipe message.now) deeds.new.items
        ≡ command_deeds (view_of (controller_core store.old.journal.state store.old.tables) (ports_shown up desks.now)) host pipe
        (instruction_in message.now) (body_in message.now) }
    ensures doable { AreDoable deeds.new.items }
    ensures unchanged { store.new ≡ store.old }
{
    let tables = store.tables();
    let gate = if goes_through(tables, host, pipe, instruction_of(message)) {
        own_gate(tables, host, pipe)
    } else {
        None
    };
    match gate {
        Some(gate) => served(deeds, errors_at(desks, host), host, pipe, gate, message),
        // The administration gate decides.
        None => {
            let view = view_for(store.tables(), desks, up, host);
            let decision = decide(store.tables(), &view, host, pipe, message);
            put_decision(deeds, store, host, pipe, decision)
        }
    }
}

// A command to a gate of the controller but administration, on a pipe that is opened.
fn served(deeds: &mut Deeds, errors: u16, host: u8, pipe: u8, gate: u8, message: &[u8])
    requires pipe { pipe < 112 }
    requires command { IsCommandMessage message.now }
    requires none { deeds.old.items ≡ [] }
    ensures deeds { deeds_shown (handled pipe message.now) deeds.new.items
        ≡ gate_deeds gate errors host pipe (instruction_in message.now) (body_in message.now) }
    ensures doable { AreDoable deeds.new.items }
{
    match gate {
        LINK_MANAGEMENT_GATE => link_answered(deeds, errors, host, pipe, message),
        IDENTITY_GATE => answered(deeds, host, pipe, gate_identity::serve(&GATES, message)),
        _ => refused_on(deeds, host, pipe, Response::CommandNotSupported),
    }
}

// An event to the loopback gate goes back.
fn posted(deeds: &mut Deeds, tables: &Tables, host: u8, pipe: u8, message: &[u8])
    requires none { deeds.old.items ≡ [] }
    ensures deeds { deeds_shown (handled pipe message.now) deeds.new.items ≡ event_deeds tables.now host (pipe, message.now) }
    ensures doable { AreDoable deeds.new.items }
{
    if is_opened(tables, host, pipe)
        && is_gate(LOOPBACK_GATE, own_gate(tables, host, pipe))
        && posts_back(message)
    {
        passed_on(deeds, host)
    } else {
        dropped(deeds, pipe)
    }
}
