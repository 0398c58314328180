//! What a controller knows of its links as it handles a message.
ghost use Rattle.std.specs.Prelude.{◌≡◌, ◌≤◌, ◌<◌, ◌^◌, if◌then◌else◌, length};
ghost use Rattle.std.specs.List.{filter_map};
ghost use Rattle.gate_admin.specs.View.{has};
ghost use Rattle.node_machine.specs.Controller.{has_link, view_for};
ghost use Rattle.node_deeds.specs.Shown.{ports_shown, row_waits_for, awaited_pipe};
ghost use Rattle.node_deeds.specs.Desks.{configured_by, connected_by, noticed_by, asked_in, asked_by, errors_by};

use crate::desks::{About, Desk, Unanswered, desk_at};
use arrayvec::ArrayVec;
use gate_admin::{LinkView, is_opened};
use hci_tables::Tables;

/// The pipe on which a host and the controller's administration gate talk.
pub(crate) const ADMINISTRATION_PIPE: u8 = 0x01;

/// Whether a host is in a mask.
pub(crate) fn is_in(mask: u8, host: u8) -> bool
    ensures { result ≡ has mask host }
{
    1 <= host && host <= 7 && (mask >> host) % 2 == 1
}

/// Whether the link with a host is up.
pub(crate) fn is_linked(desks: &[Desk], up: u8, host: u8) -> bool
    ensures { result ≡ has_link (ports_shown up desks.now) host }
{
    match desk_at(desks, host) {
        Some(desk) => is_in(up, desk.host),
        None => false,
    }
}

/// REC_ERROR of the end of the link with a host.
pub(crate) fn errors_at(desks: &[Desk], host: u8) -> u16
    ensures { result ≡ errors_by desks.now host }
{
    match desk_at(desks, host) {
        Some(desk) => desk.errors,
        None => 0,
    }
}

/// Whether a creation that this host asked for waits for the host of this desk.
pub(crate) fn waits_for(desk: &Desk, host: u8) -> bool
    ensures { result ≡ row_waits_for host desk.now }
{
    match desk.awaited() {
        Some(row) => row.creator == host,
        None => false,
    }
}

// What a controller knows of one host.
#[derive(Clone, Copy)]
struct HostView {
    configured: bool,
    connected: bool,
    noticed: bool,
    asked: bool,
}

fn host_view(tables: &Tables, desks: &[Desk], up: u8, host: u8) -> HostView
    ensures configured { result.configured ≡ configured_by desks.now host }
    ensures connected { result.connected ≡ connected_by tables.now up desks.now host }
    ensures noticed { result.noticed ≡ noticed_by desks.now host }
    ensures asked { result.asked ≡ asked_by desks.now host }
{
    match desk_at(desks, host) {
        Some(desk) => HostView {
            configured: true,
            connected: is_in(up, desk.host) && is_opened(tables, desk.host, ADMINISTRATION_PIPE),
            noticed: desk.notice.is_some(),
            asked: is_asked_for(desk.notice),
        },
        None => HostView {
            configured: false,
            connected: false,
            noticed: false,
            asked: false,
        },
    }
}

// A notice of a creation, also of one that was forgotten.
fn is_asked_for(notice: Option<Unanswered>) -> bool
    ensures { result ≡ asked_in notice }
{
    match notice {
        Some(notice) => match notice.about {
            About::Waits(_) => true,
            About::Forgotten => true,
            About::Removed => false,
        },
        None => false,
    }
}

// The pipes of the creations that wait.
fn waiting_pipes(desks: &[Desk]) -> ArrayVec<u8, 7>
    requires { length desks.now ≤ 7 }
    ensures { result.items ≡ filter_map awaited_pipe desks.now }
{
    let mut pipes = ArrayVec::new();
    for desk in desks {
        if let Some(row) = desk.awaited() {
            pipes.push(row.pid);
        }
    }
    pipes
}

// The place of a host in a mask, where it passes a test.
fn place_if(passes: bool, host: u8) -> u8
    requires { host < 8 }
    ensures place { result ≡ (if passes then 2 ^ host else 0) }
    ensures small { result ≤ 2 ^ host }
{
    if passes { 1 << host } else { 0 }
}

/// What a controller with these tables and desks knows of its links as a command of a host comes. `up` has the hosts whose links are
/// up.
pub(crate) fn view_for(tables: &Tables, desks: &[Desk], up: u8, host: u8) -> LinkView
    requires { length desks.now ≤ 7 }
    ensures { result ≡ view_for tables.now (ports_shown up desks.now) host }
{
    let mut hosts = 0;
    let mut connected = 0;
    let mut noticed = 0;
    let mut asked = 0;
    for other in 1..8 {
        let seen = host_view(tables, desks, up, other);
        hosts += place_if(seen.configured, other);
        connected += place_if(seen.connected, other);
        noticed += place_if(seen.noticed, other);
        asked += place_if(seen.asked, other);
    }
    LinkView {
        hosts,
        connected,
        noticed,
        asked,
        waiting: waiting_pipes(desks),
        errors: errors_at(desks, host),
    }
}
