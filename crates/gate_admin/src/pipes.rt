//! Pipes: their opening and closing, creation and deletion.
ghost use Rattle.std.specs.Prelude.{◌≡◌, ℕ, ◌≤◌, ◌<◌, ◌^◌, List, [], ◌∷◌, ◌&&◌, is_none, IsSome};
ghost use Rattle.std.specs.List.{list_any};
ghost use Rattle.std.specs.Option.{option_and_then};
ghost use Rattle.pipe_table.specs.PipeRows.{IsDynamic, pipe_at, lowest_free, joins_host};
ghost use Rattle.hci_tables.specs.Commands.{IsCommand};
ghost use Rattle.gate_answers.specs.Answers.{first_of};
ghost use Rattle.gate_admin.specs.View.{is_noticed, mask_of};
ghost use Rattle.hci_tables.specs.Tables.{is_opened};
ghost use Rattle.gate_admin.specs.Decide.{IsRecordableDecision, far_end, far_end_of, others_opened, allows};
ghost use Rattle.gate_admin.specs.Decide.{opening, closing, creating, tests_to_create, creation};
ghost use Rattle.gate_admin.specs.Decide.{deleting, clearing, shares, told_of_clearing, commits_and_tells, if_told};

use crate::body::byte_at;
use crate::decision::Decision;
use crate::view::LinkView;
use gate_answers::{
    ADM_NOTIFY_ALL_PIPE_CLEARED, ADM_NOTIFY_PIPE_CREATED, ADM_NOTIFY_PIPE_DELETED,
    ADMINISTRATION_GATE, IDENTITY_GATE, LINK_MANAGEMENT_GATE, LOOPBACK_GATE, Notice, Response,
    answer, notice, refused,
};
use hci_tables::{Command, Tables};
use pipe_table::{FIRST_DYNAMIC, PipeRow};
use registry::WHITELIST;
use whitelist::holds;

/// The end of a pipe of a host that isn't the host's own: a host and a gate (ETSI TS 102 622, section 4.4). None where the pipe isn't the
/// host's.
pub fn far_end(tables: &Tables, host: u8, pipe: u8) -> Option<(u8, u8)>
    ensures { result ≡ far_end tables.now host pipe }
{
    match pipe {
        0 => Some((0, LINK_MANAGEMENT_GATE)),
        1 => Some((0, ADMINISTRATION_GATE)),
        _ => far_end_of(host, &tables.pipes().find(pipe)?),
    }
}

/// The end of this dynamic pipe that isn't the host's own: none where the pipe doesn't end at the host (ETSI TS 102 622, section 4.4).
pub fn far_end_of(host: u8, row: &PipeRow) -> Option<(u8, u8)>
    ensures { result ≡ far_end_of host row.now }
{
    if row.creator == host {
        Some((row.dest, row.dest_gate))
    } else if row.dest == host {
        Some((row.creator, row.creator_gate))
    } else {
        None
    }
}

/// Whether a pipe is opened: a static one of this host, or a dynamic one (ETSI TS 102 622, section 4.4).
pub fn is_opened(tables: &Tables, host: u8, pipe: u8) -> bool
    ensures { result ≡ is_opened tables.now host pipe }
{
    if pipe < FIRST_DYNAMIC {
        return tables
            .statics()
            .iter()
            .any(|pair| pair.0 == host && pair.1 == pipe);
    }
    match tables.pipes().find(pipe) {
        Some(row) => row.opened,
        None => false,
    }
}

// How many other opened dynamic pipes end where this one does.
fn others_opened(tables: &Tables, host: u8, pipe: u8) -> u8
    ensures { result ≡ others_opened tables.now host pipe }
{
    if pipe < FIRST_DYNAMIC {
        return 0;
    }
    match far_end(tables, host, pipe) {
        Some(end) => tables.pipes().opened_on(end.0, end.1, pipe),
        None => 0,
    }
}

/// ANY_OPEN_PIPE.
pub(crate) fn open(tables: &Tables, host: u8, pipe: u8, body: &[u8]) -> Decision
    requires host { host ≤ 7 }
    requires pipe { pipe < 112 }
    ensures decided { result ≡ opening tables.now host pipe body.now }
    ensures recordable { IsRecordableDecision result }
{
    if !body.is_empty() {
        return Decision::Answer(refused(Response::CommandParameterUnknown));
    }
    let answer = answer(Response::Ok, &[others_opened(tables, host, pipe)]);
    if is_opened(tables, host, pipe) {
        return Decision::Answer(answer);
    }
    Decision::Commit {
        command: Command::SetOpened {
            host,
            pid: pipe,
            opened: true,
        },
        answer,
        tell: 0,
        notice: Notice::new(),
    }
}

/// ANY_CLOSE_PIPE.
pub(crate) fn close(host: u8, pipe: u8, body: &[u8]) -> Decision
    requires host { host ≤ 7 }
    requires pipe { pipe < 112 }
    ensures decided { result ≡ closing host pipe body.now }
    ensures recordable { IsRecordableDecision result }
{
    if !body.is_empty() {
        return Decision::Answer(refused(Response::CommandParameterUnknown));
    }
    Decision::Commit {
        command: Command::SetOpened {
            host,
            pid: pipe,
            opened: false,
        },
        answer: refused(Response::Ok),
        tell: 0,
        notice: Notice::new(),
    }
}

/// ADM_CREATE_PIPE.
pub(crate) fn create(tables: &Tables, view: &LinkView, host: u8, body: &[u8]) -> Decision
    requires host { host ≤ 7 }
    ensures decided { result ≡ creating tables.now view.now host body.now }
    ensures recordable { IsRecordableDecision result }
{
    let pid = tables.pipes().lowest_free(view.waiting.as_slice());
    match refusal_to_create(tables, view, host, body, pid.is_none()) {
        Some(response) => Decision::Answer(refused(response)),
        None => creation(PipeRow {
            pid: pid.unwrap_or(0),
            creator: host,
            creator_gate: byte_at(body, 0),
            dest: byte_at(body, 1),
            dest_gate: byte_at(body, 2),
            opened: false,
        }),
    }
}

// Why no pipe is created.
fn refusal_to_create(
    tables: &Tables,
    view: &LinkView,
    host: u8,
    body: &[u8],
    no_pipe: bool,
) -> Option<Response>
    requires { no_pipe ≡ is_none (lowest_free tables.now.rows view.now.waiting.items) }
    ensures { result ≡ first_of (tests_to_create tables.now view.now host body.now) }
{
    let dest = byte_at(body, 1);
    let gate = byte_at(body, 2);
    let other = dest != 0;
    if body.len() != 3 {
        return Some(Response::CommandParameterUnknown);
    }
    if other && !view.is_configured(dest) {
        return Some(Response::NotConnected);
    }
    if dest == host {
        return Some(Response::NotOk);
    }
    if !other && !(gate == LOOPBACK_GATE || gate == IDENTITY_GATE) {
        return Some(Response::NotOk);
    }
    if other && !view.is_connected(dest) {
        return Some(Response::NotConnected);
    }
    if other && !allows(tables, dest, host) {
        return Some(Response::PipeAccessDenied);
    }
    if other && view.is_noticed(dest) {
        return Some(Response::Inhibited);
    }
    if no_pipe {
        return Some(Response::NoPipesAvailable);
    }
    None
}

// Whether the whitelist of the host `dest` holds a host.
fn allows(tables: &Tables, dest: u8, host: u8) -> bool
    ensures { result ≡ allows tables.now dest host }
{
    if !(1 <= dest && dest <= 7) {
        return false;
    }
    let list = tables.registry().get(dest, ADMINISTRATION_GATE, WHITELIST);
    holds(list.as_slice(), host)
}

// A pipe to the controller is made at once; for one to another host that host is asked.
fn creation(row: PipeRow) -> Decision
    ensures decided { result ≡ creation row }
    ensures recordable { IsCommand (Command.Create row) → IsRecordableDecision result }
{
    let ends = [
        row.creator,
        row.creator_gate,
        row.dest,
        row.dest_gate,
        row.pid,
    ];
    let answer = answer(Response::Ok, &ends);
    if row.dest == 0 {
        return Decision::Commit {
            command: Command::Create(row),
            answer,
            tell: 0,
            notice: Notice::new(),
        };
    }
    Decision::Ask {
        host: row.dest,
        notice: notice(ADM_NOTIFY_PIPE_CREATED, &ends),
        command: Command::Create(row),
        answer,
    }
}

/// ADM_DELETE_PIPE.
pub(crate) fn delete(tables: &Tables, view: &LinkView, host: u8, body: &[u8]) -> Decision
    requires host { host ≤ 7 }
    ensures decided { result ≡ deleting tables.now view.now host body.now }
    ensures recordable { IsRecordableDecision result }
{
    if body.len() != 1 {
        return Decision::Answer(refused(Response::CommandParameterUnknown));
    }
    let pid = byte_at(body, 0);
    let Some(end) = row_end(tables, host, pid) else {
        return Decision::Answer(refused(Response::NotConnected));
    };
    if !view.is_connected(end.0) {
        return Decision::Commit {
            command: Command::Delete { pid },
            answer: refused(Response::Ok),
            tell: 0,
            notice: Notice::new(),
        };
    }
    if view.is_noticed(end.0) {
        return Decision::Answer(refused(Response::Inhibited));
    }
    Decision::Commit {
        command: Command::Delete { pid },
        answer: refused(Response::Ok),
        tell: bit_of(end.0),
        notice: notice(ADM_NOTIFY_PIPE_DELETED, &[pid]),
    }
}

// The other end of a dynamic pipe of a host.
fn row_end(tables: &Tables, host: u8, pid: u8) -> Option<(u8, u8)>
    ensures end { result ≡ option_and_then (far_end_of host) (pipe_at tables.now.rows pid) }
    ensures dynamic { IsSome result → IsDynamic pid }
{
    far_end_of(host, &tables.pipes().find(pid)?)
}

fn bit_of(host: u8) -> u8
    requires { host < 8 }
    ensures { result ≡ 2 ^ host }
{
    1 << host
}

/// ADM_CLEAR_ALL_PIPE.
pub(crate) fn clear(tables: &Tables, view: &LinkView, host: u8, body: &[u8]) -> Decision
    requires host { host ≤ 7 }
    ensures decided { result ≡ clearing tables.now view.now host body.now }
    ensures recordable { IsRecordableDecision result }
{
    if !(body.is_empty() || body.len() == 2) {
        return Decision::Answer(refused(Response::CommandParameterUnknown));
    }
    if view.is_asked(host) || is_one_noticed(tables, view, host) {
        return Decision::Answer(refused(Response::Inhibited));
    }
    clearing_of(host, sharing_mask(tables, view, host))
}

// The decision to clear all pipes of a host, of which the hosts of a mask are told.
fn clearing_of(host: u8, tell: u8) -> Decision
    ensures { (told : List ℕ) → tell ≡ mask_of told → result ≡ commits_and_tells (Command.Clear host) told (21 ∷ host ∷ []) }
{
    Decision::Commit {
        command: Command::Clear { host },
        answer: refused(Response::Ok),
        tell,
        notice: if_some_told(tell, host),
    }
}

fn if_some_told(tell: u8, host: u8) -> Notice
    ensures { (told : List ℕ) → tell ≡ mask_of told → result.items ≡ if_told told (21 ∷ host ∷ []) }
{
    if tell == 0 {
        return Notice::new();
    }
    notice(ADM_NOTIFY_ALL_PIPE_CLEARED, &[host])
}

// Whether another host is connected and shares a pipe with a host.
fn shares(tables: &Tables, view: &LinkView, host: u8, other: u8) -> bool
    ensures { result ≡ shares tables.now view.now host other }
{
    view.is_connected(other) && other != host && are_joined(tables.pipes().rows(), host, other)
}

fn are_joined(rows: &[PipeRow], host: u8, other: u8) -> bool
    ensures { result ≡ list_any (λ row. joins_host row host && joins_host row other) rows.now }
{
    rows.iter()
        .any(|row| row.joins_host(host) && row.joins_host(other))
}

fn is_one_noticed(tables: &Tables, view: &LinkView, host: u8) -> bool
    ensures { result ≡ list_any (is_noticed view.now) (told_of_clearing tables.now view.now host) }
{
    for other in 1..8 {
        if shares(tables, view, host, other) && view.is_noticed(other) {
            return true;
        }
    }
    false
}

fn sharing_mask(tables: &Tables, view: &LinkView, host: u8) -> u8
    ensures { result ≡ mask_of (told_of_clearing tables.now view.now host) }
{
    let mut mask = 0;
    for other in 1..8 {
        if shares(tables, view, host, other) {
            mask += bit_of(other);
        }
    }
    mask
}
