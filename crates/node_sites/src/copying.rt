//! Copies of what nodes note, with the numbers of sessions.
ghost use Rattle.std.specs.Prelude.{◌≡◌, ◌<◌, ◌++◌, ◌∷◌, [], ℕ, List, IfSome, IsTrue, false};
ghost use Rattle.std.specs.Vec.{vec_len, vec_capacity};
ghost use Rattle.trace_model.specs.Notes.{with_body};
ghost use Rattle.node_sites.specs.Numbers.{with_swapped_number, session_at, swapped_number};

use crate::noted::Sessions;
use trace_model::{End, Entry, Octets};

/// The number of the session of an end's link stands in place of 0, and 0 in place of that number, so that no two numbers become one.
pub(crate) fn session_noted(sessions: &Sessions, at: End, noted: u32) -> u32
    ensures { result ≡ swapped_number (session_at sessions.now at.link) noted }
{
    let link = usize::from(at.link);
    let number = if link < 8 { sessions[link] } else { 0 };
    if noted == 0 {
        number
    } else if noted == number {
        0
    } else {
        noted
    }
}

/// A copy of an entry whose form has a message is put behind the others, with these bytes as its message. Whether there was memory for the
/// message; `false` for any other form. There is room for an entry.
pub(crate) fn add_with_message(
    entries: &mut Vec<Entry>,
    spares: &mut Vec<Octets>,
    sessions: &Sessions,
    entry: &Entry,
    body: &[u8],
) -> bool
    requires room { vec_len entries.old < vec_capacity entries.old }
    ensures added { IsTrue result → entries.new.items ≡ entries.old.items ++ with_swapped_number (session_at sessions.now) (with_body body.now entry.now) ∷ [] }
    ensures full { result ≡ false → entries.new.items ≡ entries.old.items }
{
    // In memory that was kept, where there is some.
    let message = match spares.pop() {
        Some(Octets { mut bytes }) => {
            bytes.clear();
            if bytes.extend_from_slice(body).is_err() {
                return false;
            }
            Octets { bytes }
        }
        None => match Octets::from_slice(*entries.allocator(), body) {
            Ok(made) => made,
            Err(_) => return false,
        },
    };
    match entry {
        Entry::Sent {
            at,
            session,
            pid,
            ..
        } => entries.push_reserved(Entry::Sent {
            at: *at,
            session: session_noted(sessions, *at, *session),
            pid: *pid,
            message,
        }),
        Entry::Got {
            at,
            session,
            pid,
            ..
        } => entries.push_reserved(Entry::Got {
            at: *at,
            session: session_noted(sessions, *at, *session),
            pid: *pid,
            message,
        }),
        Entry::Turn { at, pid, .. } => entries.push_reserved(Entry::Turn {
            at: *at,
            pid: *pid,
            message,
        }),
        Entry::Ask { host, .. } => entries.push_reserved(Entry::Ask {
            host: *host,
            message,
        }),
        _ => return false,
    }
    true
}

// A copy of an entry of a turn, of a command or of an init. `None` for any other form.
fn copied_of_turn(entry: &Entry) -> Option<Entry>
    ensures { (bytes : List ℕ) (session : ℕ → ℕ) → IfSome result (λ copy. copy ≡ with_swapped_number session (with_body bytes entry.now)) }
{
    match entry {
        Entry::Held { at, need, spare } => Some(Entry::Held {
            at: *at,
            need: *need,
            spare: *spare,
        }),
        Entry::Command { node, command } => Some(Entry::Command {
            node: *node,
            command: command.copied(),
        }),
        Entry::AnyOk { node, count } => Some(Entry::AnyOk {
            node: *node,
            count: *count,
        }),
        Entry::InitSame { at } => Some(Entry::InitSame { at: *at }),
        Entry::InitMade { at, count } => Some(Entry::InitMade {
            at: *at,
            count: *count,
        }),
        Entry::InitFailed { at, code } => Some(Entry::InitFailed {
            at: *at,
            code: *code,
        }),
        _ => None,
    }
}

// A copy of an entry whose form has no message, and of which few are noted. `None` for a form that no node notes: a header, an echo, a
// frame, tables, a boot, what was settled or refused.
fn copied_of_few(sessions: &Sessions, entry: &Entry) -> Option<Entry>
    ensures { (bytes : List ℕ) → IfSome result (λ copy. copy ≡ with_swapped_number (session_at sessions.now) (with_body bytes entry.now)) }
{
    match entry {
        Entry::Up { at, session } => Some(Entry::Up {
            at: *at,
            session: session_noted(sessions, *at, *session),
        }),
        Entry::Down { at, cause } => Some(Entry::Down {
            at: *at,
            cause: *cause,
        }),
        Entry::Active { at } => Some(Entry::Active { at: *at }),
        Entry::GaveUp { at, tries } => Some(Entry::GaveUp {
            at: *at,
            tries: *tries,
        }),
        Entry::Cut { node } => Some(Entry::Cut { node: *node }),
        _ => copied_of_turn(entry),
    }
}

/// Such a copy is put behind the others; `false` for a form that no node notes. There is room for an entry.
#[cold]
#[inline(never)]
pub(crate) fn add_one_of_few(entries: &mut Vec<Entry>, sessions: &Sessions, entry: &Entry) -> bool
    requires room { vec_len entries.old < vec_capacity entries.old }
    ensures added { (bytes : List ℕ) → IsTrue result
        → entries.new.items ≡ entries.old.items ++ with_swapped_number (session_at sessions.now) (with_body bytes entry.now) ∷ [] }
    ensures full { result ≡ false → entries.new.items ≡ entries.old.items }
{
    let Some(copy) = copied_of_few(sessions, entry) else {
        return false;
    };
    entries.push_reserved(copy);
    true
}
