//! What a world caused is noted.
ghost use Rattle.std.specs.Prelude.{◌≡◌, ◌++◌, ◌∷◌, [], true, false, if◌then◌else◌};
ghost use Rattle.trace_model.specs.declared.entry.Entry.TheVariants.{Got, Sent};

use trace_model::{End, Entry, Octets, Watch};

// No message, in place of this one. Takes no memory.
fn none_of(message: &Octets) -> Octets
    ensures { result ≡ [] }
{
    Octets::new(*message.bytes.allocator())
}

// Notes that a message was sent or came.
fn note_message<W: Watch>(
    came: bool,
    at: End,
    session: u32,
    pid: u8,
    message: &Octets,
    watch: &mut W,
)
    ensures noted { W.is_short watch.new ≡ false
        → W.noted watch.new ≡ W.noted watch.old ++ (if came then Got at session pid message.now else Sent at session pid message.now) ∷ [] }
    ensures stays { W.is_short watch.old ≡ true → W.is_short watch.new ≡ true }
{
    let none = none_of(message);
    let entry = if came {
        Entry::Got {
            at,
            session,
            pid,
            message: none,
        }
    } else {
        Entry::Sent {
            at,
            session,
            pid,
            message: none,
        }
    };
    watch.note(&entry, message.as_slice());
}

// Notes an entry. A message in it is handed beside a copy of the entry that has none.
fn note_entry<W: Watch>(entry: &Entry, watch: &mut W)
    ensures noted { W.is_short watch.new ≡ false → W.noted watch.new ≡ W.noted watch.old ++ entry.now ∷ [] }
    ensures stays { W.is_short watch.old ≡ true → W.is_short watch.new ≡ true }
{
    match entry {
        Entry::Sent {
            at,
            session,
            pid,
            message,
        } => note_message(false, *at, *session, *pid, message, watch),
        Entry::Got {
            at,
            session,
            pid,
            message,
        } => note_message(true, *at, *session, *pid, message, watch),
        Entry::Turn { at, pid, message } => {
            let bare = Entry::Turn {
                at: *at,
                pid: *pid,
                message: none_of(message),
            };
            watch.note(&bare, message.as_slice());
        }
        Entry::Ask { host, message } => {
            let bare = Entry::Ask {
                host: *host,
                message: none_of(message),
            };
            watch.note(&bare, message.as_slice());
        }
        other => watch.note(other, &[]),
    }
}

/// Notes entries, one after another.
pub(crate) fn note_all<W: Watch>(entries: &[Entry], watch: &mut W)
    ensures noted { W.is_short watch.new ≡ false → W.noted watch.new ≡ W.noted watch.old ++ entries.now }
    ensures stays { W.is_short watch.old ≡ true → W.is_short watch.new ≡ true }
{
    for entry in entries {
        note_entry(entry, watch);
    }
}
