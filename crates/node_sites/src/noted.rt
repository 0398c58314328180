//! What a line causes, as it is noted.
ghost use Rattle.std.specs.Prelude.{◌≡◌, [], ◌∷◌, ◌++◌, OnOk};
ghost use Rattle.trace_model.specs.declared.entry.Entry.TheVariants as note;

use crate::copying::{add_one_of_few, add_with_message, session_noted};
use swp_base::NoMemory;
use trace_model::{Entry, NoCause, Octets, Watch};

/// The most messages whose memory is kept. This project's own.
const MOST_SPARES: usize = 16;

/// The number of the session at each link, by its host, 0 to 7.
pub type Sessions = [u32; 8];

/// What was noted of a line so far, while there was memory for it.
#[derive(Drop)]
pub struct Noted {
    pub entries: Vec<Entry>,
    pub short: bool,
    /// A node notes 0 for the number of any session: that of its link's session stands here, and is noted in its place.
    pub sessions: Sessions,
    /// Messages that were noted and are forgotten, whose memory serves those to come.
    pub spares: Vec<Octets>,
}

impl Noted {
    ghost use Rattle.std.specs.Prelude.{◌≡◌, []};

    /// Nothing is noted any more. The memory of a message that was noted is kept, where there are few others and memory for it.
    pub fn forget(&mut self)
        ensures entries { self.new.entries.items ≡ [] }
        ensures short { self.new.short ≡ self.old.short }
    {
        'entries: while let Some(entry) = self.entries.pop() {
            match entry {
                Entry::Emit { lpdu, .. } | Entry::Took { lpdu, .. } | Entry::Lost { lpdu, .. } => {
                    drop(lpdu);
                }
                Entry::Sent { message, .. }
                | Entry::Got { message, .. }
                | Entry::Turn { message, .. }
                | Entry::Ask { message, .. } => {
                    if !message.bytes.is_empty() && self.spares.len() < MOST_SPARES {
                        let _kept = self.spares.push(message);
                    }
                }
                Entry::No { .. }
                | Entry::Acked { .. }
                | Entry::Up { .. }
                | Entry::Down { .. }
                | Entry::Dropped { .. }
                | Entry::Command { .. }
                | Entry::AnyOk { .. } => {}
                other => drop(other),
            }
        }
    }
}

impl Watch for Noted {
    ghost use Rattle.node_sites.specs.Numbers.{as_told};

    ghost noted = { λ n. as_told n.sessions n.entries.items };

    ghost is_short = { λ n. n.short };

    fn note(&mut self, entry: &Entry, body: &[u8]) {
        if self.short {
            return;
        }
        if self.entries.reserve(1).is_err() {
            self.short = true;
            return;
        }
        match entry {
            Entry::Sent { .. } | Entry::Got { .. } | Entry::Turn { .. } | Entry::Ask { .. } => {
                self.short = !add_with_message(
                    &mut self.entries,
                    &mut self.spares,
                    &self.sessions,
                    entry,
                    body,
                );
            }
            Entry::Acked { at, session, count } => {
                self.entries.push_reserved(Entry::Acked {
                    at: *at,
                    session: session_noted(&self.sessions, *at, *session),
                    count: *count,
                });
            }
            Entry::Dropped { at, pid } => {
                self.entries
                    .push_reserved(Entry::Dropped { at: *at, pid: *pid });
            }
            _ => self.short = !add_one_of_few(&mut self.entries, &self.sessions, entry),
        }
    }

    fn short(&self) -> bool {
        self.short
    }
}

/// This is noted behind the others.
///
/// # Errors
///
/// No memory is left.
#[inline(always)]
pub fn note_last(noted: &mut Noted, entry: Entry) -> Result<(), NoMemory>
    ensures items { OnOk result (noted.new.entries.items ≡ noted.old.entries.items ++ entry ∷ []) }
    ensures short { noted.new.short ≡ noted.old.short }
{
    match noted.entries.push(entry) {
        Ok(()) => Ok(()),
        Err(_) => Err(NoMemory),
    }
}

/// A line is refused for this cause, which is noted.
///
/// # Errors
///
/// No memory is left.
pub fn refuse(noted: &mut Noted, cause: NoCause) -> Result<(), NoMemory>
    ensures noted { OnOk result (noted.new.entries.items ≡ noted.old.entries.items ++ note.No cause ∷ []) }
    ensures short { noted.new.short ≡ noted.old.short }
{
    note_last(noted, Entry::No { cause })
}
