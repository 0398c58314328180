//! What is noted in a run, counted by kind.
ghost use Rattle.std.specs.Prelude.{◌++◌, ◌∷◌, [], List};
ghost use Rattle.trace_model.specs.declared.entry.Entry.{Entry as Told};
ghost use Rattle.swp_tool.specs.Generated.{AreCountsOf};

use trace_model::Entry;

/// How many entries of five kinds were noted. A count stands still at its type's end.
#[derive(Clone, Copy)]
pub struct Counts {
    pub sent: u64,
    pub got: u64,
    pub acked: u64,
    pub up: u64,
    pub commands: u64,
}

impl Counts {
    /// Nothing was noted yet.
    pub fn new() -> Self
        ensures { AreCountsOf result [] }
    {
        Counts {
            sent: 0,
            got: 0,
            acked: 0,
            up: 0,
            commands: 0,
        }
    }

    /// One entry more.
    pub fn count(&mut self, entry: &Entry)
        ensures { (before : List Told) → AreCountsOf self.old before → AreCountsOf self.new (before ++ entry.now ∷ []) }
    {
        match entry {
            Entry::Sent { .. } => self.sent = self.sent.saturating_add(1),
            Entry::Got { .. } => self.got = self.got.saturating_add(1),
            Entry::Acked { .. } => self.acked = self.acked.saturating_add(1),
            Entry::Up { .. } => self.up = self.up.saturating_add(1),
            Entry::Command { .. } => self.commands = self.commands.saturating_add(1),
            _ => {}
        }
    }

    /// These entries more.
    pub fn count_all(&mut self, entries: &[Entry])
        ensures { (before : List Told) → AreCountsOf self.old before → AreCountsOf self.new (before ++ entries.now) }
    {
        for entry in entries {
            self.count(entry);
        }
    }
}
