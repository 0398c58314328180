//! One pipe.

/// The least number of a dynamic pipe (ETSI TS 102 622, section 4.4).
pub const FIRST_DYNAMIC: u8 = 0x02;

/// The first number that no pipe has: dynamic pipes (ETSI TS 102 622, section 4.4) are 02 to 6F.
pub const FIRST_RESERVED: u8 = 0x70;

/// A dynamic pipe: it joins a gate of the host that created it to a gate of another host (ETSI TS 102 622, section 4.4).
#[derive(Clone, Copy, Debug, Default, PartialEq, Eq)]
pub struct PipeRow {
    /// The pipe, 02 to 6F.
    pub pid: u8,
    /// The host that created it, 00 to 07.
    pub creator: u8,
    /// The creator's gate.
    pub creator_gate: u8,
    /// The other host, 00 to 07.
    pub dest: u8,
    /// The other host's gate.
    pub dest_gate: u8,
    /// Whether it is opened.
    pub opened: bool,
}

impl PipeRow {
    ghost use Rattle.std.specs.Prelude.{◌≡◌};
    ghost use Rattle.pipe_table.specs.PipeRows.{joins_host, ends_at, as_opened};

    /// Whether a host is one of the two that it joins.
    pub fn joins_host(&self, host: u8) -> bool
        ensures { result ≡ joins_host self.now host }
    {
        self.creator == host || self.dest == host
    }

    /// Whether it ends at this gate of this host.
    pub fn ends_at(&self, host: u8, gate: u8) -> bool
        ensures { result ≡ ends_at self.now host gate }
    {
        self.creator == host && self.creator_gate == gate
            || self.dest == host && self.dest_gate == gate
    }

    /// The same pipe, opened or closed.
    pub fn as_opened(&self, opened: bool) -> PipeRow
        ensures { result ≡ as_opened opened self.now }
    {
        PipeRow { opened, ..*self }
    }
}
