//! Which parameters the gates have.
ghost use Rattle.std.specs.Prelude.{◌≡◌};
ghost use Rattle.registry.specs.Access.{access_of};

/// What a command may do with a parameter (ETSI TS 102 622, section 7.1).
#[derive(Clone, Copy, Debug, PartialEq, Eq)]
pub enum Access {
    /// The gate has no such parameter.
    Unknown,
    /// It may be read.
    ReadOnly,
    /// It may be read and set.
    ReadWrite,
}

/// What a command may do with a parameter of a gate (ETSI TS 102 622, sections 7.1 and 8.2): Unknown exactly where the gate has no
/// such parameter.
pub fn access_of(gate: u8, param: u8) -> Access
    ensures { result ≡ access_of gate param }
{
    match (gate, param) {
        (0x00, 0x01) => Access::ReadWrite,
        (0x00, 0x02) => Access::ReadOnly,
        (0x00, 0x03) => Access::ReadWrite,
        (0x00, 0x04) => Access::ReadOnly,
        (0x05, 0x01..=0x06) => Access::ReadOnly,
        (0x06, 0x01) => Access::ReadWrite,
        _ => Access::Unknown,
    }
}
