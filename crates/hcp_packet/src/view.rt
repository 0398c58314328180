//! Packets that stay where they lie.
ghost use Rattle.std.specs.Prelude.{◌≤◌, length};

/// A packet where it lies, in a fragment or elsewhere: a part of a message, with its header (ETSI TS 102 622, section 5.1).
#[derive(Clone, Copy)]
pub struct PacketView<'a> {
    /// Whether it is the last or only packet of its message.
    pub last: bool,
    /// The pipe that it goes over.
    pub pipe: u8,
    /// The data, 0 to 28 bytes.
    pub bytes: &'a [u8],
    pub ghost short: { length bytes.now ≤ 28 },
}
