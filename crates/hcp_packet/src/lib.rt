//! Packets of the host controller protocol, and the first byte of a message (ETSI TS 102 622, sections 5.1 and 5.2).
#![tactic(auto)]

ghost use Rattle.std.specs.Prelude.{◌≡◌, ℕ, ◌<◌, ◌≤◌, ◌*◌, ◌+◌, ◌↔◌, ◌∷◌, List, length, Some, Ok, Err, IfOk, IfErr, IsOk, IsErr};
ghost use Rattle.hcp_packet.specs.Packets.{packet_of, packet_seen, packet_bytes, pipe_in, IsGood};
ghost use Rattle.hcp_packet.specs.MessageHeader.{header_of, type_bits_of};

use arrayvec::ArrayVec;

pub mod laws;
mod view;

pub use view::PacketView;

/// The most data that a packet carries, in bytes. This project's own.
pub const MAX_DATA: usize = 28;

/// The first reserved pipe: no pipe (ETSI TS 102 622, section 4.4) has the numbers 70 to 7F, and no packet goes there.
pub const FIRST_RESERVED_PIPE: u8 = 0x70;

/// A packet: a part of a message, with its header (ETSI TS 102 622, section 5.1).
#[derive(Debug, PartialEq, Eq, Drop)]
pub struct Packet {
    /// Whether it is the last or only packet of its message.
    pub last: bool,
    /// The pipe that it goes over.
    pub pipe: u8,
    /// The data, 0 to 28 bytes.
    pub bytes: ArrayVec<u8, 28>,
}

impl Packet {
    /// The packet where it lies.
    pub fn view(&self) -> PacketView<'_>
        ensures { packet_seen result ≡ self.now }
    {
        PacketView {
            last: self.last,
            pipe: self.pipe,
            bytes: self.bytes.as_slice(),
        }
    }
}

/// Why bytes are no packet (ETSI TS 102 622, section 5.1).
#[derive(Clone, Copy, Debug, PartialEq, Eq)]
pub enum PacketFault {
    /// The header names a reserved pipe, 70 to 7F.
    ReservedPipe { pid: u8 },
}

/// The kind of a message (ETSI TS 102 622, section 5.2).
#[derive(Clone, Copy, Debug, PartialEq, Eq)]
pub enum MessageKind {
    Command,
    Event,
    Response,
}

/// Why bytes are no message (ETSI TS 102 622, section 5.2).
#[derive(Clone, Copy, Debug, PartialEq, Eq)]
pub enum MessageFault {
    /// There is no first byte.
    Empty,
    /// The two type bits are both 1.
    ReservedType,
}

/// The packet that a fragment of 1 to 29 bytes is, where it lies (ETSI TS 102 622, section 5.1).
#[inline(always)]
pub fn view_packet(info: &[u8]) -> Result<PacketView<'_>, PacketFault>
    requires some { 0 < length info.now }
    requires fits { length info.now ≤ 29 }
    ensures ok { IfOk result (λ v. packet_of info.now ≡ Some (packet_seen v)) }
    ensures err { IfErr result (λ e. e ≡ PacketFault.ReservedPipe (pipe_in info.now)) }
    ensures refused { IsErr result ↔ (112 ≤ pipe_in info.now) }
{
    let first = info[0];
    let pipe = first & 0x7f;
    if pipe >= FIRST_RESERVED_PIPE {
        return Err(PacketFault::ReservedPipe { pid: pipe });
    }
    Ok(PacketView {
        last: first >= 0x80,
        pipe,
        bytes: &info[1..],
    })
}

/// Reads the packet that a fragment of 1 to 29 bytes is (ETSI TS 102 622, section 5.1), with a copy of its data.
pub fn read_packet(info: &[u8]) -> Result<Packet, PacketFault>
    requires some { 0 < length info.now }
    requires fits { length info.now ≤ 29 }
    ensures ok { IfOk result (λ p. packet_of info.now ≡ Some p) }
    ensures err { IfErr result (λ e. e ≡ PacketFault.ReservedPipe (pipe_in info.now)) }
    ensures refused { IsErr result ↔ (112 ≤ pipe_in info.now) }
{
    let view = view_packet(info)?;
    Ok(Packet {
        last: view.last,
        pipe: view.pipe,
        bytes: data_of(view.bytes),
    })
}

/// These bytes as the data of a packet.
fn data_of(bytes: &[u8]) -> ArrayVec<u8, 28>
    requires { length bytes.now ≤ 28 }
    ensures { result.items ≡ bytes.now }
{
    let mut data = ArrayVec::new();
    let _ = data.try_extend_from_slice(bytes);
    data
}

/// Writes a packet: its header and its data, 1 to 29 bytes (ETSI TS 102 622, section 5.1). It asks for a pipe that isn't reserved.
pub fn write_packet(packet: &Packet) -> ArrayVec<u8, 29>
    requires { packet.now.pipe < 112 }
    ensures written { result.items ≡ packet_bytes packet.now }
    ensures short { (1 ≤ length result.items) × (length result.items ≤ 29) }
    ensures read_again { packet_of result.items ≡ Some packet.now }
{
    let mark = if packet.last { 0x80 } else { 0 };
    let mut bytes = ArrayVec::new();
    bytes.push(mark + packet.pipe);
    let _ = bytes.try_extend_from_slice(packet.bytes.as_slice());
    bytes
}

/// The kind and the instruction (0 to 3F) that the first byte of a message says (ETSI TS 102 622, section 5.2).
pub fn read_header(message: &[u8]) -> Result<(MessageKind, u8), MessageFault>
    ensures header { result ≡ header_of message.now }
    ensures empty { result ≡ Err MessageFault.Empty ↔ (length message.now ≡ 0) }
    ensures good { IsOk result ↔ IsGood message.now }
{
    let Some(first) = message.first().copied() else {
        return Err(MessageFault::Empty);
    };
    let instruction = first % 64;
    match first / 64 {
        0 => Ok((MessageKind::Command, instruction)),
        1 => Ok((MessageKind::Event, instruction)),
        2 => Ok((MessageKind::Response, instruction)),
        _ => Err(MessageFault::ReservedType),
    }
}

/// The first byte of a message of this kind with this instruction, which is 0 to 3F (ETSI TS 102 622, section 5.2).
pub fn write_header(kind: MessageKind, instruction: u8) -> u8
    requires { instruction < 64 }
    ensures written { result ≡ type_bits_of kind * 64 + instruction }
    ensures read_again { (rest : List ℕ) → header_of (result ∷ rest) ≡ Ok (kind, instruction) }
{
    let bits = match kind {
        MessageKind::Command => 0,
        MessageKind::Event => 1,
        MessageKind::Response => 2,
    };
    bits * 64 + instruction
}
