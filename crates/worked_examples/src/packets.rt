use crate::shown::{same, same_bytes};
use hcp_packet::*;
use std::process::Abort;

/// The packet is written as these bytes.
fn is_written(rt: &impl Abort, packet: &Packet, bytes: &[u8]) {
    assert!(rt; packet.pipe < 0x70);
    same_bytes(rt, write_packet(packet).as_slice(), bytes);
}

/// The packet of these bytes.
fn packet_of(rt: &impl Abort, info: &[u8]) -> Packet {
    assert!(rt; !info.is_empty() && info.len() <= 29);
    read_packet(info).expect(rt, "a packet")
}

/// The bytes are read as a packet, last or not, on a pipe, with so many bytes, and it is written as them again.
fn is_read(rt: &impl Abort, info: &[u8], last: bool, pipe: u8, len: usize) {
    let packet = packet_of(rt, info);
    same(
        rt,
        &(packet.last, packet.pipe, packet.bytes.len()),
        &(last, pipe, len),
    );
    is_written(rt, &packet, info);
}

#[test]
fn packets_are_read_and_written_again(rt: HostRuntime) {
    is_read(&rt, &[0x82, 0x01, 0x02], true, 0x02, 2);
    is_read(&rt, &[0x02], false, 0x02, 0);
    is_read(&rt, &[0xEF, 0xFF], true, 0x6F, 1);
    is_read(&rt, &[0x80], true, 0x00, 0);
}

/// A packet with this first byte is refused, since this pipe is reserved.
fn is_reserved(rt: &impl Abort, first: u8, pid: u8) {
    let fault = PacketFault::ReservedPipe { pid };
    same(rt, &read_packet(&[first, 1]).err(), &Some(fault));
}

#[test]
fn reserved_pipes_are_refused(rt: HostRuntime) {
    is_reserved(&rt, 0x70, 0x70);
    is_reserved(&rt, 0x7F, 0x7F);
    is_reserved(&rt, 0xF0, 0x70);
    is_reserved(&rt, 0xFF, 0x7F);
}

/// A message's header says this.
fn says(rt: &impl Abort, message: &[u8], header: Result<(MessageKind, u8), MessageFault>) {
    same(rt, &read_header(message), &header);
}

#[test]
fn message_headers_are_told(rt: HostRuntime) {
    says(&rt, &[0x03], Ok((MessageKind::Command, 0x03)));
    says(&rt, &[0x42, 0xFF], Ok((MessageKind::Event, 0x02)));
    says(&rt, &[0x8B], Ok((MessageKind::Response, 0x0B)));
    says(&rt, &[0xC0], Err(MessageFault::ReservedType));
    says(&rt, &[], Err(MessageFault::Empty));
    same(&rt, &write_header(MessageKind::Event, 0x02), &0x42);
}
