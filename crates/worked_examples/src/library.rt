//! Callers of the crates as a library: the first frame on one direction of a line, and one link end over bytes.
ghost use Rattle.std.specs.Prelude.{◌≡◌, [], map};
ghost use Rattle.swp_frame.specs.Signal.{symbol_of};
ghost use Rattle.swp_frame.specs.Verdicts.{answers_after};
ghost use Rattle.worked_examples.specs.FirstFrames.{first_said};

use crate::nodes::Node;
use crate::shown::{same, same_bytes};
use arrayvec::ArrayVec;
use byte_link::write_unit;
use std::process::Abort;
use swp_base::{Control, Kind, Lpdu, Role};
use swp_frame::{Deframer, Fed, write_frame};
use swp_lpdu::read_lpdu;

/// What the first frame in these bits says; none where there is no whole frame, or it says nothing.
pub fn first_frame(bits: &[bool]) -> Option<Control>
    ensures { result ≡ first_said (answers_after [] (map symbol_of bits.now)) }
{
    let mut deframer = Deframer::new();
    for bit in bits {
        if let Fed::Frame(lpdu) = deframer.feed(*bit) {
            return read_lpdu(&lpdu).ok();
        }
    }
    None
}

/// What an end sends while these bytes of a byte link come to it, as units of that link: each byte is taken, and what is due goes out
/// before the next one is. `Node` is an end with its messages in a pool.
fn answered(rt: &impl Abort, node: &mut Node, bytes: &[u8]) -> ArrayVec<u8, 64> {
    let mut units = ArrayVec::new();
    for byte in bytes {
        let _told = node.take_byte(rt, *byte);
        if let Some(lpdu) = node.next_out() {
            let _fits = units.try_extend_from_slice(write_unit(&lpdu).as_slice());
        }
    }
    units
}

#[test]
fn an_end_answers_over_bytes(rt: HostRuntime) {
    let mut node = Node::make(&rt, rt.alloc(), Role::Bare);
    let message = write_unit(&Lpdu::new(&[0x80, 0x81, 0x03]));
    let units = answered(&rt, &mut node, message.as_slice());
    same_bytes(&rt, units.as_slice(), &[0x00, 0x01, 0xC1, 0xD7, 0x62]);
}

#[test]
fn the_first_frame_is_found(rt: HostRuntime) {
    let frame = write_frame(&Lpdu::new(&[0xC1]));
    let bits = frame.bits.as_slice();
    let receive_ready = Control::S {
        kind: Kind::Rr,
        nr: 1,
    };
    same(&rt, &first_frame(bits), &Some(receive_ready));
    same(&rt, &first_frame(&bits[..bits.len() - 1]), &None);
}
