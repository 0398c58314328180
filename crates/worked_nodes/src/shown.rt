//! What the examples compare, each comparison in a function of its own, and what they gather.
use crate::library::Wires;
use arrayvec::ArrayVec;
use std::fmt::Debug;
use std::process::Abort;
use swp_base::Lpdu;

/// What was told is what was wanted.
pub(crate) fn same<T: PartialEq + Debug>(rt: &impl Abort, told: &T, wanted: &T) {
    assert_eq!(rt; told, wanted);
}

/// These bytes are those that were wanted.
pub(crate) fn same_bytes(rt: &impl Abort, told: &[u8], wanted: &[u8]) {
    assert_eq!(rt; told, wanted);
}

/// The frames that went out, each with its host, as far as there was room.
#[derive(Drop)]
pub(crate) struct Sent {
    frames: ArrayVec<(u8, Lpdu), 16>,
    full: bool,
}

impl Sent {
    /// None yet.
    pub(crate) fn new() -> Sent {
        Sent {
            frames: ArrayVec::new(),
            full: false,
        }
    }

    /// The frames that went out, each behind the number of its host and the count of its bytes.
    pub(crate) fn bytes(&self) -> ArrayVec<u8, 128> {
        let mut bytes = ArrayVec::new();
        for (host, lpdu) in self.frames.iter() {
            let frame = lpdu.bytes();
            let _fits = bytes.try_extend_from_slice(&[*host, frame.len() as u8]);
            let _fits = bytes.try_extend_from_slice(frame);
        }
        bytes
    }
}

impl Wires for Sent {
    ghost carried = { λ s. s.frames.items };

    ghost is_full = { λ s. s.full };

    fn send(&mut self, host: u8, lpdu: &Lpdu) {
        if self.full || self.frames.is_full() {
            self.full = true;
            return;
        }
        self.frames.push((host, lpdu.copied()));
    }
}
