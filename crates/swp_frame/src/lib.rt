//! Frames on the line: bit stuffing, start and end of frame, and the CRC (ETSI TS 102 613, section 9.2).
//!
//! A frame is SOF `01111110`, the payload and its CRC with a 0 put in after each five 1 bits in a row, and EOF `01111111`.
//! This project's own: the order of the bits in the payload, where the last stuffed 0 stands, and that its absence is read too.
#![tactic(auto)]

mod content;
mod deframer;
mod fed;
mod frame_bits;
mod word;

pub use deframer::Deframer;
pub use fed::{Fed, Found};
pub use frame_bits::{BitBytes, FrameBits, append_frame, write_frame};
pub use word::{Part, Word};
