//! Decodes a recorded line: one line of text for each frame or fault in either direction, this project's own form.
//!
//! A line is `s1 START HEX WORDS` for a frame from the CLF and `s2 ..` for one from the UICC, or `s1 START FAULT` for one that
//! was refused. START is the place, from 0, of the byte that held the first bit of its start of frame.
#![tactic(auto)]

mod decoder;
mod frames;
pub mod laws;
mod line;
mod many;
mod signal;
mod words;

pub use decoder::Decoder;
pub use frames::Frames;
pub use line::Wire;
pub use many::{ManyBits, many_bits};
pub use words::{Text, push_decimal, push_hex, push_text};
