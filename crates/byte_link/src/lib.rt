//! The byte link, a form of a link for bytes in place of a line; all of it is this project's own.
//!
//! A unit is the length of an LPDU in two bytes, its bytes, and their CRC in two bytes, the most significant byte first. A
//! length of 0 stands alone, and is one tick.
#![tactic(auto)]

pub mod laws;
mod link;
mod unit;

pub use link::ByteLink;
pub use unit::{Unit, append_unit, write_unit};
