//! The record of a line from the changes of its two signals and their times, as a logic analyser tells them.
//!
//! S1 begins each bit period with a rise, and is high for three quarters of the period at a logical 1 and for one at a logical 0
//! (ETSI TS 102 613, sections 7 and 8). The line record and the rule by which it is read from edges that lie a little off are
//! this project's own.
#![tactic(auto)]

mod change;
pub mod laws;
mod reader;
mod shape;

pub use change::{CaptureFault, Change, MOST_TIME, MOST_UNIT, Piece};
pub use reader::LineReader;
