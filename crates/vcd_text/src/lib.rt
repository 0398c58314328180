//! A value change dump (VCD) of two signals of one bit, S1 and S2, as their changes come. It is read byte by byte, in a bounded
//! number of bytes of memory, however long the text is.
//!
//! The form of a VCD is that of IEEE Std 1364, clause 18; which words are refused here, and how, is this project's own.
#![tactic(auto)]

mod fault;
mod number;
mod reader;
mod word;

pub use fault::{VcdFault, VcdRefusal};
pub use reader::{VcdEnd, VcdReader, VcdTold};
