//! The periods of a recorded line between a CLF and a UICC.
//!
//! S1 is the voltage signal to the UICC, and S2 the current signal to the CLF, which is valid only while S1 is high. A
//! bit period of S1 starts with a rising edge; a logical 1 is high for three quarters of it, and a logical 0 for one
//! (ETSI TS 102 613, sections 8.1 to 8.3). The record is this project's own: one byte is one period of four quarters of two
//! bits each, S2 above S1, the first quarter highest.
#![tactic(auto)]

mod period;
mod tracker;

pub use period::{Period, byte_of, period_of};
pub use tracker::{LineState, LineTracker};
