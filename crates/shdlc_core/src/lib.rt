//! One end of an SHDLC link (ETSI TS 102 613, section 10): numbered fragments, their acknowledgement and repetition, and
//! the reset of the link. Nothing here takes memory, and nothing here knows the line.
#![tactic(auto)]

mod answers;
pub mod laws;
mod receiver;
mod sender;
mod shdlc;

pub use answers::{FragmentDue, LinkState, OfferRefused, Taken, Ticked};
pub use shdlc::Shdlc;
