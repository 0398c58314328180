//! What one end of a link does over whole messages, as a machine: activation, SHDLC, messages cut and joined, blocks. Its laws
//! hold for every list of inputs to a new end of any role. There is no code here that runs.
//!
//! What one end that sends whole messages, one after another, means for the end that joins them. Nothing here runs.
//!
//! One link over a wire that loses frames: what stands on it, in which order it comes, which sessions the ends agree on, and that frames
//! which live four ticks are gone before an end that waits for ten gives up. Laws alone; nothing here runs.
//!
//! One link as messages and as what is noted of it: in which order messages come, and which sessions are read off the entries of a
//! history. Laws alone; nothing here runs.
#![tactic(auto)]

pub mod entry_order;
pub mod frames_in_time;
pub mod message_order;
pub mod numbers;
pub mod one_end_alone;
pub mod resets_of_links;
pub mod session_order;
pub mod whole_messages_sent;
