//! One end of a link, from LPDUs, line periods or byte-link bytes to messages and back: activation, SHDLC, the cutting and joining
//! of messages, and how many blocks they may use (ETSI TS 102 613 and TS 102 622).
#![tactic(auto)]

mod activation;
mod acts;
mod end;
pub mod laws;
mod link;
mod parts;
mod report;

pub use end::End;
pub use link::LinkEnd;
pub use report::{LinkReport, ResetRefused, SendRefused};
