//! The messages of one end of a link, in the chains of a pool: those that wait until they are acknowledged whole, cut into
//! fragments one at a time, and those that come, joined from fragments. This project's own.
#![tactic(auto)]

mod inbox;
mod outbox;

pub use inbox::Inbox;
pub use outbox::Outbox;
