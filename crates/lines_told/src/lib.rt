//! A link that isn't disturbed delivers all: a fragment takes twelve rounds at most. Laws alone; nothing here runs.
//!
//! What is told of the lines of a schedule, below either header: that of a bare world, which has one link, and that of a world of nodes; and
//! what is played of a schedule with lines that let the links settle. Definitions and laws alone; nothing here runs.
#![tactic(auto)]

pub mod fragments_settle;
pub mod messages_settle;
pub mod rounds;
pub mod schedules_played;
