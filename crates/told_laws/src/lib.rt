//! Laws of the texts of a run.
//!
//! Laws of what is told of a schedule, and of a history of plays, below either header. Nothing here runs.
#![tactic(auto)]

pub mod texts_apart;
pub mod told_in_range;
