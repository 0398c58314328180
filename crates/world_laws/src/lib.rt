//! A passive tap reports what the ends of a link got: over fragments, over what is noted of a link, and over histories of bare worlds and
//! of worlds of nodes. Laws alone; nothing here runs.
//!
//! Worlds that settle have brought all: bare ones and worlds of nodes; and their rounds are causes like those of any line. Laws alone;
//! nothing here runs.
#![tactic(auto)]

pub mod bare_rounds_as_causes;
pub mod bare_worlds_settle;
pub mod rounds_as_causes;
pub mod schedules_settle;
pub mod taps_of_entries;
pub mod taps_of_fragments;
pub mod taps_of_histories;
pub mod taps_of_worlds;
pub mod undisturbed_as_noted;
pub mod worlds_of_nodes_settle;
