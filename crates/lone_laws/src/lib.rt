//! One node with one link and nothing else: what a run of it is, and that it answers every message. Definitions and laws alone; nothing
//! here runs. Nothing is said of a node that the program boots over a memory of version 01.
#![tactic(auto)]

pub mod answers_alone;
