//! The world of a run with nodes: a controller and up to seven hosts with their memories, and a link to each host. It takes the lines of
//! a schedule one by one, over power cuts, and says what each of them causes; and it goes through rounds and says when all links are at
//! rest. All of it is this project's own.
#![tactic(auto)]

mod controller;
mod controller_sites;
mod frame_lines;
mod host_lines;
mod hosts;
mod looking;
mod making;
mod node_lines;
mod playing;
mod resting;
mod rounds;
mod steps;
mod worlds;

pub use worlds::NodeWorld;
