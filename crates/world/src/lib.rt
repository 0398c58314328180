//! The world of a run: a bare link with its two ends, or a controller and its hosts, and the frames between them. It takes the lines of a
//! schedule one by one, and says what each of them causes; a line that lets the links settle is played round by round or part by part. All
//! of it is this project's own.
#![tactic(auto)]

mod bare_world;
mod damage_line;
mod fault;
mod line_steps;
mod lines;
mod node;
mod repeats;
mod rounds;
mod side;
mod steps;
mod world_steps;

pub use fault::WorldFault;
pub use world_steps::World;
