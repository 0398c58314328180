//! What all crates of the stack share: link protocol data units and their parts, the faults of frames, and the
//! outside world as traits, with implementations in memory.
#![tactic(auto)]

mod control_frames;
mod data_units;
mod front;
mod in_memory;
mod link_terms;
mod nv_memory;
mod outside;

pub use control_frames::{Act, Control, Kind};
pub use data_units::{Info, Lpdu};
pub use in_memory::{MemSink, MemSource, SureSink, SureSource};
pub use link_terms::{Cause, FrameFault, Role};
pub use nv_memory::{MemNv, SureNv};
pub use outside::{EndOfInput, Failed, NoMemory, Nv, Sink, Source};
