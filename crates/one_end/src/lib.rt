//! One node alone at an end of a link whose other end is live: what it reads byte by byte, and what it writes. The link is the record of a
//! line or a byte link. All of it is this project's own.
#![tactic(auto)]

mod booting;
mod coming;
pub mod laws;
mod line;
mod one_end;
mod reading;
mod stepping;
mod writing;

pub use booting::boot;
pub use line::LineReader;
pub use node_core::{BootFault, BootRefused, RunningNode};
pub use one_end::{Heard, OneEnd, begin, hear, memory_of};
pub use reading::{Brought, Reader, Stretch};
pub use writing::{Form, Output, ROOM, write_out};
