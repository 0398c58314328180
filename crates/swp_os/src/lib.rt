//! The operating system as the outside world of a program: standard input and output, and a file as a memory. What stands here
//! meets the traits and tells no content; that it reads and writes the right bytes is shown by tests and by the stored runs of the
//! programs that use it.
#![tactic(auto)]

mod file_flash;
mod kept_file;
mod start;
mod streams;

pub use file_flash::FileFlash;
pub use kept_file::{Access, FileNv};
pub use start::{KeptOpen, begin, words};
pub use streams::{StdinSource, StdoutSink};
