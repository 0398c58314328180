//! The texts of a run: the lines of a schedule are read, and the entries of a transcript are written.
#![tactic(auto)]

mod at_once;
mod fault;
mod forms;
mod laws;
mod pairs;
mod read;
mod rules;
mod text;
mod transcript;
mod values;
mod words;
mod write;

pub use at_once::read_at_once;
pub use fault::LineFault;
pub use laws::texts_are_read_again;
pub use read::{Read, read_line};
pub use transcript::Transcript;
pub use write::{write_entries, write_entry, write_opening, write_step};
