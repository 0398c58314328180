//! What the program does for the words `decode`, `tap`, `end` and `tables`, and the driver of all words that read their input piece by
//! piece.
#![tactic(auto)]

pub mod decoding;
pub mod driver;
pub mod gathering;
pub mod lone;
pub mod output;
pub mod records;
pub mod status;
pub mod tables;
pub mod tapping;

pub use one_end::Form;
pub use status::{Ended, Status, exit_code, status_text};
