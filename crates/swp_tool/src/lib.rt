//! The top call of the program `swp`: words, input and output in, a status out.
#![tactic(auto)]

mod counts;
mod generating;
mod number;
mod pieces;
pub mod played;
mod replay;
mod replaying;
mod settling;
mod top;

pub use swp_words::{Ended, Status, exit_code, status_text};
pub use top::run;
