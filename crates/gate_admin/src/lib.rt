//! The administration gate of a host controller, and the opening and closing of pipes (ETSI TS 102 622, sections
//! 6.1, 7.1, 8.1 and 8.2).
#![tactic(auto)]

mod body;
mod decision;
mod parameters;
mod pipes;
mod view;

pub use decision::{Decision, decide};
pub use pipes::{far_end, far_end_of, is_opened};
pub use view::LinkView;
