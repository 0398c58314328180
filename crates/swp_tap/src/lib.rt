//! A passive tap on one link: it hears what both ends put on the link, and tells which messages each end has got, without being an end.
//! This project's own.
#![tactic(auto)]

mod body;
mod side;
mod tap;
mod under_way;

pub use tap::{Tap, TapHead, TapMessage};
