//! The words of a run: the lines of a schedule, and the entries of the transcript that a run gives.
#![tactic(auto)]

mod entry;
mod line;
mod node_tables;
mod octets;
mod watch;

pub use entry::{Entry, LostCause, NoCause};
pub use line::{End, Header, Line};
pub use node_tables::NodeTables;
pub use octets::Octets;
pub use watch::Watch;
