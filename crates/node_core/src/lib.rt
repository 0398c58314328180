//! A node, controller or host, from its store and its ends: how it carries out what the handling of a message does, one thing after
//! another, until its memory fails. It stands for the machine of a node. All of it is this project's own.
#![tactic(auto)]

mod booting;
mod carrying;
mod coming;
mod controller;
mod endings;
mod finishing;
mod giving;
mod host;
mod hosts;
mod inputs;
mod node;
mod reporting;
mod running;
mod running_node;
mod turns;

pub use booting::{BootFault, BootRefused, a_boot_of_version_02_is_that_of_a_world};
pub use controller::Controller;
pub use giving::HostRefused;
pub use host::Host;
pub use inputs::NodeInput;
pub use node::Node;
pub use node_ends::LinkInput;
pub use running::{
    Ran, Stepped, a_refused_frame_counts_at_its_desk,
    a_reset_of_an_end_that_became_active_is_not_refused, frames_of_a_node_go_out,
    numbers_of_sessions_are_not_kept,
};
pub use running_node::RunningNode;
