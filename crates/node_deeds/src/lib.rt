//! What a node does with a message, a controller or a host, as a short list of deeds, and which blocks they need (ETSI TS 102 622,
//! sections 6 to 8; deeds and blocks are this project's own). Nothing is carried out here.
#![tactic(auto)]

mod answering;
mod controller;
mod deeds;
mod desks;
mod host;
mod inits;
mod notices;
mod pipes;
mod replies;
mod responses;
mod room;
mod view;

pub use controller::put_controller_deeds;
pub use deeds::{Deed, Deeds, InitEnd, Order, asking_notice};
pub use desks::{About, Desk, Unanswered};
pub use host::{Tasks, put_host_deeds};
pub use inits::{Init, Ordered, ordered_by};
pub use room::{Shortfall, lack};
