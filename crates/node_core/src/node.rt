//! A node that runs.
use hci_store::Store;
use node_deeds::Tasks;
use node_ends::Ends;
use std::alloc::Global;
use swp_base::Nv;

/// The most bytes of a message. This project's own.
pub(crate) const MESSAGE: usize = 4096;

/// A node that runs. 00 is the controller, any other number is that of the host.
#[derive(Drop)]
pub struct Node<N: Nv + Drop> {
    pub(crate) alloc: Global,
    pub(crate) number: u8,
    pub(crate) store: Store<N>,
    pub(crate) ends: Ends,
    /// What a host has under way; nothing at a controller.
    pub(crate) tasks: Tasks,
}

/// A message that waits at the end of the link with a host and lies in the front of the buffer of its node.
#[derive(Clone, Copy)]
pub(crate) struct InBuffer {
    pub(crate) host: u8,
    pub(crate) pipe: u8,
    /// How many bytes it has, at most 4,096.
    pub(crate) len: u16,
}
