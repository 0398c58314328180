//! A chain of blocks, as its holder knows it.

/// A chain of bytes in a pool. It is spent by giving it back. One that is dropped leaves its blocks used, so it is dropped
/// only with its whole pool. The default is an empty chain of owner 0.
#[derive(Default, Drop)]
pub struct Chain {
    pub(crate) owner: u8,
    /// Its first block, where it has bytes.
    pub(crate) first: Option<u16>,
}
