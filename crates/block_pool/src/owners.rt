//! The owners of blocks.

/// How many blocks an owner may use, uses, and has set aside.
#[derive(Clone, Copy)]
pub struct Owner {
    pub(crate) quota: u16,
    pub(crate) used: u16,
    pub(crate) aside: u16,
}
