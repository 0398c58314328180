//! One word of a text.
use arrayvec::ArrayVec;

/// How many bytes of a word are kept: a level and the longest code.
pub(crate) const KEPT: usize = 33;

/// A word so far: its first bytes, and whether there are more.
#[derive(Drop)]
pub(crate) struct VcdWord {
    bytes: ArrayVec<u8, KEPT>,
    is_longer: bool,
}

impl VcdWord {
    /// No byte yet.
    pub(crate) fn new() -> Self {
        VcdWord {
            bytes: ArrayVec::new(),
            is_longer: false,
        }
    }

    /// Adds a byte.
    pub(crate) fn push(&mut self, byte: u8) {
        if self.bytes.is_full() {
            self.is_longer = true;
        } else {
            self.bytes.push(byte);
        }
    }

    /// Begins anew.
    pub(crate) fn clear(&mut self) {
        self.bytes.clear();
        self.is_longer = false;
    }

    /// The bytes that are kept.
    pub(crate) fn bytes(&self) -> &[u8] {
        self.bytes.as_slice()
    }

    /// Whether bytes are missing.
    pub(crate) fn is_longer(&self) -> bool {
        self.is_longer
    }
}
