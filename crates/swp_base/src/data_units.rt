//! The payload of a frame, and the information field inside it.
ghost use Rattle.std.specs.Prelude.{◌≡◌, ◌<◌, ◌≤◌, ◌∷◌, [], length, Ok};
ghost use Rattle.std.specs.Option.{SomeIff};
ghost use Rattle.swp_base.specs.DataUnits.{IsLpdu, IsInfo};

use arrayvec::ArrayVec;
use std::alloc::AllocError;
use std::marker::Model;

/// A link protocol data unit, the payload of one frame: a control byte and what belongs to it (ETSI TS 102 613,
/// section 9). It has 1 to 30 bytes; that the longest has 30 is this project's own.
#[derive(Debug, Drop, PartialEq, Eq)]
pub struct Lpdu {
    pub bytes: ArrayVec<u8, 30>,
}

impl Model for Lpdu {
    ghost use Rattle.std.specs.Prelude.{List, ℕ};
    ghost use Rattle.swp_base.specs.DataUnits.{IsLpdu};

    ghost Value = { List ℕ };

    ghost view = { λ l. l.bytes.items };

    ghost invariant = { λ l. IsLpdu l.bytes.items };

    ghost inverse = { λ xs. record { bytes = record { items = xs } } };
}

impl Lpdu {
    /// The most bytes of an LPDU.
    pub const MAX_LEN: usize = 30;

    /// The LPDU of these bytes, of which there are 1 to 30.
    pub fn new(bytes: &[u8]) -> Self
        requires { IsLpdu bytes.now }
        ensures { result ≡ bytes.now }
    {
        let mut unit = ArrayVec::new();
        let _fits = unit.try_extend_from_slice(bytes);
        Self { bytes: unit }
    }

    /// The LPDU of these bytes: none where there is no byte, or where there are more than 30.
    pub fn from_bytes(bytes: &[u8]) -> Option<Self>
        ensures { SomeIff result (IsLpdu bytes.now) bytes.now }
    {
        if bytes.is_empty() || bytes.len() > Self::MAX_LEN {
            return None;
        }
        Some(Self::new(bytes))
    }

    /// The bytes, the control byte first.
    pub fn bytes(&self) -> &[u8]
        ensures value { result.now ≡ self.now }
        ensures sized { IsLpdu result.now }
    {
        self.bytes.as_slice()
    }

    /// Another LPDU of the same bytes. It takes no memory. Most acknowledgements have a single byte.
    pub fn copied(&self) -> Self
        ensures { result ≡ self.now }
    {
        let from = self.bytes();
        let Self { mut bytes } = Self::new(&[from[0]]);
        if from.len() > 1 {
            let _fits = bytes.try_extend_from_slice(&from[1..]);
        }
        Self { bytes }
    }
}

impl Clone for Lpdu {
    ghost is_clone = { λ a b. b ≡ a };

    ghost is_infallible = { λ _. Unit {0} };

    fn clone(&self) -> Result<Self, AllocError> {
        Ok(self.copied())
    }
}

/// The one byte 00.
impl Default for Lpdu {
    ghost is_default = { λ l. l ≡ 0 ∷ [] };

    fn default() -> Self {
        let mut bytes = ArrayVec::new();
        bytes.push(0);
        Self { bytes }
    }
}

/// The information field of an I frame, which carries one packet (ETSI TS 102 613, section 10). It has 1 to 29 bytes;
/// that the longest has 29 is this project's own.
#[derive(Debug, Drop, PartialEq, Eq)]
pub struct Info {
    pub bytes: ArrayVec<u8, 29>,
}

impl Model for Info {
    ghost use Rattle.std.specs.Prelude.{List, ℕ};
    ghost use Rattle.swp_base.specs.DataUnits.{IsInfo};

    ghost Value = { List ℕ };

    ghost view = { λ i. i.bytes.items };

    ghost invariant = { λ i. IsInfo i.bytes.items };

    ghost inverse = { λ xs. record { bytes = record { items = xs } } };
}

impl Info {
    /// The most bytes of an information field.
    pub const MAX_LEN: usize = 29;

    /// The information field of these bytes, of which there are 1 to 29.
    pub fn new(bytes: &[u8]) -> Self
        requires { IsInfo bytes.now }
        ensures { result ≡ bytes.now }
    {
        let mut field = ArrayVec::new();
        let _fits = field.try_extend_from_slice(bytes);
        Self { bytes: field }
    }

    /// The information field of these bytes: none where there is no byte, or where there are more than 29.
    pub fn from_bytes(bytes: &[u8]) -> Option<Self>
        ensures { SomeIff result (IsInfo bytes.now) bytes.now }
    {
        if bytes.is_empty() || bytes.len() > Self::MAX_LEN {
            return None;
        }
        Some(Self::new(bytes))
    }

    /// The bytes.
    pub fn bytes(&self) -> &[u8]
        ensures value { result.now ≡ self.now }
        ensures sized { IsInfo result.now }
    {
        self.bytes.as_slice()
    }

    /// Another information field of the same bytes. It takes no memory.
    pub fn copied(&self) -> Self
        ensures { result ≡ self.now }
    {
        Self::new(self.bytes())
    }
}

impl Clone for Info {
    ghost is_clone = { λ a b. b ≡ a };

    ghost is_infallible = { λ _. Unit {0} };

    fn clone(&self) -> Result<Self, AllocError> {
        Ok(self.copied())
    }
}

/// The one byte 00.
impl Default for Info {
    ghost is_default = { λ i. i ≡ 0 ∷ [] };

    fn default() -> Self {
        let mut bytes = ArrayVec::new();
        bytes.push(0);
        Self { bytes }
    }
}
