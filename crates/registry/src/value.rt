//! One parameter of a host, and its value.
use arrayvec::ArrayVec;
use std::alloc::AllocError;

/// The parameter SESSION_IDENTITY of the administration gate: eight bytes (ETSI TS 102 622, section 7.1).
pub const SESSION_IDENTITY: u8 = 0x01;

/// The parameter MAX_PIPE of the administration gate (ETSI TS 102 622, section 7.1).
pub const MAX_PIPE: u8 = 0x02;

/// The parameter WHITELIST of the administration gate: the hosts that may create pipes to this one (ETSI TS 102 622, section 7.1).
pub const WHITELIST: u8 = 0x03;

/// The parameter HOST_LIST of the administration gate (ETSI TS 102 622, section 7.1).
pub const HOST_LIST: u8 = 0x04;

/// A parameter that isn't at its default (ETSI TS 102 622, section 4.5).
#[derive(Debug, Default, Drop, PartialEq, Eq)]
pub struct RegValue {
    /// The host, 01 to 07.
    pub host: u8,
    /// The gate, 00.
    pub gate: u8,
    /// The parameter, SESSION_IDENTITY or WHITELIST.
    pub param: u8,
    /// Its value, at most 20 bytes.
    pub value: ArrayVec<u8, 20>,
}

impl RegValue {
    ghost use Rattle.std.specs.Prelude.{◌≡◌};
    ghost use Rattle.registry.specs.Values.{place_of_value};

    pub(crate) fn place(&self) -> u16
        ensures { result ≡ place_of_value self.now }
    {
        place(self.host, self.param)
    }
}

ghost use Rattle.std.specs.Prelude.{◌≡◌, ◌+◌, ◌*◌, ◌/◌};

// The place of a kept parameter: by host, and then by parameter.
pub(crate) fn place(host: u8, param: u8) -> u16
    ensures { result ≡ 2 * host + param / 2 }
{
    2 * u16::from(host) + u16::from(param / 2)
}

impl Clone for RegValue {
    ghost use Rattle.std.specs.Prelude.{◌≡◌};

    ghost is_clone = { λ a b. b ≡ a };

    ghost is_infallible = { λ _. Unit {0} };

    fn clone(&self) -> Result<Self, AllocError> {
        let mut value = ArrayVec::new();
        let _ = value.try_extend_from_slice(self.value.as_slice());
        Ok(RegValue {
            host: self.host,
            gate: self.gate,
            param: self.param,
            value,
        })
    }
}
