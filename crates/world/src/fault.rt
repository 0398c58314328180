//! Why a world can't go on.
ghost use Rattle.std.specs.Prelude.{◌≡◌};

use std::alloc::AllocError;
use swp_base::Lpdu;

/// Why the world can't go on. It can only be dropped then.
#[derive(Debug, Drop)]
pub enum WorldFault {
    /// A line damages a frame so that another one is read in its place: the CRC doesn't show it.
    Undetected {
        /// The frame on the wire.
        sent: Lpdu,
        /// The one that is read.
        read: Lpdu,
    },
    /// There was no memory for what a line causes.
    NoMemory,
}

impl From<AllocError> for WorldFault {
    ghost use Rattle.std.specs.Prelude.{◌≡◌};
    ghost use Rattle.world.specs.declared.fault.WorldFault.TheVariants as fault;

    ghost from_gives = { λ _ f. f ≡ fault.NoMemory };

    fn from(_: AllocError) -> Self {
        WorldFault::NoMemory
    }
}
