ghost use Rattle.std.specs.Prelude.{◌≡◌};
ghost use Rattle.trace_model.specs.Ends.{other_end};

use crate::Octets;
use arrayvec::ArrayVec;
use std::alloc::AllocError;

/// One end of a link. The link has the number of its host, 01 to 07. It is written `02c` for the controller's
/// end of link 02 and `02h` for the host's end.
#[derive(Clone, Copy, Debug, PartialEq, Eq)]
pub struct End {
    /// The number of the link's host.
    pub link: u8,
    /// Whether it is the host's end.
    pub at_host: bool,
}

impl End {
    /// The other end of the same link.
    pub fn other(self) -> End
        ensures { result ≡ other_end self }
    {
        End {
            link: self.link,
            at_host: !self.at_host,
        }
    }
}

/// The first line of a schedule: which hosts there are, and whether the world has nodes or links alone.
#[derive(Debug, Drop, PartialEq, Eq)]
pub struct Header {
    /// Whether the controller and the hosts are whole nodes (`hci`) or one link stands alone (`bare`).
    pub hci: bool,
    /// The hosts, each 01 to 07, ascending.
    pub hosts: ArrayVec<u8, 7>,
}

impl Clone for Header {
    ghost use Rattle.std.specs.Prelude.{◌≡◌};

    ghost is_clone = { λ x y. y ≡ x };

    fn clone(&self) -> Result<Self, AllocError> {
        Ok(Header {
            hci: self.hci,
            hosts: self.hosts.clone()?,
        })
    }
}

/// A line of a schedule behind the header (this project's own).
#[derive(Debug, Drop, PartialEq, Eq)]
pub enum Line {
    /// `send E PID HEX`: the node of an end sends a message of at least one byte on a pipe from 00 to 6F.
    Send {
        at: End,
        pid: u8,
        message: Octets,
    },
    /// `deliver E`, `deliver E N`: an end takes the frames on the wire to it, all or the first 1 to 64.
    Deliver {
        at: End,
        count: Option<u8>,
    },
    /// `lose E`: the first frame on the wire to an end is lost.
    Lose {
        at: End,
    },
    /// `damage E P..`: bits of the first frame on the wire to an end are changed, at 1 to 16 ascending places below 400.
    Damage {
        at: End,
        places: ArrayVec<u16, 16>,
    },
    /// `tick`, `tick N`: time passes, one tick or 1 to 100.
    Tick {
        times: Option<u8>,
    },
    /// `reset E`, `reset E W`: an end resets its link, and asks for a window of 1 to 4 from now on where one is told.
    Reset {
        at: End,
        window: Option<u8>,
    },
    /// `busy E`: an end takes no more frames with information.
    Busy {
        at: End,
    },
    /// `ready E`: an end takes frames with information again.
    Ready {
        at: End,
    },
    /// `boot NODE`: a node starts from its memory.
    Boot {
        node: u8,
    },
    /// `cut NODE`: the power of a node is cut.
    Cut {
        node: u8,
    },
    /// `activate H SYNC POWER`: the link of a host is activated, with its sync identifier and a power code, 00 or 01.
    Activate {
        host: u8,
        sync: u16,
        power: u8,
    },
    /// `arm NODE K FILL`: the Kth write to the memory of a node from now on fails, K being 1 to 1,000, and leaves these 1 to
    /// 64 bytes again and again.
    Arm {
        node: u8,
        nth: u32,
        fill: ArrayVec<u8, 64>,
    },
    /// `init E IDENTITY TRIPLE..`: a host initialises its session with an identity, and makes up to eight pipes, each of
    /// its own gate, the host at the other end and the gate there.
    Init {
        at: End,
        identity: [u8; 8],
        pipes: ArrayVec<[u8; 3], 8>,
    },
    /// `tables NODE`: the tables of a node are told.
    Tables {
        node: u8,
    },
    /// `settle N`: rounds of deliveries and ticks until all links are quiet, 1 to 20,000 of them at most.
    Settle {
        rounds: u32,
    },
}
