//! What a controller knows of its links when it decides.
ghost use Rattle.std.specs.Prelude.{◌≡◌, ◌<◌};
ghost use Rattle.gate_admin.specs.View.{has};

use arrayvec::ArrayVec;

/// What a controller knows of its links. In a mask bit h stands for host h. This project's own.
#[derive(Drop)]
pub struct LinkView {
    /// The configured hosts.
    pub hosts: u8,
    /// The hosts whose link is up and whose pipe 01 is opened.
    pub connected: u8,
    /// The hosts that were sent a notice and didn't answer it yet.
    pub noticed: u8,
    /// The hosts that were sent the notice of a creation and didn't answer it yet.
    pub asked: u8,
    /// The pipes of creations that wait for a host's answer.
    pub waiting: ArrayVec<u8, 7>,
    /// REC_ERROR of the end that the command came from.
    pub errors: u16,
}

impl LinkView {
    ghost use Rattle.std.specs.Prelude.{◌≡◌};
    ghost use Rattle.gate_admin.specs.View.{is_configured, is_connected, is_noticed, is_asked};

    /// Whether a host is configured, the controller aside.
    pub fn is_configured(&self, host: u8) -> bool
        ensures { result ≡ is_configured self.now host }
    {
        is_in(self.hosts, host)
    }

    /// Whether a host is connected.
    pub fn is_connected(&self, host: u8) -> bool
        ensures { result ≡ is_connected self.now host }
    {
        is_in(self.connected, host)
    }

    /// Whether a host has an unanswered notice.
    pub fn is_noticed(&self, host: u8) -> bool
        ensures { result ≡ is_noticed self.now host }
    {
        is_in(self.noticed, host)
    }

    /// Whether a host has an unanswered notice of a creation.
    pub fn is_asked(&self, host: u8) -> bool
        ensures { result ≡ is_asked self.now host }
    {
        is_in(self.asked, host)
    }
}

// Whether a host, 01 to 07, is in a mask.
fn is_in(mask: u8, host: u8) -> bool
    ensures { result ≡ has mask host }
{
    1 <= host && host <= 7 && (mask >> host) % 2 == 1
}
