//! What a node keeps of one of its ends beside the end itself.
ghost use Rattle.std.specs.Prelude.{◌≡◌, option_map};
ghost use Rattle.node_deeds.specs.Desks.{desk_of};

use pipe_table::PipeRow;

/// What a notice is about (ETSI TS 102 622, section 6.1).
#[derive(Clone, Copy)]
pub enum About {
    /// A creation that waits for the answer of the host that is asked: the pipe to be made, which its creator asked for.
    Waits(PipeRow),
    /// A creation that was forgotten, since the session of its asker ended.
    Forgotten,
    /// A pipe that was deleted, or all pipes of a host.
    Removed,
}

/// A notice that isn't answered. That an answer is awaited for 100 ticks is this project's own.
#[derive(Clone, Copy)]
pub struct Unanswered {
    pub about: About,
    /// The ticks since it was sent, 0 to 100.
    pub age: u8,
}

/// What a node keeps of one of its ends beside the end itself. This project's own.
#[derive(Clone, Copy, Default)]
pub struct Desk {
    /// The host of the link.
    pub host: u8,
    /// At a controller: the notice to this host that isn't answered.
    pub notice: Option<Unanswered>,
    /// The first message that came and had no turn was noted as held.
    pub holds: bool,
    /// REC_ERROR.
    pub errors: u16,
}

impl Desk {
    ghost use Rattle.std.specs.Prelude.{◌≡◌};
    ghost use Rattle.node_deeds.specs.Shown.{awaited_row};

    /// The pipe of the creation that the host of this desk is asked for, while it waits.
    pub fn awaited(&self) -> Option<PipeRow>
        ensures { result ≡ awaited_row self.now }
    {
        match self.notice {
            Some(
                Unanswered {
                    about: About::Waits(row),
                    ..
                },
            ) => Some(row),
            _ => None,
        }
    }
}

/// The desk of the end of the link with a host.
pub(crate) fn desk_at(desks: &[Desk], host: u8) -> Option<&Desk>
    ensures { option_map (λ desk. desk.now) result ≡ desk_of desks.now host }
{
    desks.iter().find(|desk| desk.host == host)
}
