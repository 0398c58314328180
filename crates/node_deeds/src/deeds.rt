//! Deeds.
ghost use Rattle.std.specs.Prelude.{◌≡◌, ◌∷◌, [], length};
ghost use Rattle.gate_admin.specs.Decide.{ends_of};

use arrayvec::ArrayVec;
use gate_answers::{ADM_NOTIFY_PIPE_CREATED, Answer, Notice, notice};
use hci_tables::Command;
use pipe_table::PipeRow;

/// A command of an init, a whole message: at most ten bytes. This project's own.
pub type Order = ArrayVec<u8, 10>;

/// How an init ends. This project's own.
#[derive(Clone, Copy)]
pub enum InitEnd {
    /// The controller kept the same identity.
    Same,
    /// The identity was set, and so many pipes were made.
    Made { pipes: u8 },
    /// A command of it was refused with this code.
    Failed { code: u8 },
}

/// One of the things that a node does with a message. This project's own.
#[derive(Drop)]
pub enum Deed {
    /// ANY_OK was sent for the command that was committed. It comes first, as it is the default: a new list of deeds is then all zeros.
    SaysOk,
    /// A command is committed.
    Commits(Command),
    /// The message itself goes to the host of this link, or from a host to the controller, on the pipe that it came on.
    PassesOn { host: u8 },
    /// An answer goes to the host of this link, or from a host to the controller.
    Sends { host: u8, pipe: u8, message: Answer },
    /// The host at the far end of this pipe is asked for its creation, and a block of its creator's end is set aside for the answer.
    Asks(PipeRow),
    /// The creation of this asker waits no more: that block is free.
    Releases { asker: u8 },
    /// A host is told by this notice.
    Tells { host: u8, message: Notice },
    /// The notice to the host of the message is answered.
    IsAnswered,
    /// The message, which came on this pipe, is dropped.
    Drops { pipe: u8 },
    /// REC_ERROR of the end of the message is set.
    SetsErrors { errors: u16 },
    /// A host sends a command on pipe 01.
    Orders(Order),
    /// The last one is answered.
    Hears,
    /// The init that runs has had so many answers.
    GoesOn { answered: u8 },
    /// It ends.
    Ends(InitEnd),
}

impl Default for Deed {
    fn default() -> Self {
        Deed::SaysOk
    }
}

/// The deeds of one message, in order: at most nine. A controller that clears the pipes of a host commits that, answers, says so, and
/// tells up to six others. This project's own.
pub type Deeds = ArrayVec<Deed, 9>;

/// The two ends of a pipe and its number, as the notice and the answer of its creation carry them.
pub(crate) fn ends_of(row: &PipeRow) -> [u8; 5]
    ensures { result ≡ ends_of row.now }
{
    [
        row.creator,
        row.creator_gate,
        row.dest,
        row.dest_gate,
        row.pid,
    ]
}

/// The notice by which a host is asked for a pipe: ADM_NOTIFY_PIPE_CREATED, six bytes (ETSI TS 102 622, section 6.1).
pub fn asking_notice(row: &PipeRow) -> Notice
    ensures { result.items ≡ 18 ∷ ends_of row.now }
{
    notice(ADM_NOTIFY_PIPE_CREATED, &ends_of(row))
}
