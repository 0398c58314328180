use crate::{End, Header, Line, NodeTables, Octets};
use hci_tables::Command;
use swp_base::{Cause, Lpdu};

/// Why a line was refused and changed nothing. Where several hold, the first of these is told.
#[derive(Clone, Copy, Debug, PartialEq, Eq)]
pub enum NoCause {
    /// A node that the line needs isn't running.
    Off,
    /// The node that is to start runs already.
    Running,
    /// The link isn't activated.
    Inactive,
    /// The end that sends isn't up.
    NotUp,
    /// Something has to be answered first: a reset by the other end, or a command of the host by the controller.
    Waiting,
    /// The message is too long.
    TooLong,
    /// The message needs more blocks of memory than the end has to spare.
    Full { need: u16, spare: u16 },
    /// No frame stands on the wire.
    Empty,
    /// A place lies behind the frame, which has so many bits.
    Beyond { bits: u16 },
}

/// Why a frame was lost on its way.
#[derive(Clone, Copy, Debug, PartialEq, Eq)]
pub enum LostCause {
    /// A line of the schedule asked for it.
    Asked,
    /// It was on its way for too long.
    Age,
    /// The wire held as many frames as it can, and one more came.
    Full,
    /// It was damaged: its length is outside the limits.
    Length,
    /// It was damaged: its length is no whole number of bytes.
    Alignment,
    /// It was damaged: its CRC differs.
    Crc,
    /// It was damaged: it was broken off.
    Broken,
    /// It was damaged so that no frame was read.
    Nothing,
}

/// A line of the transcript (this project's own).
#[derive(Drop, PartialEq, Eq)]
pub enum Entry {
    /// The header, as it was read.
    Head(Header),
    /// A line of the schedule, as it was read.
    Echo(Line),
    /// A session begins at an end.
    Up {
        at: End,
        session: u32,
    },
    /// A session ends at an end.
    Down {
        at: End,
        cause: Cause,
    },
    /// An end is activated.
    Active {
        at: End,
    },
    /// An end gave up after so many tries.
    GaveUp {
        at: End,
        tries: u8,
    },
    /// A message was accepted for sending.
    Sent {
        at: End,
        session: u32,
        pid: u8,
        message: Octets,
    },
    /// A message was delivered.
    Got {
        at: End,
        session: u32,
        pid: u8,
        message: Octets,
    },
    /// So many messages of the session have been acknowledged so far.
    Acked {
        at: End,
        session: u32,
        count: u32,
    },
    /// A frame was put on the wire by an end.
    Emit {
        at: End,
        lpdu: Lpdu,
    },
    /// A frame was taken off the wire by an end.
    Took {
        at: End,
        lpdu: Lpdu,
    },
    /// A frame on its way to an end was lost.
    Lost {
        at: End,
        lpdu: Lpdu,
        cause: LostCause,
    },
    /// The node of an end handles a message.
    Turn {
        at: End,
        pid: u8,
        message: Octets,
    },
    /// The first waiting message at an end lacks room: it needs more blocks of memory than there are to spare.
    Held {
        at: End,
        need: u16,
        spare: u16,
    },
    /// The notice of a creation goes to a host, which is asked.
    Ask {
        host: u8,
        message: Octets,
    },
    /// The message that was handled last was dropped.
    Dropped {
        at: End,
        pid: u8,
    },
    /// A commit of a command is begun at a node.
    Command {
        node: u8,
        command: Command,
    },
    /// ANY_OK was sent for the command of this number of a node.
    AnyOk {
        node: u8,
        count: u32,
    },
    /// A session was initialised, and the host's identity is the one that is kept.
    InitSame {
        at: End,
    },
    /// A session was initialised anew, and so many pipes were made.
    InitMade {
        at: End,
        count: u8,
    },
    /// The initialisation of a session ended with a response of this code.
    InitFailed {
        at: End,
        code: u8,
    },
    /// The power of a node was cut.
    Cut {
        node: u8,
    },
    /// A node has started, and found so many commands in its memory.
    Booted {
        node: u8,
        count: u32,
    },
    /// The tables of a node.
    Tables {
        node: u8,
        tables: NodeTables,
    },
    /// So many rounds were done until all links were quiet, or as many as were asked for.
    Settled {
        rounds: u32,
    },
    /// The line was refused and changed nothing.
    No {
        cause: NoCause,
    },
}
