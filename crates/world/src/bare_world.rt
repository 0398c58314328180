//! A bare world, line by line and round by round.
ghost use Rattle.std.specs.Prelude.{◌≡◌, ◌-◌, ◌+◌, [], ◌∷◌, ◌++◌, List, IfOk, OnOk, IfErr, None, length};
ghost use Rattle.std.specs.List.{AllByRecursion};
ghost use Rattle.trace_model.specs.Lines.{IsHeader, IsLineOf};
ghost use Rattle.link_laws.specs.entries.Entries.End.{Controller};
ghost use Rattle.history.specs.Histories.{History, noted};
ghost use Rattle.history.specs.Follows.{opening_of, host_of, outcome_of, misread, link_at, opened, with_step, frames_to};
ghost use Rattle.history.specs.Steps.{end_of};
ghost use Rattle.link_laws.specs.messages.Rest.{link_rests};
ghost use Rattle.lines_told.specs.lines.Plays.{Play, IsPlayFor, lines_played, lines_said, rounds_played, round_behind, told_of_play};
ghost use Rattle.lines_told.specs.lines.Plays.Play.{Said, Round};
ghost use Rattle.node_world.specs.Worlds.{AreFewWithParts};
ghost use Rattle.world.specs.declared.fault.WorldFault.TheVariants as fault;

use crate::fault::WorldFault;
use crate::line_steps::{end_of, play_line};
use crate::rounds::play_round;
use crate::side::Side;
use history::bare_histories::every_history_is_legal;
use link_wires::Misread;
use std::alloc::{AllocError, Global};
use swp_base::NoMemory;
use trace_model::{End, Entry, Header, Line};

/// The world below a bare header: both ends of its link, the frames between them, and what the last line or round caused (this project's
/// own).
#[derive(Drop)]
pub(crate) struct BareWorld {
    header: Header,
    controller: Side,
    host: Side,
    // How many RSETs were put on the link.
    resets: u32,
    // How many lines were stepped, and how many rounds were done.
    stepped: u32,
    rounds: u32,
    entries: Vec<Entry>,
    // The memory of a message that was noted, for the next one.
    spare: Vec<u8>,
}

impl BareWorld {
    ghost use Rattle.world.specs.BareWorlds.{WorldStandsFor, HasBareRoom, HasBareRoomToSettle, MayCountBare, IsFaultOf};
    ghost use Rattle.world.specs.BareWorlds.{bare_header, bare_entries, with_steps};

    /// The world that a header names: both ends of its link are Up in session 0, and no frame is on its way.
    ///
    /// # Errors
    ///
    /// `NoMemory` where memory runs out.
    pub(crate) fn new(alloc: Global, header: &Header) -> Result<BareWorld, NoMemory>
        requires { IsHeader header.now }
        ensures stands { IfOk result (λ w. WorldStandsFor w header.now [] (opened header.now)) }
        ensures entries { IfOk result (λ w. bare_entries w ≡ opening_of (host_of header.now)) }
    {
        every_history_is_legal();
        Ok(BareWorld {
            header: header.clone()?,
            controller: Side::make(alloc)?,
            host: Side::make(alloc)?,
            resets: 0,
            stepped: 0,
            rounds: 0,
            entries: opening(alloc, controller_end(header).link)?,
            spare: Vec::new(alloc),
        })
    }

    /// Does what a line asks for, or refuses it. Fewer than 320,000 lines were stepped before.
    ///
    /// # Errors
    ///
    /// `Undetected` exactly where the line damages a frame so that another one is read in its place; `NoMemory` where memory
    /// runs out. The world is of no use then.
    #[inline(always)]
    pub(crate) fn step(&mut self, line: &Line) -> Result<(), WorldFault>
        requires room { HasBareRoom self.old }
        requires line { IsLineOf (bare_header self.old) line.now }
        ensures stands { (plays : List Play) (t : History) → WorldStandsFor self.old (bare_header self.old) plays t
            → OnOk result (WorldStandsFor self.new (bare_header self.old) (plays ++ Said line.now ∷ []) (with_step t line.now)) }
        ensures entries { (plays : List Play) (t : History) → WorldStandsFor self.old (bare_header self.old) plays t
            → OnOk result (bare_entries self.new ≡ noted (outcome_of (host_of (bare_header self.old)) (link_at t) line.now)) }
        ensures fault { (plays : List Play) (t : History) → WorldStandsFor self.old (bare_header self.old) plays t
            → IfErr result (IsFaultOf (link_at t) line.now) }
        ensures told { (plays : List Play) (t : History) → WorldStandsFor self.old (bare_header self.old) plays t
            → OnOk result (misread (link_at t) line.now ≡ None) }
    {
        every_history_is_legal();
        forget(&mut self.entries, &mut self.spare);
        self.stepped += 1;
        let at = end_of(line, controller_end(&self.header));
        let mut other = None;
        if at.at_host {
            play_line(
                &mut self.spare,
                line,
                at,
                &mut self.host,
                &mut self.controller,
                &mut self.resets,
                &mut self.entries,
                &mut other,
            )?;
        } else {
            play_line(
                &mut self.spare,
                line,
                at,
                &mut self.controller,
                &mut self.host,
                &mut self.resets,
                &mut self.entries,
                &mut other,
            )?;
        }
        match other {
            Some(Misread { sent, read }) => Err(WorldFault::Undetected { sent, read }),
            None => Ok(()),
        }
    }

    /// A round: the controller's end takes all frames that stand on the wire to it, then the host's end does, and then time passes, one
    /// tick. Fewer than 400,000,000 rounds were done before.
    ///
    /// # Errors
    ///
    /// `NoMemory` where memory runs out. The world is of no use then.
    pub(crate) fn round(&mut self) -> Result<(), WorldFault>
        requires { HasBareRoomToSettle self.old }
        ensures stands { (plays : List Play) (t : History) → WorldStandsFor self.old (bare_header self.old) plays t
            → OnOk result (WorldStandsFor self.new (bare_header self.old) (plays ++ Round ∷ [])
            (with_steps t (round_behind (bare_header self.old) (lines_played (bare_header self.old) plays)))) }
        ensures entries { (plays : List Play) (t : History) → WorldStandsFor self.old (bare_header self.old) plays t
            → OnOk result (bare_entries self.new ≡ told_of_play (bare_header self.old) (lines_played (bare_header self.old) plays) Round) }
        ensures fault { IfErr result (λ why. why ≡ fault.NoMemory) }
    {
        every_history_is_legal();
        forget(&mut self.entries, &mut self.spare);
        self.rounds += 1;
        play_round(
            &mut self.spare,
            controller_end(&self.header),
            &mut self.controller,
            &mut self.host,
            &mut self.resets,
            &mut self.entries,
        )?;
        Ok(())
    }

    /// From now on so many of the lines that were stepped count as so many rounds, whose lines they were.
    pub(crate) fn count_as_rounds(&mut self, lines: u32, rounds: u32)
        requires { MayCountBare self.old lines rounds }
        ensures stands { (plays others : List Play) (t : History) → WorldStandsFor self.old (bare_header self.old) plays t
            → lines_played (bare_header self.old) plays ≡ lines_played (bare_header self.old) others
            → AllByRecursion (IsPlayFor (bare_header self.old)) others → AreFewWithParts others → lines_said others ≡ lines_said plays - lines
            → rounds_played others ≡ rounds_played plays + rounds → WorldStandsFor self.new (bare_header self.old) others t }
        ensures entries { bare_entries self.new ≡ bare_entries self.old }
    {
        self.stepped -= lines;
        self.rounds += rounds;
    }

    /// Whether the link is at rest: no frame stands on a wire, no end waits for the acceptance of a reset, and at each end that is up all
    /// messages sent in its session are acknowledged.
    pub(crate) fn rests(&self) -> bool
        ensures { (plays : List Play) (t : History) → WorldStandsFor self.now (bare_header self.now) plays t → result ≡ link_rests (link_at t) }
    {
        self.controller.rests() && self.host.rests()
    }

    /// How many frames are on their way to an end.
    pub(crate) fn standing(&self, at_host: bool) -> u16
        requires { (plays : List Play) × (t : History) × WorldStandsFor self.now (bare_header self.now) plays t }
        ensures { (plays : List Play) (t : History) → WorldStandsFor self.now (bare_header self.now) plays t
            → result ≡ length (frames_to (link_at t) (record { link = host_of (bare_header self.now); at_host = at_host })) }
    {
        if at_host {
            self.host.wire.len() as u16
        } else {
            self.controller.wire.len() as u16
        }
    }

    /// What the last line or round caused, in order; before the first, what the header did. The lines themselves aren't in it.
    pub(crate) fn entries(&self) -> &[Entry]
        ensures { result.now ≡ bare_entries self.now }
    {
        self.entries.as_slice()
    }
}

// The controller's end of the link of a header.
fn controller_end(header: &Header) -> End
    requires { IsHeader header.now }
    ensures { result ≡ end_of (host_of header.now) Controller }
{
    End {
        link: header.hosts.as_slice()[0],
        at_host: false,
    }
}

// Both ends of a link are Up from the start on.
fn opening(alloc: Global, link: u8) -> Result<Vec<Entry>, AllocError>
    ensures { IfOk result (λ entries. entries.items ≡ opening_of link) }
{
    let mut entries = Vec::new(alloc);
    let controller = End {
        link,
        at_host: false,
    };
    entries.push(Entry::Up {
        at: controller,
        session: 0,
    })?;
    entries.push(Entry::Up {
        at: controller.other(),
        session: 0,
    })?;
    Ok(entries)
}

// Nothing is noted any more. The memory of a message that was noted serves the next one.
#[inline(always)]
fn forget(entries: &mut Vec<Entry>, spare: &mut Vec<u8>)
    ensures { entries.new.items ≡ [] }
{
    'entries: while let Some(entry) = entries.pop() {
        match entry {
            Entry::Emit { lpdu, .. } | Entry::Took { lpdu, .. } | Entry::Lost { lpdu, .. } => {
                drop(lpdu);
            }
            Entry::Sent { message, .. } | Entry::Got { message, .. } => *spare = message.bytes,
            Entry::No { .. } | Entry::Acked { .. } | Entry::Up { .. } | Entry::Down { .. } => {}
            other => drop(other),
        }
    }
}
