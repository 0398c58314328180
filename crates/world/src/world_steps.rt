//! The world of a run, line by line, round by round and part by part, below either header.
ghost use Rattle.std.specs.Prelude.{◌≡◌, ◌-◌, ◌+◌, ℕ, [], ◌∷◌, ◌++◌, List, IfOk, OnOk, IfErr, None, true, length, map, replicate};
ghost use Rattle.std.specs.List.{AllByRecursion};
ghost use Rattle.trace_model.specs.Lines.{IsNodeOf, MayBegin};
ghost use Rattle.trace_model.specs.declared.entry.Entry.TheVariants.{Echo, Settled};
ghost use Rattle.trace_model.specs.declared.line.Line.{Line as Spoken};
ghost use Rattle.trace_model.specs.declared.line.Line.TheVariants as line;
ghost use Rattle.lines_told.specs.lines.Below.{IsPlayedLine, memory_behind, nodes_behind, opening_told, told_below, misread_below};
ghost use Rattle.lines_told.specs.lines.Plays.{Play, lines_played, rests_behind, told_of_play};
ghost use Rattle.lines_told.specs.lines.Plays.Play.{Said, Round};
ghost use Rattle.node_world.specs.Worlds.{IsPeekedSo};
ghost use Rattle.world.specs.declared.fault.WorldFault.TheVariants as fault;
ghost use Rattle.world.specs.Worlds.{StandsBelow, last_noted};

use crate::bare_world::BareWorld;
use crate::fault::WorldFault;
use link_wires::Misread;
use node_world::NodeWorld;
use std::alloc::Global;
use swp_base::{MemNv, NoMemory};
use trace_model::{End, Entry, Header, Line};

/// What a header names: one bare link, or a controller and its hosts.
#[derive(Drop)]
pub(crate) enum Below {
    Bare(BareWorld),
    Nodes(NodeWorld),
}

/// A line that lets the links settle and isn't closed yet: how many rounds it allows, and how many parts of them were done.
#[derive(Drop)]
pub(crate) struct OpenLine {
    most: u32,
    parts: u32,
}

/// The world of a run (this project's own).
#[derive(Drop)]
pub struct World {
    header: Header,
    below: Below,
    opened: Option<OpenLine>,
}

impl World {
    ghost use Rattle.world.specs.Worlds.{IsWorldAt, HasRoomForLine, HasRoomToSettle, IsFaultThere, world_header, world_entries};
    ghost use Rattle.world.specs.Worlds.{StandsBehind, IsWorldWithin, HasRoomForPart, HasComeTo, IsPartLine, MayBeMarked};
    ghost use Rattle.node_world.specs.Legal.{HaveLegalHistory, IsKeptBehind};
    ghost use Rattle.lines_told.specs.lines.Below.{frames_below, runs_below};

    /// The world that a header names. Below a bare one both ends of its link are Up in session 0, and no frame is on its way; below that
    /// of nodes no node runs yet, and all memories are blank.
    ///
    /// # Errors
    ///
    /// `NoMemory` where memory runs out.
    pub fn new(alloc: Global, header: &Header) -> Result<World, NoMemory>
        requires { MayBegin header.now }
        ensures stands { IfOk result (λ w. IsWorldAt w header.now []) }
        ensures header { IfOk result (λ w. world_header w ≡ header.now) }
        ensures entries { IfOk result (λ w. world_entries w ≡ opening_told header.now) }
    {
        Ok(World {
            header: header.clone()?,
            below: named_by(alloc, header)?,
            opened: None,
        })
    }

    /// Does what a line asks for, or refuses it. Fewer than 20,000 lines were stepped before, and no line that lets the links settle is open.
    ///
    /// # Errors
    ///
    /// `Undetected` exactly where the line damages a frame so that another one is read in its place; `NoMemory` where memory
    /// runs out. The world is of no use then.
    #[inline(always)]
    pub fn step(&mut self, alloc: Global, line: &Line) -> Result<(), WorldFault>
        requires room { HasRoomForLine self.old }
        requires line { IsPlayedLine (world_header self.old) line.now }
        ensures stands { (plays : List Play) → IsWorldAt self.old (world_header self.old) plays
            → OnOk result (IsWorldAt self.new (world_header self.old) (plays ++ Said line.now ∷ [])) }
        ensures entries { (plays : List Play) → IsWorldAt self.old (world_header self.old) plays
            → OnOk result (world_entries self.new ≡ told_below (world_header self.old) (lines_played (world_header self.old) plays) line.now) }
        ensures fault { (plays : List Play) → IsWorldAt self.old (world_header self.old) plays
            → IfErr result (IsFaultThere (world_header self.old) (lines_played (world_header self.old) plays) line.now) }
        ensures told { (plays : List Play) → IsWorldAt self.old (world_header self.old) plays
            → OnOk result (misread_below (world_header self.old) (lines_played (world_header self.old) plays) line.now ≡ None) }
        ensures legal { (plays : List Play) → IsWorldAt self.old (world_header self.old) plays
            → OnOk result (HaveLegalHistory (world_header self.old) (plays ++ Said line.now ∷ [])) }
        ensures header { world_header self.new ≡ world_header self.old }
    {
        match &mut self.below {
            Below::Bare(world) => world.step(line),
            Below::Nodes(world) => match world.step(alloc, line) {
                Ok(None) => Ok(()),
                Ok(Some(Misread { sent, read })) => Err(WorldFault::Undetected { sent, read }),
                Err(_) => Err(WorldFault::NoMemory),
            },
        }
    }

    /// A round: the controller's end of each link and then the host's, the links ascending, takes all frames that stand on the wire to it
    /// then, where its node runs; and then time passes, one tick. Fewer than 400,000,000 rounds were done before, and no line that lets the
    /// links settle is open.
    ///
    /// # Errors
    ///
    /// `NoMemory` where memory runs out. The world is of no use then.
    pub fn round(&mut self) -> Result<(), WorldFault>
        requires { HasRoomToSettle self.old }
        ensures stands { (plays : List Play) → IsWorldAt self.old (world_header self.old) plays
            → OnOk result (IsWorldAt self.new (world_header self.old) (plays ++ Round ∷ [])) }
        ensures entries { (plays : List Play) → IsWorldAt self.old (world_header self.old) plays
            → OnOk result (world_entries self.new ≡ told_of_play (world_header self.old) (lines_played (world_header self.old) plays) Round) }
        ensures legal { (plays : List Play) → IsWorldAt self.old (world_header self.old) plays
            → OnOk result (HaveLegalHistory (world_header self.old) (plays ++ Round ∷ [])) }
        ensures fault { IfErr result (λ why. why ≡ fault.NoMemory) }
        ensures header { world_header self.new ≡ world_header self.old }
    {
        match &mut self.below {
            Below::Bare(world) => world.round(),
            Below::Nodes(world) => match world.round() {
                Ok(()) => Ok(()),
                Err(_) => Err(WorldFault::NoMemory),
            },
        }
    }

    /// Opens a line that lets the links settle, where the entry is its echo, or closes the open one, where it says in how many rounds the
    /// links settled. A line may be opened where none is open, and closed where its parts were the lines of just the rounds that it comes
    /// to. No node and no wire changes, and the entry isn't among those of the last line.
    pub fn mark(&mut self, entry: &Entry)
        requires { MayBeMarked self.old entry.now }
        ensures opens { (plays : List Play) (most : ℕ) → IsWorldAt self.old (world_header self.old) plays → entry.now ≡ Echo (line.Settle most)
            → IsWorldWithin self.new (world_header self.old) plays most [] }
        ensures closes { (plays : List Play) (most : ℕ) (parts : List Spoken) (rounds : ℕ) → entry.now ≡ Settled rounds
            → HasComeTo self.old (world_header self.old) plays most parts rounds
            → IsWorldAt self.new (world_header self.old) (plays ++ replicate rounds Round) }
        ensures entries { world_entries self.new ≡ world_entries self.old }
        ensures header { world_header self.new ≡ world_header self.old }
    {
        match entry {
            Entry::Echo(line) => {
                let Line::Settle { rounds } = line else {
                    unreachable!()
                };
                self.opened = Some(OpenLine {
                    most: *rounds,
                    parts: 0,
                });
            }
            Entry::Settled { rounds } => {
                let Some(opened) = self.opened.take() else {
                    unreachable!()
                };
                match &mut self.below {
                    Below::Bare(world) => world.count_as_rounds(opened.parts, *rounds),
                    Below::Nodes(world) => world.count_as_rounds(opened.parts, *rounds),
                }
            }
            _ => unreachable!(),
        }
    }

    /// Does what a line `deliver` or `tick` asks for, or refuses it, as a part of the open line that lets the links settle. Parts may come
    /// in any order; fewer than 300,000 of the line were done before.
    ///
    /// # Errors
    ///
    /// `NoMemory` where memory runs out. The world is of no use then.
    pub fn part(&mut self, line: &Line) -> Result<(), WorldFault>
        requires room { HasRoomForPart self.old }
        requires line { IsPartLine (world_header self.old) line.now }
        ensures stands { (plays : List Play) (most : ℕ) (parts : List Spoken) → IsWorldWithin self.old (world_header self.old) plays most parts
            → OnOk result (IsWorldWithin self.new (world_header self.old) plays most (parts ++ line.now ∷ [])) }
        ensures entries { (plays : List Play) (most : ℕ) (parts : List Spoken) → IsWorldWithin self.old (world_header self.old) plays most parts
            → OnOk result (world_entries self.new ≡ told_below (world_header self.old) (lines_played (world_header self.old) plays ++ parts) line.now) }
        ensures legal { (plays : List Play) (most : ℕ) (parts : List Spoken) → IsWorldWithin self.old (world_header self.old) plays most parts
            → AllByRecursion (IsPartLine (world_header self.old)) parts
            → OnOk result (HaveLegalHistory (world_header self.old) (plays ++ map Said (parts ++ line.now ∷ []))) }
        ensures fault { IfErr result (λ why. why ≡ fault.NoMemory) }
        ensures header { world_header self.new ≡ world_header self.old }
    {
        let Some(opened) = &mut self.opened else {
            unreachable!()
        };
        opened.parts += 1;
        match &mut self.below {
            Below::Bare(world) => world.step(line),
            Below::Nodes(world) => {
                let alloc = world.allocator();
                match world.step(alloc, line) {
                    Ok(None) => Ok(()),
                    _ => Err(WorldFault::NoMemory),
                }
            }
        }
    }

    /// Whether all links are at rest: no frame stands on a wire, no end waits for the acceptance of a reset, and at each end that is up
    /// all messages sent in its session are acknowledged.
    pub fn quiet(&self) -> bool
        requires { (plays : List Play) × StandsBehind self.now plays }
        ensures { (plays : List Play) → StandsBehind self.now plays → result ≡ rests_behind (world_header self.now) plays }
    {
        match &self.below {
            Below::Bare(world) => world.rests(),
            Below::Nodes(world) => world.rests(),
        }
    }

    /// How many frames are on their way to an end of a link.
    pub fn standing(&self, link: u8, at_host: bool) -> u16
        requires { (plays : List Play) × StandsBehind self.now plays }
        ensures { (plays : List Play) → StandsBehind self.now plays → result ≡ length
            (frames_below (world_header self.now) (lines_played (world_header self.now) plays) (record { link = link; at_host = at_host })) }
    {
        match &self.below {
            Below::Bare(world) => world.standing(at_host),
            Below::Nodes(world) => world.standing(End { link, at_host }),
        }
    }

    /// Whether a node runs. The ends of a bare world always do.
    pub fn running(&self, node: u8) -> bool
        ensures { (plays : List Play) → StandsBehind self.now plays
            → result ≡ runs_below (world_header self.now) (lines_played (world_header self.now) plays) node }
    {
        match &self.below {
            Below::Bare(_) => true,
            Below::Nodes(world) => world.running(node),
        }
    }

    /// The header that the world was made of.
    pub fn header(&self) -> &Header
        ensures { result.now ≡ world_header self.now }
    {
        &self.header
    }

    /// What the last line, round or part caused, in order; before the first, what the header did. The lines themselves aren't in it.
    pub fn entries(&self) -> &[Entry]
        ensures { result.now ≡ world_entries self.now }
    {
        match &self.below {
            Below::Bare(world) => world.entries(),
            Below::Nodes(world) => world.entries(),
        }
    }

    /// The memory of a node as it is now, whether the node runs or not.
    pub fn into_memory(self, node: u8) -> MemNv
        requires state { (plays : List Play) × IsWorldAt self (world_header self) plays }
        requires nodes { (world_header self).hci ≡ true }
        requires node { IsNodeOf (world_header self).hosts.items node }
        ensures memory { (plays : List Play) → IsWorldAt self (world_header self) plays
            → result ≡ memory_behind (world_header self) (lines_played (world_header self) plays) node }
        ensures found { (plays : List Play) → IsWorldAt self (world_header self) plays
            → IsPeekedSo (nodes_behind (world_header self) (lines_played (world_header self) plays)) node result.content }
        ensures kept { (plays : List Play) → IsWorldAt self (world_header self) plays → IsKeptBehind (world_header self) plays node result.content }
    {
        match self.below {
            Below::Bare(_) => unreachable!(),
            Below::Nodes(world) => world.into_memory(node),
        }
    }
}

// What a header names, before the first line.
fn named_by(alloc: Global, header: &Header) -> Result<Below, NoMemory>
    requires { MayBegin header.now }
    ensures stands { IfOk result (λ b. StandsBelow b header.now []) }
    ensures entries { IfOk result (λ b. last_noted b ≡ opening_told header.now) }
{
    if header.hci {
        Ok(Below::Nodes(NodeWorld::new(alloc, header)?))
    } else {
        Ok(Below::Bare(BareWorld::new(alloc, header)?))
    }
}
