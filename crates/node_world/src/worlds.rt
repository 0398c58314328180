//! The world of nodes, line by line and round by round.
ghost use Rattle.std.specs.Prelude.{◌≡◌, ◌-◌, ◌+◌, [], ◌∷◌, ◌++◌, List, length, None, Some, IfOk, OnErr, OnOk};
ghost use Rattle.std.specs.List.{AllByRecursion};
ghost use Rattle.std.specs.Vec.{vec_allocator};
ghost use Rattle.trace_model.specs.declared.line.Header.{Header as Named};
ghost use Rattle.trace_model.specs.Lines.{IsNodeHeader, IsNodeOf};
ghost use Rattle.node_machine.specs.world.World.{memory_at};
ghost use Rattle.node_machine.specs.world.Lines.{frames_at, is_running, misread_in};
ghost use Rattle.node_machine.specs.world.Rounds.{world_rests};
ghost use Rattle.lines_told.specs.lines.Below.{IsPlayedLine, nodes_behind, told_below};
ghost use Rattle.lines_told.specs.lines.Plays.{Play, IsPlayFor, lines_played, lines_said, rounds_played, told_of_play};
ghost use Rattle.lines_told.specs.lines.Plays.Play.{Said, Round};

use crate::controller_sites::place_of;
use crate::frame_lines::damage_line;
use crate::looking::{on_the_way, runs};
use crate::making::{make_sites, mask_of};
use crate::playing::play_line;
use crate::resting::all_rest;
use crate::rounds::go_round;
use link_wires::Misread;
use node_sites::memory::NodeMemory;
use node_sites::noted::Noted;
use node_sites::places::HostSite;
use node_sites::power::Power;
use std::alloc::Global;
use swp_base::{MemNv, NoMemory};
use trace_model::{End, Entry, Header, Line};

/// The world below a header of nodes: a controller and its hosts, each with its memory, running or not, the links between them, and what
/// the last line or round caused (this project's own).
#[derive(Drop)]
pub struct NodeWorld {
    controller: Power,
    // Ascending.
    sites: Vec<HostSite>,
    // The hosts: bit h stands for host h.
    mask: u8,
    // How many lines were stepped, and how many rounds were gone through.
    stepped: u32,
    rounds: u32,
    noted: Noted,
}

impl NodeWorld {
    ghost use Rattle.node_world.specs.Worlds.{AreFewWithParts, IsNodeWorldBehind, HasRoomForNodeLine, HasRoomForRound, MayCountAsRounds};
    ghost use Rattle.node_world.specs.Worlds.{IsPeekedSo, nodes_entries};
    ghost use Rattle.node_world.specs.Whole.{IsMisreadIn};

    /// The world that a header names: no node runs yet, all memories are blank, and no frame is on its way.
    ///
    /// # Errors
    ///
    /// `NoMemory` where memory runs out.
    pub fn new(alloc: Global, header: &Header) -> Result<NodeWorld, NoMemory>
        requires { IsNodeHeader header.now }
        ensures stands { IfOk result (λ k. IsNodeWorldBehind k header.now []) }
        ensures entries { IfOk result (λ k. nodes_entries k ≡ []) }
    {
        Ok(NodeWorld {
            controller: Power::Off(NodeMemory::new(alloc)?),
            sites: make_sites(alloc, header.hosts.as_slice())?,
            mask: mask_of(header.hosts.as_slice()),
            stepped: 0,
            rounds: 0,
            noted: Noted {
                entries: Vec::new(alloc),
                short: false,
                sessions: [0; 8],
                spares: Vec::new(alloc),
            },
        })
    }

    /// Does what a line asks for, or refuses it. Fewer than 320,000 lines were stepped before. Where the line damages a frame so that
    /// another one is read in its place, that is answered, and the world is of no use then.
    ///
    /// # Errors
    ///
    /// `NoMemory` where memory runs out. The world is of no use then.
    #[inline(always)]
    pub fn step(&mut self, alloc: Global, line: &Line) -> Result<Option<Misread>, NoMemory>
        requires room { HasRoomForNodeLine self.old line.now }
        ensures stands { (header : Named) (plays : List Play) → IsNodeWorldBehind self.old header plays → IsPlayedLine header line.now
            → IfOk result (λ other. other ≡ None → IsNodeWorldBehind self.new header (plays ++ Said line.now ∷ [])) }
        ensures entries { (header : Named) (plays : List Play) → IsNodeWorldBehind self.old header plays → IsPlayedLine header line.now
            → IfOk result (λ other. other ≡ None → nodes_entries self.new ≡ told_below header (lines_played header plays) line.now) }
        ensures misread { (header : Named) (plays : List Play) → IsNodeWorldBehind self.old header plays → IsPlayedLine header line.now
            → IfOk result (IsMisreadIn (nodes_behind header (lines_played header plays)) line.now) }
        ensures told { (header : Named) (plays : List Play) → IsNodeWorldBehind self.old header plays → IsPlayedLine header line.now
            → OnErr result (misread_in (nodes_behind header (lines_played header plays)) line.now ≡ None) }
    {
        self.stepped += 1;
        self.noted.forget();
        let sites = self.sites.as_mut_slice();
        if let Line::Damage { at, places } = line {
            return damage_line(&mut self.controller, sites, *at, places, &mut self.noted);
        }
        play_line(
            alloc,
            &mut self.controller,
            sites,
            self.mask,
            line,
            &mut self.noted,
        )?;
        Ok(None)
    }

    /// Goes through a round: each end takes all that stands on its wire then, the controller's end of a link before the host's and the links
    /// ascending, and then time passes once. Fewer than 400,000,000 rounds were gone through before.
    ///
    /// # Errors
    ///
    /// `NoMemory` where memory runs out. The world is of no use then.
    pub fn round(&mut self) -> Result<(), NoMemory>
        requires room { HasRoomForRound self.old }
        ensures stands { (header : Named) (plays : List Play) → IsNodeWorldBehind self.old header plays
            → OnOk result (IsNodeWorldBehind self.new header (plays ++ Round ∷ [])) }
        ensures entries { (header : Named) (plays : List Play) → IsNodeWorldBehind self.old header plays
            → OnOk result (nodes_entries self.new ≡ told_of_play header (lines_played header plays) Round) }
    {
        self.rounds += 1;
        self.noted.forget();
        go_round(
            &mut self.controller,
            self.sites.as_mut_slice(),
            &mut self.noted,
        )
    }

    /// Where it takes its memory.
    pub fn allocator(&self) -> Global
        ensures { result ≡ vec_allocator self.now.noted.entries }
    {
        *self.noted.entries.allocator()
    }

    /// From now on so many of the lines that were stepped count as so many rounds, whose lines they were.
    pub fn count_as_rounds(&mut self, lines: u32, rounds: u32)
        requires { MayCountAsRounds self.old lines rounds }
        ensures stands { (header : Named) (plays others : List Play) → IsNodeWorldBehind self.old header plays
            → lines_played header plays ≡ lines_played header others → AllByRecursion (IsPlayFor header) others → AreFewWithParts others
            → lines_said others ≡ lines_said plays - lines → rounds_played others ≡ rounds_played plays + rounds
            → IsNodeWorldBehind self.new header others }
        ensures entries { nodes_entries self.new ≡ nodes_entries self.old }
    {
        self.stepped -= lines;
        self.rounds += rounds;
    }

    /// Whether all links are at rest: both wires of each are empty, no end of it waits for the acceptance of a reset, and where an end is up
    /// all messages that were sent in its session are acknowledged.
    pub fn rests(&self) -> bool
        requires state { (header : Named) × (plays : List Play) × IsNodeWorldBehind self.now header plays }
        ensures { (header : Named) (plays : List Play) → IsNodeWorldBehind self.now header plays
            → result ≡ world_rests (nodes_behind header (lines_played header plays)) }
    {
        all_rest(&self.controller, self.sites.as_slice())
    }

    /// How many frames stand on the wire to an end, at most 64.
    pub fn standing(&self, to: End) -> u16
        requires state { (header : Named) × (plays : List Play) × IsNodeWorldBehind self.now header plays }
        ensures { (header : Named) (plays : List Play) → IsNodeWorldBehind self.now header plays
            → result ≡ length (frames_at (nodes_behind header (lines_played header plays)) to) }
    {
        on_the_way(self.sites.as_slice(), to) as u16
    }

    /// Whether the node with this number runs: 00 is that of the controller.
    pub fn running(&self, node: u8) -> bool
        ensures { (header : Named) (plays : List Play) → IsNodeWorldBehind self.now header plays
            → result ≡ is_running (nodes_behind header (lines_played header plays)) node }
    {
        runs(&self.controller, self.sites.as_slice(), node)
    }

    /// What the last line or round caused, in order. The lines themselves aren't in it.
    pub fn entries(&self) -> &[Entry]
        ensures { result.now ≡ nodes_entries self.now }
    {
        self.noted.entries.as_slice()
    }

    /// The memory of a node as it is now, whether the node runs or not.
    pub fn into_memory(self, node: u8) -> MemNv
        requires state { (header : Named) × (plays : List Play) × IsNodeWorldBehind self header plays × IsNodeOf header.hosts.items node }
        ensures memory { (header : Named) (plays : List Play) → IsNodeWorldBehind self header plays → IsNodeOf header.hosts.items node
            → result ≡ memory_at (nodes_behind header (lines_played header plays)) node }
        ensures found { (header : Named) (plays : List Play) → IsNodeWorldBehind self header plays → IsNodeOf header.hosts.items node
            → IsPeekedSo (nodes_behind header (lines_played header plays)) node result.content }
    {
        let NodeWorld {
            controller,
            mut sites,
            ..
        } = self;
        if node == 0 {
            return controller.into_memory().into_nv();
        }
        match place_of(sites.as_slice(), node) {
            Some(place) => sites.remove(place).power.into_memory().into_nv(),
            None => unreachable!(),
        }
    }
}
