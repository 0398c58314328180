//! The lines of a schedule are played one by one, and the transcript is gathered.
ghost use Rattle.std.specs.Prelude.{◌≡◌, ◌+◌, ◌<◌, ◌++◌, [], List, ℕ, Ok, None, OnOk, OnErr, IfErr, IsSomeAnd, ◌⊎◌, ◌≢◌};
ghost use Rattle.trace_model.specs.declared.line.Header.{Header};
ghost use Rattle.trace_model.specs.declared.line.Line.{Line};
ghost use Rattle.trace_model.specs.Lines.{MayBegin, MayFollow};
ghost use Rattle.world.specs.Worlds.{world_header};
ghost use Rattle.swp_tool.specs.Schedules.{Schedule, and_line, and_said, nothing_read};
ghost use Rattle.swp_tool.specs.Replays.{HasPlayed, HasFew, HaltsBefore, HaltsAt};
ghost use Rattle.swp_tool.specs.Transcripts.{done_line};

use crate::settling::settle;
use schedule_text::{
    LineFault, Read, Transcript, read_at_once, read_line, write_opening, write_step,
};
use std::alloc::Global;
use swp_base::NoMemory;
use trace_model::{Header, Line};
use world::{World, WorldFault};

/// Why a replay does not go on.
#[derive(Clone, Copy)]
pub enum Halt {
    /// The line just begun or read is outside the forms.
    Fault(LineFault),
    /// The line just read damages a frame so that another one is read in its place.
    Undetected,
    /// One line more begins than a schedule may have.
    TooMany,
    /// There was no memory.
    NoMemory,
}

impl From<NoMemory> for Halt {
    ghost use Rattle.std.specs.Prelude.{◌≡◌};
    ghost use Rattle.swp_tool.specs.declared.replay.Halt.TheVariants as halt;

    ghost from_gives = { λ _ h. h ≡ halt.NoMemory };

    fn from(_: NoMemory) -> Self {
        Halt::NoMemory
    }
}

impl From<WorldFault> for Halt {
    ghost use Rattle.std.specs.Prelude.{◌≡◌};
    ghost use Rattle.swp_tool.specs.Replays.{halt_of};

    ghost from_gives = { λ fault why. why ≡ halt_of fault };

    fn from(fault: WorldFault) -> Self {
        match fault {
            WorldFault::Undetected { .. } => Halt::Undetected,
            WorldFault::NoMemory => Halt::NoMemory,
        }
    }
}

/// What is kept of a replay between two lines.
#[derive(Drop)]
pub struct Replay {
    /// The world, once its header was read.
    pub world: Option<World>,
    /// The lines read so far, at most 20,000.
    pub count: u64,
    /// Text that was gathered and isn't written yet.
    pub text: Transcript,
    /// The memory of a message that was read, for the next one.
    pub spare: Vec<u8>,
}

impl Replay {
    /// Before the first line.
    pub fn new(alloc: Global) -> Self
        ensures played { HasPlayed result nothing_read [] }
        ensures few { HasFew result }
        ensures count { result.count ≡ 0 }
        ensures text { result.text.items ≡ [] }
    {
        Replay {
            world: None,
            count: 0,
            text: Transcript::new(alloc),
            spare: Vec::new(alloc),
        }
    }

    /// Plays the next line, without the end of the line: it is read at once, where there is a world and the line has one of the forms that
    /// most lines have. Where it halts, the text stays as it was.
    #[inline(always)]
    pub fn play(&mut self, alloc: Global, bytes: &[u8]) -> Result<(), Halt>
        requires few { HasFew self.old }
        requires next { self.old.count < 20000 }
        ensures played { OnOk result ((s : Schedule) (written : List ℕ) → HasPlayed self.old s written → HasPlayed self.new (and_line s bytes.now) written) }
        ensures halts { IfErr result (λ why. (s : Schedule) (written : List ℕ) → HasPlayed self.old s written → HaltsAt why s bytes.now) }
        ensures few { OnOk result (HasFew self.new) }
        ensures count { OnOk result (self.new.count ≡ self.old.count + 1) }
        ensures same { OnErr result (self.new.text.items ≡ self.old.text.items) }
        ensures uncounted { OnErr result (self.new.count ≡ self.old.count) }
    {
        let Some(world) = &self.world else {
            return self.play_any(alloc, bytes);
        };
        let mut read = None;
        read_at_once(world.header(), bytes, &mut self.spare, &mut read);
        match &read {
            Some(line) => {
                let done = self.go_on(alloc, line);
                self.keep(read);
                done
            }
            None => self.play_any(alloc, bytes),
        }
    }

    /// Keeps the memory of the message of a line that was read, if it has one.
    #[inline(always)]
    fn keep(&mut self, read: Option<Line>)
        ensures { self.new ≡ record self.old { spare = self.new.spare } }
    {
        if let Some(Line::Send { message, .. }) = read {
            self.spare = message.bytes;
        }
    }

    /// Plays the next line, whatever its form.
    #[cold]
    #[inline(never)]
    fn play_any(&mut self, alloc: Global, bytes: &[u8]) -> Result<(), Halt>
        requires few { HasFew self.old }
        requires next { self.old.count < 20000 }
        ensures played { OnOk result ((s : Schedule) (written : List ℕ) → HasPlayed self.old s written → HasPlayed self.new (and_line s bytes.now) written) }
        ensures halts { IfErr result (λ why. (s : Schedule) (written : List ℕ) → HasPlayed self.old s written → HaltsAt why s bytes.now) }
        ensures few { OnOk result (HasFew self.new) }
        ensures count { OnOk result (self.new.count ≡ self.old.count + 1) }
        ensures same { OnErr result (self.new.text.items ≡ self.old.text.items) }
        ensures uncounted { OnErr result (self.new.count ≡ self.old.count) }
    {
        let header = match &self.world {
            Some(world) => Some(world.header()),
            None => None,
        };
        match read_line(alloc, header, bytes) {
            Err(fault) => Err(Halt::Fault(fault)),
            Ok(Read::NoMemory) => Err(Halt::NoMemory),
            Ok(Read::Skip) => {
                self.count += 1;
                Ok(())
            }
            Ok(Read::Header(header)) => self.begin(alloc, &header),
            Ok(Read::Line(line)) => self.go_on(alloc, &line),
        }
    }

    /// Begins the world of a header, which is the next line, and gathers the text of its opening.
    #[cold]
    #[inline(never)]
    fn begin(&mut self, alloc: Global, header: &Header) -> Result<(), Halt>
        requires valid { MayBegin header.now }
        requires next { self.old.count < 20000 }
        ensures played { OnOk result ((s : Schedule) (written : List ℕ) → HasPlayed self.old s written → s.header ≡ None
            → HasPlayed self.new (and_said s (Ok (Read.Header header.now))) written) }
        ensures halts { IfErr result (λ why. why ≡ Halt.NoMemory) }
        ensures few { OnOk result (HasFew self.new) }
        ensures count { OnOk result (self.new.count ≡ self.old.count + 1) }
        ensures same { OnErr result (self.new.text.items ≡ self.old.text.items) }
        ensures uncounted { OnErr result (self.new.count ≡ self.old.count) }
    {
        let world = World::new(alloc, header)?;
        write_opening(alloc, header, world.entries(), &mut self.text)?;
        self.world = Some(world);
        self.count += 1;
        Ok(())
    }

    /// Has the world play the next line, which is one below the header, by rounds where it lets the links settle and else by a step, and
    /// gathers the text of the line and of what it caused.
    #[inline(always)]
    fn go_on(&mut self, alloc: Global, line: &Line) -> Result<(), Halt>
        requires world { IsSomeAnd self.old.world (λ w. MayFollow (world_header w) line.now) }
        requires few { HasFew self.old }
        requires next { self.old.count < 20000 }
        ensures played { OnOk result ((s : Schedule) (written : List ℕ) → HasPlayed self.old s written
            → HasPlayed self.new (and_said s (Ok (Read.Line line.now))) written) }
        ensures halts { IfErr result (λ why. (s : Schedule) (written : List ℕ) → HasPlayed self.old s written
            → HaltsBefore why (and_said s (Ok (Read.Line line.now)))) }
        ensures few { OnOk result (HasFew self.new) }
        ensures count { OnOk result (self.new.count ≡ self.old.count + 1) }
        ensures same { OnErr result (self.new.text.items ≡ self.old.text.items) }
        ensures uncounted { OnErr result (self.new.count ≡ self.old.count) }
    {
        let Some(world) = &mut self.world else {
            return Err(Halt::Fault(LineFault::Order));
        };
        match line {
            Line::Settle { rounds } => settle(alloc, world, *rounds, &mut self.text)?,
            _ => {
                world.step(alloc, line)?;
                write_step(alloc, line, world.entries(), &mut self.text)?;
            }
        }
        self.count += 1;
        Ok(())
    }

    /// Gathers the last line of the transcript, with the number of lines; without a header the schedule is no schedule.
    pub fn close(&mut self, alloc: Global) -> Result<(), Halt>
        ensures done { OnOk result ((self.old.world ≢ None) × (self.new.text.items ≡ self.old.text.items ++ done_line self.old.count)) }
        ensures halts { IfErr result (λ why. (why ≡ Halt.NoMemory) ⊎ ((why ≡ Halt.Fault LineFault.Order) × (self.old.world ≡ None))) }
        ensures same { OnErr result (self.new.text.items ≡ self.old.text.items) }
        ensures count { self.new.count ≡ self.old.count }
    {
        if self.world.is_none() {
            return Err(Halt::Fault(LineFault::Order));
        }
        let Ok(line) = format!(in alloc; "done {}\n", self.count) else {
            return Err(Halt::NoMemory);
        };
        self.text.append(line.as_bytes())?;
        Ok(())
    }
}
