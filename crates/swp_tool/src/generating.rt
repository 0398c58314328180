//! The command `gen`: a schedule is drawn from a number and run, and one line tells how much was noted.
ghost use Rattle.std.specs.Prelude.{◌≡◌, ◌<◌, ◌⊎◌, ◌++◌, ◌∷◌, [], List, length, IfOk, OnOk};
ghost use Rattle.std.specs.List.{AllByRecursion};
ghost use Rattle.std.specs.Fmt.{decimal};
ghost use Rattle.swp_base.specs.Outside.{Rose};
ghost use Rattle.trace_model.specs.declared.line.Line.{Line as Said};
ghost use Rattle.drawn_schedule.specs.Schedule.{the_header, IsHarmless};
ghost use Rattle.told_laws.specs.told.NodesTold.{nodes_told};
ghost use Rattle.swp_tool.specs.Transcripts.{nodes_history};
ghost use Rattle.swp_tool.specs.Generated.{AreCountsOf, HasCounted, IsSummary, Generated, IsOfGen, told_line};

use crate::counts::Counts;
use drawn_schedule::{draw_lines, drawn_header};
use std::alloc::{AllocError, Global};
use swp_base::{Failed, NoMemory, Sink};
use swp_words::output::write_all;
use swp_words::status::Status;
use trace_model::Line;
use world::World;

/// What is kept of a run of a generated schedule between two lines.
#[derive(Drop)]
pub struct Generating {
    pub world: World,
    pub counts: Counts,
}

impl Generating {
    /// Before the first line.
    fn new(alloc: Global) -> Result<Self, NoMemory>
        ensures { IfOk result (λ g. HasCounted g []) }
    {
        Ok(Generating {
            world: World::new(alloc, &drawn_header())?,
            counts: Counts::new(),
        })
    }

    /// Runs the next line, which damages no frame: so nothing but want of memory keeps the world from going on.
    fn play(&mut self, alloc: Global, line: &Line) -> Result<(), NoMemory>
        requires room { (lines : List Said) × HasCounted self.old lines × (length lines < 20000) }
        requires line { IsHarmless line.now }
        ensures { (lines : List Said) → HasCounted self.old lines → OnOk result (HasCounted self.new (lines ++ line.now ∷ [])) }
    {
        match self.world.step(alloc, line) {
            Ok(()) => {
                self.counts.count_all(self.world.entries());
                Ok(())
            }
            Err(_) => Err(NoMemory),
        }
    }

    /// Runs these lines from the first one on, none of which damages a frame, and gives the counts of what was noted.
    fn play_all(&mut self, alloc: Global, lines: &[Line]) -> Result<Counts, NoMemory>
        requires new { HasCounted self.old [] }
        requires few { length lines.now < 20000 }
        requires harmless { AllByRecursion IsHarmless lines.now }
        ensures { IfOk result (λ counts. AreCountsOf counts (nodes_told (nodes_history the_header lines.now))) }
    {
        for line in lines {
            self.play(alloc, line)?;
        }
        Ok(self.counts)
    }
}

/// Runs the schedule that is drawn from `n`, and writes one line with the counts of what was noted.
pub fn generate<K: Sink>(alloc: Global, n: u32, sink: &mut K) -> Status
    ensures generated { Generated K.tells result n (K.written sink.old) (K.written sink.new) }
    ensures kind { IsOfGen result }
    ensures write_fault { result ≡ Status.WriteFault → Rose (K.faults sink.old) (K.faults sink.new) }
    ensures complete { ¬ Rose (K.faults sink.old) (K.faults sink.new) → (result ≡ Status.Done) ⊎ (result ≡ Status.NoMemory) }
{
    let Ok(text) = summary(alloc, n) else {
        return Status::NoMemory;
    };
    match write_all(sink, text.as_slice()) {
        Ok(()) => Status::Done,
        Err(Failed) => Status::WriteFault,
    }
}

/// The summary of the schedule that is drawn from `n`.
fn summary(alloc: Global, n: u32) -> Result<Vec<u8>, NoMemory>
    ensures { IfOk result (λ text. IsSummary n text.items) }
{
    let lines = draw_lines(alloc, n)?;
    let mut running = Generating::new(alloc)?;
    let counts = running.play_all(alloc, lines.as_slice())?;
    let text = counts_text(alloc, n, counts)?;
    Ok(text)
}

/// The line that tells these counts.
fn counts_text(alloc: Global, n: u32, counts: Counts) -> Result<Vec<u8>, AllocError>
    ensures { IfOk result (λ text. text.items ≡ told_line n counts.sent counts.got counts.acked counts.up counts.commands) }
{
    let mut text = Vec::new(alloc);
    append_count(alloc, b"gen ", u64::from(n), &mut text)?;
    append_count(alloc, b" lines 2061 sent ", counts.sent, &mut text)?;
    append_count(alloc, b" got ", counts.got, &mut text)?;
    append_count(alloc, b" acked ", counts.acked, &mut text)?;
    append_count(alloc, b" up ", counts.up, &mut text)?;
    append_count(alloc, b" commands ", counts.commands, &mut text)?;
    text.push(b'\n')?;
    Ok(text)
}

/// Appends a count with what it is called.
fn append_count(
    alloc: Global,
    name: &[u8],
    count: u64,
    text: &mut Vec<u8>,
) -> Result<(), AllocError>
    ensures { OnOk result (text.new.items ≡ text.old.items ++ name.now ++ decimal count) }
{
    text.extend_from_slice(name)?;
    let digits = format!(in alloc; "{count}")?;
    text.extend_from_slice(digits.as_bytes())?;
    Ok(())
}
