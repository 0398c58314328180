//! A line that lets the links settle: rounds until all are at rest.
ghost use Rattle.std.specs.Prelude.{◌≡◌, ℕ, ◌+◌, ◌≤◌, ◌++◌, ◌∷◌, [], List, OnOk, OnErr, IfErr};
ghost use Rattle.trace_model.specs.declared.entry.Entry.TheVariants.{Echo};
ghost use Rattle.trace_model.specs.declared.line.Header.{Header};
ghost use Rattle.trace_model.specs.declared.line.Line.{Line as Said};
ghost use Rattle.trace_model.specs.declared.line.Line.TheVariants as line;
ghost use Rattle.schedule_text.specs.Entries.{entry_line, entry_lines};
ghost use Rattle.lines_told.specs.lines.Plays.{Play, plays_of_line, told_of_line};
ghost use Rattle.world.specs.Worlds.{IsWorldAt};
ghost use Rattle.swp_tool.specs.Replays.{Runs, WasStepped, HasRoundsLeft};

use crate::replay::Halt;
use schedule_text::{Transcript, write_entries, write_step};
use std::alloc::Global;
use trace_model::{Entry, Line};
use world::World;

/// Plays rounds until all links are at rest, `most` of them at most, and gathers the text of the line, of what the rounds tell, and of how
/// many there were.
pub fn settle(
    alloc: Global,
    world: &mut World,
    most: u32,
    text: &mut Transcript,
) -> Result<(), Halt>
    requires most { most ≤ 20000 }
    requires room { HasRoundsLeft world.old most }
    ensures runs { OnOk result ((header : Header) (lines : List Said) (before : List ℕ) → Runs world.old header lines (before ++ text.old.items)
        → Runs world.new header (lines ++ line.Settle most ∷ []) (before ++ text.new.items)) }
    ensures stepped { OnOk result ((count : ℕ) → WasStepped world.old count → WasStepped world.new (count + 1)) }
    ensures halts { IfErr result (λ why. why ≡ Halt.NoMemory) }
    ensures same { OnErr result (text.new.items ≡ text.old.items) }
{
    let gathered = text.len();
    if let Err(why) = gather(alloc, world, most, text) {
        text.truncate(gathered);
        return Err(why);
    }
    Ok(())
}

// The same, but where there is no memory, more may stand behind the text.
fn gather(alloc: Global, world: &mut World, most: u32, text: &mut Transcript) -> Result<(), Halt>
    requires { HasRoundsLeft world.old most }
    ensures stands { OnOk result ((header : Header) (plays : List Play) → IsWorldAt world.old header plays
        → IsWorldAt world.new header (plays ++ plays_of_line header plays (line.Settle most))) }
    ensures told { OnOk result ((header : Header) (plays : List Play) → IsWorldAt world.old header plays → text.new.items ≡
        text.old.items ++ (entry_line (Echo (line.Settle most)) ++ entry_lines (told_of_line header plays (line.Settle most)))) }
    ensures more { OnErr result ((more : List ℕ) × (text.new.items ≡ text.old.items ++ more)) }
    ensures halts { IfErr result (λ why. why ≡ Halt.NoMemory) }
{
    write_step(alloc, &Line::Settle { rounds: most }, &[], text)?;
    let mut rounds = 0;
    'rounds: while rounds < most && !world.quiet() {
        world.round()?;
        write_entries(alloc, world.entries(), text)?;
        rounds += 1;
    }
    write_entries(alloc, &[Entry::Settled { rounds }], text)?;
    Ok(())
}
