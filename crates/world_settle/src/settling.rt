//! A world goes through rounds until all its links are at rest.
ghost use Rattle.std.specs.Prelude.{◌≡◌, ◌≤◌, ◌∷◌, ◌++◌, List, replicate, IfOk, OnOk, OnErr, IfErr, true, false};
ghost use Rattle.trace_model.specs.declared.entry.Entry.TheVariants.{Echo};
ghost use Rattle.trace_model.specs.declared.line.Line.TheVariants as line;
ghost use Rattle.lines_told.specs.lines.Plays.{Play, rounds_to_rest, told_of_line};
ghost use Rattle.lines_told.specs.lines.Plays.Play.{Round};
ghost use Rattle.world.specs.declared.fault.WorldFault.TheVariants as fault;
ghost use Rattle.world.specs.Worlds.{IsWorldAt, world_header};
ghost use Rattle.world_laws.specs.worlds.BroughtBehind.{BringsAll};
ghost use Rattle.world_settle.specs.Fronts.{IsFrontNoted};
ghost use Rattle.world_settle.specs.Room.{HasRoomForRounds};

use crate::noting::note_all;
use trace_model::{Entry, Line, Watch};
use world::{World, WorldFault};

/// Plays a line `settle`: the world goes through rounds, in each of which all ends take what stands on their wires and time passes, one
/// tick, until all links are at rest, and through so many rounds at most. How many there were. The line is noted, what each round caused,
/// and last how many there were. Where enough rounds were asked for, and nothing disturbs a link in them, all that was sent on it before has come.
///
/// # Errors
///
/// `NoMemory` where memory runs out. The world is of no use then, and a front of all that was to be noted is. A watch that is short is no error.
pub fn settle<W: Watch>(world: &mut World, rounds: u32, watch: &mut W) -> Result<u32, WorldFault>
    requires some { 1 ≤ rounds }
    requires most { rounds ≤ 20000 }
    requires room { HasRoomForRounds world.old rounds }
    ensures settled { (plays : List Play) → IsWorldAt world.old (world_header world.old) plays
        → IfOk result (λ r. r ≡ rounds_to_rest (world_header world.old) plays rounds) }
    ensures stands { (plays : List Play) → IsWorldAt world.old (world_header world.old) plays
        → IfOk result (λ r. IsWorldAt world.new (world_header world.old) (plays ++ replicate r Round)) }
    ensures brought { (plays : List Play) → IsWorldAt world.old (world_header world.old) plays
        → IfOk result (λ r. BringsAll (world_header world.old) plays rounds r) }
    ensures noted { (plays : List Play) → IsWorldAt world.old (world_header world.old) plays
        → OnOk result (W.is_short watch.new ≡ false
        → W.noted watch.new ≡ W.noted watch.old ++ Echo (line.Settle rounds) ∷ told_of_line (world_header world.old) plays (line.Settle rounds)) }
    ensures broken { (plays : List Play) → IsWorldAt world.old (world_header world.old) plays
        → OnErr result (W.is_short watch.new ≡ false → IsFrontNoted (W.noted watch.old) (W.noted watch.new)
        (Echo (line.Settle rounds) ∷ told_of_line (world_header world.old) plays (line.Settle rounds))) }
    ensures stays { W.is_short watch.old ≡ true → W.is_short watch.new ≡ true }
    ensures fault { IfErr result (λ why. why ≡ fault.NoMemory) }
    ensures header { world_header world.new ≡ world_header world.old }
{
    watch.note(&Entry::Echo(Line::Settle { rounds }), &[]);
    let mut done = 0;
    'rounds: while done < rounds && !world.quiet() {
        world.round()?;
        note_all(world.entries(), watch);
        done += 1;
    }
    watch.note(&Entry::Settled { rounds: done }, &[]);
    Ok(done)
}
