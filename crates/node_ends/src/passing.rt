//! The message that waits at one end is passed on to another one.
ghost use Rattle.std.specs.Prelude.{◌≡◌, List, ◌∷◌, [], Some};
ghost use Rattle.link_laws.specs.machine.Machine.{Message};
ghost use Rattle.link_laws.specs.machine.Machine.Turn.{Give, FetchMessage};
ghost use Rattle.node_machine.specs.Parts.{Port};
ghost use Rattle.node_machine.specs.Carrying.{port_at, with_port, after_turn};
ghost use Rattle.node_ends.specs.Ends.{AreEnds, got_at, takes_at, place_in};

use crate::ends::Ends;
use crate::places::place_of;
use crate::seat::{Seat, Waiting};
use block_pool::Pool;

impl Ends {
    ghost use Rattle.std.specs.Prelude.{◌≡◌, ◌∷◌, List, []};
    ghost use Rattle.link_laws.specs.machine.Machine.{Message};
    ghost use Rattle.link_laws.specs.machine.Machine.Turn.{Give, FetchMessage};
    ghost use Rattle.node_machine.specs.Parts.{Port};
    ghost use Rattle.node_machine.specs.Carrying.{port_at, with_port, after_turn};
    ghost use Rattle.node_ends.specs.Ends.{EndsStandFor, got_at, takes_at};

    /// The message that waits at the end of the link with one host has its turn, and is given to the end of the link with another host,
    /// to be sent on the pipe on which it came. That end gets its blocks as they are; they go back to the pool where there is no such
    /// end or it doesn't take the message. Whether it is taken.
    pub fn pass_on(&mut self, from: u8, to: u8) -> bool
        requires { (ports : List Port) × (m : Message) × EndsStandFor self.old ports × (got_at ports from ≡ m ∷ []) }
        ensures stands { (ports : List Port) (m : Message) → EndsStandFor self.old ports → got_at ports from ≡ m ∷ []
            → EndsStandFor self.new (with_port to (after_turn (Give m)) (with_port from (after_turn FetchMessage) ports)) }
        ensures answer { (ports : List Port) (m : Message) → EndsStandFor self.old ports → got_at ports from ≡ m ∷ []
            → result ≡ takes_at m (port_at (with_port from (after_turn FetchMessage) ports) to) }
    {
        let Some(i) = place_of(self.seats.as_slice(), from) else {
            return false;
        };
        let Some(j) = place_of(self.seats.as_slice(), to) else {
            self.give_back(from);
            return false;
        };
        pass_at(&mut self.seats, i, j, &mut self.pool, from, to)
    }
}

// The message at the first of these places is passed on to the end at the second one. They are those of the links with these hosts.
fn pass_at(seats: &mut [Seat], i: usize, j: usize, pool: &mut Pool, from: u8, to: u8) -> bool
    requires place { place_in from seats.old ≡ Some i }
    requires other { place_in to seats.old ≡ Some j }
    requires waits { (ports : List Port) × (m : Message) × AreEnds pool.old seats.old ports × (got_at ports from ≡ m ∷ []) }
    ensures stands { (ports : List Port) (m : Message) → AreEnds pool.old seats.old ports → got_at ports from ≡ m ∷ []
        → AreEnds pool.new seats.new (with_port to (after_turn (Give m)) (with_port from (after_turn FetchMessage) ports)) }
    ensures answer { (ports : List Port) (m : Message) → AreEnds pool.old seats.old ports → got_at ports from ≡ m ∷ []
        → result ≡ takes_at m (port_at (with_port from (after_turn FetchMessage) ports) to) }
{
    let Some(Waiting { pipe, chain }) = seats[i].waiting.take() else {
        return false;
    };
    match seats[j].side.send_chain(pool, pipe, chain) {
        Ok(()) => true,
        Err((chain, _why)) => {
            pool.give(chain);
            false
        }
    }
}
