//! A node with two ends of links in one pool, for worked examples: how the laws of link ends are used.
ghost use Rattle.std.specs.Prelude.{◌≡◌, ◌≤◌};
ghost use Rattle.link_laws.specs.machine.Machine.{LinkEnd as Machine};
ghost use Rattle.link_end.specs.Ends.{EndStandsFor, HaveOwners, Accounts, Rests};

use crate::nodes::has_room;
use block_pool::Pool;
use link_end::LinkEnd;
use std::alloc::Global;
use std::marker::Model;
use std::process::Abort;
use swp_base::{Lpdu, Role};

/// A node that passes what comes to one of its ends on to the other. Both are at rest between two calls.
#[derive(Drop)]
pub struct Relay {
    first: LinkEnd,
    second: LinkEnd,
    pool: Pool,
}

impl Model for Relay {
    ghost use Rattle.link_end.specs.Ends.{Rests, HaveOwners};

    ghost Value = { Unit {0} };

    ghost view = { λ r. tt };

    ghost invariant = { λ r. Rests r.first.link r.pool × Rests r.second.link r.pool × HaveOwners r.first.link r.second.link };
}

impl Relay {
    /// A node with two bare ends.
    pub(crate) fn make(rt: &impl Abort, alloc: Global) -> Relay {
        let pool = Pool::make(alloc, &[128, 512, 128, 512]).expect(rt, "there is memory");
        let first = LinkEnd::make(alloc, Role::Bare, 0, 1).expect(rt, "there is memory");
        let second = LinkEnd::make(alloc, Role::Bare, 2, 3).expect(rt, "there is memory");
        Relay {
            first,
            second,
            pool,
        }
    }

    /// Takes an LPDU at the first end. A message that comes with it goes to the second one.
    pub(crate) fn take(&mut self, rt: &impl Abort, lpdu: &Lpdu) {
        has_room(rt, &self.first);
        let _report = self.first.take_lpdu(&mut self.pool, lpdu);
        pass_on(&mut self.first, &mut self.second, &mut self.pool);
    }

    /// Takes an LPDU at the second end. A message that comes with it goes to the first one.
    pub(crate) fn take_back(&mut self, rt: &impl Abort, lpdu: &Lpdu) {
        has_room(rt, &self.second);
        let _report = self.second.take_lpdu(&mut self.pool, lpdu);
        pass_on(&mut self.second, &mut self.first, &mut self.pool);
    }

    /// The next frame that the first end sends.
    pub(crate) fn next_back(&mut self) -> Option<Lpdu> {
        self.first.next_out(&self.pool)
    }

    /// The next frame that the second end sends.
    pub(crate) fn next_out(&mut self) -> Option<Lpdu> {
        self.second.next_out(&self.pool)
    }
}

/// Passes the message that came to one end, where one did, to the other, which drops it where it doesn't take it.
fn pass_on(from: &mut LinkEnd, to: &mut LinkEnd, pool: &mut Pool)
    requires stands { (m : Machine) × EndStandsFor from.old.link pool.old m }
    requires accounts { Accounts from.old.link pool.old None }
    requires rests { Rests to.old.link pool.old }
    requires owners { HaveOwners from.old.link to.old.link }
    ensures from { Rests from.new.link pool.new }
    ensures to { Rests to.new.link pool.new }
    ensures owners { HaveOwners from.new.link to.new.link }
{
    match from.next_message() {
        None => {}
        Some((pipe, chain)) => {
            if pipe >= 112 || pool.len(&chain) == 0 {
                pool.give(chain);
                return;
            }
            match to.send_chain(pool, pipe, chain) {
                Ok(()) => {}
                Err((chain, _why)) => pool.give(chain),
            }
        }
    }
}
