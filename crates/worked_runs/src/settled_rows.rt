//! How the world of host 02, whose link stands alone, settles behind a few lines, and what a watch is told then: the examples
//! `settle_after_lost_ack`, `settle_busy` and `settle_quiet`.
ghost use Rattle.std.specs.Prelude.{◌≡◌, ◌<◌, ◌≤◌, [], ◌∷◌, List, length, All, false, true};
ghost use Rattle.trace_model.specs.declared.line.Line.TheVariants as line;
ghost use Rattle.lines_told.specs.lines.Below.{IsPlayedLine};
ghost use Rattle.lines_told.specs.lines.Plays.{Play, rounds_played};
ghost use Rattle.world.specs.Worlds.{IsWorldAt, world_header};

use crate::transcript::Transcript;
use arrayvec::ArrayVec;
use std::alloc::Global;
use std::process::Abort;
use trace_model::{End, Header, Line, Octets};
use world::World;
use world_settle::settle;

/// The controller's end of the link, and the host's.
const CONTROLLER: End = End {
    link: 2,
    at_host: false,
};

const HOST: End = End {
    link: 2,
    at_host: true,
};

/// The host sends a message of one byte on pipe 01.
fn sends(rt: &impl Abort, alloc: Global) -> Line
    ensures { result ≡ line.Send (record { link = 2; at_host = true }) 1 (3 ∷ []) }
{
    match Octets::from_slice(alloc, &[0x03]) {
        Ok(message) => Line::Send {
            at: HOST,
            pid: 0x01,
            message,
        },
        Err(_) => panic!(rt; "there is memory"),
    }
}

/// The world of host 02, whose link stands alone.
fn opened(rt: &impl Abort, alloc: Global) -> World
    ensures stands { IsWorldAt result (world_header result) [] }
    ensures header { world_header result ≡ record { hci = false; hosts = record { items = 2 ∷ [] } } }
{
    let mut hosts = ArrayVec::new();
    hosts.push(2);
    match World::new(alloc, &Header { hci: false, hosts }) {
        Ok(world) => world,
        Err(_) => panic!(rt; "there is memory"),
    }
}

/// This world behind these lines.
fn played(rt: &impl Abort, alloc: Global, lines: &[Line]) -> World
    requires lines { All (IsPlayedLine (record { hci = false; hosts = record { items = 2 ∷ [] } })) lines.now }
    requires few { length lines.now < 100 }
    ensures { (plays : List Play) × IsWorldAt result (world_header result) plays × (rounds_played plays ≡ 0) }
{
    let mut world = opened(rt, alloc);
    for line in lines {
        match world.step(alloc, line) {
            Ok(()) => {}
            Err(_) => panic!(rt; "there is memory"),
        }
    }
    world
}

/// Behind these lines the world settles in so many rounds, of `most`; what is told then, and whether its link is quiet.
fn settles(
    rt: &impl Abort,
    alloc: Global,
    lines: &[Line],
    most: u32,
    rounds: u32,
    told: &str,
    quiet: bool,
)
    requires lines { All (IsPlayedLine (record { hci = false; hosts = record { items = 2 ∷ [] } })) lines.now }
    requires few { length lines.now < 100 }
    requires some { 1 ≤ most }
    requires most { most ≤ 20000 }
{
    let mut world = played(rt, alloc, lines);
    let mut watch = Transcript {
        text: String::new(alloc),
    };
    match settle(&mut world, most, &mut watch) {
        Ok(done) => {
            assert_eq!(rt; done, rounds);
            assert_eq!(rt; watch.text.as_str(), told);
            let rests = world.quiet();
            assert_eq!(rt; rests, quiet);
        }
        Err(_) => panic!(rt; "there is memory"),
    }
}

#[test]
fn a_world_settles_in_the_rounds_that_its_link_needs(rt: HostRuntime) {
    let alloc = rt.alloc();
    let lost_ack = [
        sends(&rt, alloc),
        Line::Deliver {
            at: CONTROLLER,
            count: None,
        },
        Line::Lose { at: HOST },
    ];
    settles(
        &rt,
        alloc,
        &lost_ack,
        48,
        11,
        "> settle 48\nemit 02h 808103\ntook 02c 808103\nemit 02c C1\ntook 02h C1\nacked 02h 0 1\nsettled 11\n",
        true,
    );
    let busy = [Line::Busy { at: CONTROLLER }, sends(&rt, alloc)];
    settles(
        &rt,
        alloc,
        &busy,
        5,
        5,
        "> settle 5\ntook 02c 808103\nemit 02c D0\ntook 02h D0\nsettled 5\n",
        false,
    );
    settles(&rt, alloc, &[], 5, 0, "> settle 5\nsettled 0\n", true);
}
