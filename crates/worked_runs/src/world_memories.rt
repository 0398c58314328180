//! Memories of nodes behind a schedule, as a caller takes them out of the world that played it.
ghost use Rattle.std.specs.Prelude.{◌≡◌, [], ◌∷◌, ◌++◌, ◌+◌, ◌<◌, List, length};
ghost use Rattle.trace_model.specs.declared.line.Line.{Line as Spoken};
ghost use Rattle.trace_model.specs.Lines.{MayBegin};
ghost use Rattle.lines_told.specs.lines.Below.{IsPlayedLine, is_settling};
ghost use Rattle.lines_told.specs.lines.Plays.{Play, lines_said};
ghost use Rattle.lines_told.specs.lines.Plays.Play.{Said};
ghost use Rattle.world.specs.Worlds.{HasRoomForLine, IsWorldAt, world_header};

use crate::cuts::keeps;
use crate::memories::whole;
use crate::shown::same;
use hci_store::Store;
use hci_tables::Command;
use nv_journal::StartRefused;
use schedule_text::{Read, read_line};
use std::alloc::Global;
use std::process::Abort;
use swp_base::MemNv;
use trace_model::{Header, Line};
use world::World;

/// Host 02 has opened pipe 01, and asks for a pipe of its gate 20 to gate 04 of the controller: the controller keeps its third command as
/// the next frame comes to it.
const ASKED: [&str; 13] = [
    "boot 00",
    "boot 02",
    "activate 02 1A2B 01",
    "deliver 02c",
    "deliver 02h",
    "deliver 02c",
    "reset 02c",
    "deliver 02h",
    "deliver 02c",
    "send 02h 01 03",
    "deliver 02c",
    "deliver 02h",
    "send 02h 01 10200004",
];

/// Whether a line lets the links settle.
fn settles(line: &Line) -> bool
    ensures { result ≡ is_settling line.now }
{
    matches!(line, Line::Settle { .. })
}

/// The header of a controller and host 02.
fn header_read(rt: &impl Abort, alloc: Global) -> Header
    ensures { MayBegin result }
{
    match read_line(alloc, None, b"swp 1 hci 02") {
        Ok(read) => match read {
            Read::Header(header) => header,
            _other => panic!(rt; "this is a header"),
        },
        Err(_fault) => panic!(rt; "this is a header"),
    }
}

/// The world of a controller and host 02.
fn opened(rt: &impl Abort, alloc: Global) -> World
    ensures { IsWorldAt result (world_header result) [] }
{
    let header = header_read(rt, alloc);
    match World::new(alloc, &header) {
        Ok(world) => world,
        Err(_) => panic!(rt; "there is memory"),
    }
}

/// A line that this world may play.
fn line_for(rt: &impl Abort, alloc: Global, world: &World, text: &str) -> Line
    ensures { IsPlayedLine (world_header world.now) result }
{
    match read_line(alloc, Some(world.header()), text.as_bytes()) {
        Ok(Read::Line(line)) => {
            assert!(rt; !settles(&line));
            line
        }
        _ => panic!(rt; "this is a line below the header"),
    }
}

/// The world plays one line more.
fn plays(rt: &impl Abort, alloc: Global, world: &mut World, text: &str)
    requires { HasRoomForLine world.old }
    ensures header { world_header world.new ≡ world_header world.old }
    ensures stands { (before : List Play) → IsWorldAt world.old (world_header world.old) before
        → (line : Spoken) × IsWorldAt world.new (world_header world.old) (before ++ Said line ∷ []) }
{
    let line = line_for(rt, alloc, world, text);
    match world.step(alloc, &line) {
        Ok(()) => {}
        Err(_) => panic!(rt; "there is memory"),
    }
}

/// The world plays these lines.
fn plays_all(rt: &impl Abort, alloc: Global, world: &mut World, texts: &[&str])
    requires { (before : List Play) × IsWorldAt world.old (world_header world.old) before × (lines_said before + length texts.now < 20000) }
    ensures { (before : List Play) → IsWorldAt world.old (world_header world.old) before → (more : List Play) ×
        IsWorldAt world.new (world_header world.new) (before ++ more) × (lines_said (before ++ more) ≡ lines_said before + length texts.now) }
{
    for text in texts {
        plays(rt, alloc, world, text);
    }
}

/// The memory of this node behind ASKED and these lines.
fn left(rt: &impl Abort, alloc: Global, node: u8, last: &[&str]) -> MemNv
    requires { length last.now < 100 }
{
    let mut world = opened(rt, alloc);
    plays_all(rt, alloc, &mut world, &ASKED);
    plays_all(rt, alloc, &mut world, last);
    assert!(rt; world.header().hci);
    assert!(rt; node == 0 || world.header().hosts.as_slice().contains(&node));
    world.into_memory(node)
}

/// So many commands are found in the memory of a node behind these lines, and these tables.
fn finds(rt: &impl Abort, alloc: Global, node: u8, last: &[&str], kept: u32, tables: &str)
    requires { length last.now < 100 }
{
    let nv = left(rt, alloc, node, last);
    keeps(rt, alloc, nv, kept, tables);
}

const TWO: &str = "tables nv 0 0 0 1\nsync 02 1A2B\n";

const THREE: &str = "tables nv 1 0 0 1\npipe 02 02 20 00 04 closed\nsync 02 1A2B\n";

#[test]
fn the_memory_of_a_node_that_was_cut_keeps_what_its_bytes_say(rt: HostRuntime) {
    let alloc = rt.alloc();
    // What the boots find in the examples `cut_in_first_write` and `cut_in_second_write_FF`, `_5A` and `_13`.
    finds(&rt, alloc, 0, &["arm 00 1 13", "deliver 02c"], 2, TWO);
    finds(&rt, alloc, 0, &["arm 00 2 FF", "deliver 02c"], 2, TWO);
    finds(&rt, alloc, 0, &["arm 00 2 5A", "deliver 02c"], 3, THREE);
    finds(&rt, alloc, 0, &["arm 00 2 13", "deliver 02c"], 2, TWO);
}

#[test]
fn the_memory_of_a_node_that_runs_is_given_as_it_is(rt: HostRuntime) {
    let alloc = rt.alloc();
    finds(&rt, alloc, 0, &[], 2, TWO);
    finds(&rt, alloc, 0, &["deliver 02c"], 3, THREE);
    finds(&rt, alloc, 2, &["deliver 02c"], 0, "tables nv 0 0 0 0\n");
}

/// Whether one command more is kept over a memory.
fn keeps_more(nv: MemNv) -> bool
    requires { length nv.content ≡ 65536 }
{
    match Store::start(nv) {
        Ok(store) => {
            let mut store = store;
            store
                .commit(&Command::Sync {
                    host: 2,
                    id: 0x1234,
                })
                .is_ok()
        }
        Err(StartRefused { .. }) => false,
    }
}

#[test]
fn a_write_that_was_to_fail_fails_in_the_memory_that_is_given(rt: HostRuntime) {
    let alloc = rt.alloc();
    let nv = left(&rt, alloc, 0, &["arm 00 1 13"]);
    same(&rt, &keeps_more(whole(&rt, nv)), &false);
    let nv = left(&rt, alloc, 0, &["arm 00 3 13"]);
    same(&rt, &keeps_more(whole(&rt, nv)), &true);
}
