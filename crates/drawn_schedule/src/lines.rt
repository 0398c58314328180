//! The lines of the schedule that is drawn from a number, as lines and not as text.
ghost use Rattle.std.specs.Prelude.{◌≡◌, ◌++◌, ◌+◌, ◌%◌, ◌<◌, ◌≤◌, [], ◌∷◌, IfOk, OnOk, None, Some};
ghost use Rattle.trace_model.specs.declared.line.Line.TheVariants as line;
ghost use Rattle.drawn_schedule.specs.Schedule.{at_controller, at_host_of, takes, sends_on, answered, joins, makes_a_pipe, first_lines, step_line};
ghost use Rattle.drawn_schedule.specs.Schedule.{so_many_steps, drawn_lines, the_header, next_number, drawn_of};

use arrayvec::ArrayVec;
use std::alloc::{AllocError, Global};
use swp_base::NoMemory;
use trace_model::{End, Header, Line, Octets};

/// How many steps there are (this project's own).
const STEPS: u32 = 2000;

/// The header of the schedule: hosts 01, 02 and 03.
pub fn drawn_header() -> Header
    ensures { result ≡ the_header }
{
    let mut hosts = ArrayVec::new();
    hosts.push(1);
    hosts.push(2);
    hosts.push(3);
    Header { hci: true, hosts }
}

/// The 2,060 lines below the header of the schedule whose text `gen_schedule` writes for `n`.
///
/// # Errors
///
/// `NoMemory` where memory runs out.
pub fn draw_lines(alloc: Global, n: u32) -> Result<Vec<Line>, NoMemory>
    ensures { IfOk result (λ lines. lines.items ≡ drawn_lines n) }
{
    Ok(all(alloc, n)?)
}

fn all(alloc: Global, n: u32) -> Result<Vec<Line>, AllocError>
    ensures { IfOk result (λ lines. lines.items ≡ drawn_lines n) }
{
    let mut lines = Vec::new(alloc);
    begin(alloc, &mut lines)?;
    push_steps(alloc, n, &mut lines)?;
    lines.push(Line::Tables { node: 0 })?;
    Ok(lines)
}

/// Three hosts come up, and a pipe is made between two of them.
fn begin(alloc: Global, lines: &mut Vec<Line>) -> Result<(), AllocError>
    ensures { OnOk result (lines.new.items ≡ lines.old.items ++ first_lines) }
{
    lines.push(Line::Boot { node: 0 })?;
    lines.push(Line::Boot { node: 1 })?;
    lines.push(Line::Boot { node: 2 })?;
    lines.push(Line::Boot { node: 3 })?;
    join(alloc, 1, 2, 3, lines)?;
    join(alloc, 2, 1, 3, lines)?;
    join(alloc, 3, 1, 2, lines)?;
    make_a_pipe(alloc, lines)
}

/// The link of a host is activated and reset; the host opens pipe 01 and sets its whitelist to the two other hosts.
fn join(
    alloc: Global,
    host: u8,
    second: u8,
    third: u8,
    lines: &mut Vec<Line>,
) -> Result<(), AllocError>
    ensures { OnOk result (lines.new.items ≡ lines.old.items ++ joins host second third) }
{
    lines.push(Line::Activate {
        host,
        sync: u16::from(host),
        power: 1,
    })?;
    answer(host, lines)?;
    lines.push(Line::Reset {
        at: controller_of(host),
        window: None,
    })?;
    lines.push(take(host_of(host)))?;
    lines.push(take(controller_of(host)))?;
    lines.push(send(alloc, host, 1, &[3])?)?;
    answer(host, lines)?;
    lines.push(send(alloc, host, 1, &[1, 3, second, third])?)?;
    answer(host, lines)
}

/// Host 02 has a pipe made to gate 41 of host 01, which is asked, and opens it.
fn make_a_pipe(alloc: Global, lines: &mut Vec<Line>) -> Result<(), AllocError>
    ensures { OnOk result (lines.new.items ≡ lines.old.items ++ makes_a_pipe) }
{
    lines.push(send(alloc, 2, 1, &[0x10, 0x20, 0x01, 0x41])?)?;
    lines.push(take(controller_of(2)))?;
    lines.push(take(host_of(1)))?;
    lines.push(take(controller_of(1)))?;
    lines.push(take(host_of(2)))?;
    lines.push(take(controller_of(2)))?;
    lines.push(send(alloc, 2, 2, &[3])?)?;
    answer(2, lines)
}

/// The controller takes a message of this host, the host the answer, the controller what acknowledges it.
fn answer(host: u8, lines: &mut Vec<Line>) -> Result<(), AllocError>
    ensures { OnOk result (lines.new.items ≡ lines.old.items ++ answered host) }
{
    lines.push(take(controller_of(host)))?;
    lines.push(take(host_of(host)))?;
    lines.push(take(controller_of(host)))?;
    Ok(())
}

/// The number behind this one in the row of draws.
fn next(x: u64) -> u64
    ensures { result ≡ next_number x }
{
    let product = u128::from(x) * 6_364_136_223_846_793_005 + 1_442_695_040_888_963_407;
    (product % (1 << 64)) as u64
}

/// What is drawn of a number, below `below`.
fn drawn(x: u64, below: u8) -> u8
    requires { 0 < below }
    ensures value { result ≡ drawn_of x % below }
    ensures low { result < below }
{
    (x / (1 << 33) % u64::from(below)) as u8
}

fn push_steps(alloc: Global, n: u32, lines: &mut Vec<Line>) -> Result<(), AllocError>
    ensures { OnOk result (lines.new.items ≡ lines.old.items ++ (so_many_steps n 2000).lines) }
{
    let mut x = u64::from(n);
    let mut done = 0;
    'steps: while done < STEPS {
        let first = next(x);
        let second = next(first);
        lines.push(step(alloc, drawn(first, 16), 1 + drawn(second, 3))?)?;
        x = second;
        done += 1;
    }
    Ok(())
}

/// A step, by a number from 0 to 15 and a host.
fn step(alloc: Global, d: u8, host: u8) -> Result<Line, AllocError>
    ensures { IfOk result (λ said. said ≡ step_line d host) }
{
    match d {
        0..=4 => Ok(take(controller_of(host))),
        5..=9 => Ok(take(host_of(host))),
        10 | 11 => send(alloc, host, 1, &[2, 1]),
        12 => send(alloc, host, 2, &[0x42, 0xAA]),
        13 => Ok(Line::Lose {
            at: controller_of(host),
        }),
        14 => Ok(Line::Tick { times: Some(3) }),
        _ => Ok(Line::Reset {
            at: host_of(host),
            window: None,
        }),
    }
}

fn controller_of(host: u8) -> End
    ensures { result ≡ at_controller host }
{
    End {
        link: host,
        at_host: false,
    }
}

fn host_of(host: u8) -> End
    ensures { result ≡ at_host_of host }
{
    End {
        link: host,
        at_host: true,
    }
}

/// An end takes all frames on their way to it.
fn take(at: End) -> Line
    ensures { result ≡ takes at }
{
    Line::Deliver { at, count: None }
}

/// A host sends a message.
fn send(alloc: Global, host: u8, pid: u8, message: &[u8]) -> Result<Line, AllocError>
    ensures { IfOk result (λ said. said ≡ sends_on (at_host_of host) pid message.now) }
{
    Ok(Line::Send {
        at: host_of(host),
        pid,
        message: Octets::from_slice(alloc, message)?,
    })
}
