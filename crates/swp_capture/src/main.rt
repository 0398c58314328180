//! The program `swp_capture`: it reads what a logic analyser recorded of a line, and writes its line record. It makes the adapters
//! to the operating system, says on standard error how the run ended unless all is done, and ends with the exit status.
#![tactic(auto)]

mod capture;
mod output;
mod rate;
mod status;

ghost use Rattle.std.specs.Prelude.{◌<◌, ◌≤◌, ◌^◌, IfOk, IfSome};

use capture::record_capture;
use status::{CaptureStatus, exit_code, status_text};
use std::fs::{File, Files};
use std::process::ExitCode;
use std::rt::Runtime;
use std::{env, io};
use swp_os::{StdinSource, StdoutSink, begin, words};

/// How many femtoseconds a second has, by sixteen.
const SIXTEENTHS: u64 = 62_500_000_000_000;

/// The lowest and the highest rate, in bits a second.
const RATES: (u64, u64) = (20_000, 10_000_000);

fn main(rt: HostRuntime) -> ExitCode {
    let _kept_open = begin(&rt);
    let status = status_of_run(&rt);
    if status != CaptureStatus::Done {
        // Where even this can't be said, the exit status still tells.
        let _ = tell(&rt, &status);
    }
    ExitCode::from(exit_code(&status))
}

/// Runs the program over standard input and output.
fn status_of_run<R: Runtime + Input + Print + AllocGlobal + Files<File = File>>(
    rt: &R,
) -> CaptureStatus {
    let args = match env::args(rt) {
        Ok(args) => args,
        Err(error) if error.kind() == io::ErrorKind::OutOfMemory => return CaptureStatus::NoMemory,
        Err(_) => return CaptureStatus::BadWords,
    };
    let Ok(words) = words(rt.alloc(), args) else {
        return CaptureStatus::NoMemory;
    };
    let unit = match unit_asked(words.as_slice()) {
        Ok(unit) => unit,
        Err(status) => return status,
    };
    let mut source = StdinSource::new(rt.reader());
    let mut sink = StdoutSink::new(io::writer(rt));
    record_capture(unit, &mut source, &mut sink)
}

/// A sixteenth of the bit period that the words ask for, in femtoseconds; none where the rate is to be found.
fn unit_asked(words: &[String]) -> Result<Option<u64>, CaptureStatus>
    ensures some { IfOk result (λ unit. IfSome unit (λ u. 0 < u)) }
    ensures few { IfOk result (λ unit. IfSome unit (λ u. u ≤ 2 ^ 32)) }
{
    let [form, rate] = words else {
        return Err(CaptureStatus::BadWords);
    };
    if form.as_str() != "vcd" {
        return Err(CaptureStatus::BadWords);
    }
    if rate.as_str() == "auto" {
        return Ok(None);
    }
    match unit_of(rate.as_str()) {
        Some(unit) => Ok(Some(unit)),
        None => Err(CaptureStatus::BadWords),
    }
}

/// A sixteenth of the bit period at a rate; none where it is no number in the range.
fn unit_of(rate: &str) -> Option<u64>
    ensures some { IfSome result (λ unit. 0 < unit) }
    ensures few { IfSome result (λ unit. unit ≤ 2 ^ 32) }
{
    let Ok(rate) = rate.parse::<u64>() else {
        return None;
    };
    if rate < RATES.0 || rate > RATES.1 {
        return None;
    }
    Some(SIXTEENTHS / rate)
}

/// Says on standard error how the run ended.
fn tell<R: Eprint + AllocGlobal>(rt: &R, status: &CaptureStatus) -> io::Result<()> {
    match status_text(rt.alloc(), status) {
        Ok(text) => rt.eprintln(text),
        Err(_) => Ok(()),
    }
}
