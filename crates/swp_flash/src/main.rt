//! The program `swp_flash`: what `swp` does, with the same words, but with the memory on flash pages, which a file stands for. It
//! makes the adapters to the operating system, runs the top call, says on standard error how the run ended unless all is done,
//! and ends with the exit status.
#![tactic(auto)]

use flash_nv::FlashNv;
use std::fs::{File, Files};
use std::process::ExitCode;
use std::rt::Runtime;
use std::{env, io};
use swp_os::{Access, FileFlash, StdinSource, StdoutSink, begin, words};
use swp_tool::{Ended, Status, exit_code, run, status_text};

/// The file that stands for the flash, in the folder that the program runs in.
const FLASH: &str = "swp.flash";

/// The name of that file while it is made.
const MADE_AS: &str = "swp.flash.new";

fn main(rt: HostRuntime) -> ExitCode {
    let _kept_open = begin(&rt);
    let status = status_of_run(&rt);
    if status != Status::Done {
        // Where even this can't be said, the exit status still tells.
        let _ = tell(&rt, &status);
    }
    ExitCode::from(exit_code(&status))
}

/// Runs the program over standard input and output.
fn status_of_run<R: Runtime + Input + Print + AllocGlobal + Files<File = File>>(rt: &R) -> Status {
    let args = match env::args(rt) {
        Ok(args) => args,
        Err(error) if error.kind() == io::ErrorKind::OutOfMemory => return Status::NoMemory,
        Err(_) => return Status::BadWords,
    };
    let Ok(words) = words(rt.alloc(), args) else {
        return Status::NoMemory;
    };
    let flash = FileFlash::new(rt, FLASH, MADE_AS, access_for(words.as_slice()));
    let nv = FlashNv::new(flash);
    let mut source = StdinSource::new(rt.reader());
    let mut sink = StdoutSink::new(io::writer(rt));
    let Ended { status, nv: _ } = run(rt.alloc(), words.as_slice(), &mut source, &mut sink, nv);
    status
}

/// What the words use the flash for: `end` alone writes it.
fn access_for(words: &[String]) -> Access {
    match words.first() {
        Some(word) if word.as_str() == "end" => Access::Writes,
        _ => Access::Reads,
    }
}

/// Says on standard error how the run ended.
fn tell<R: Eprint + AllocGlobal>(rt: &R, status: &Status) -> io::Result<()> {
    let mut text = Vec::new(rt.alloc());
    if status_text(rt.alloc(), status, &mut text).is_err() {
        return Ok(());
    }
    match String::from_utf8(text) {
        Ok(text) => rt.eprintln(text),
        Err(_) => Ok(()),
    }
}
