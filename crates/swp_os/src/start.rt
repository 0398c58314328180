//! What a program does before all else, and the words that it is given.
ghost use Rattle.std.specs.Prelude.{pos, ◌≤ℤ◌, ◌≡◌, IfOk, IfSome, drop};
ghost use Rattle.std.specs.Fd.{file_raw_fd};
ghost use Rattle.std.specs.Vec.Iter.{into_iter_items};

use std::alloc::{AllocError, Global};
use std::env::Args;
use std::fs::{File, Files};
use std::os::fd::AsRawFd;
use std::os::unix::fs::FileExt;

/// How much of the stack a run may need, in bytes.
const STACK: usize = 196_608;

/// What is opened in the place of a standard stream that is closed. No byte can be read from it, and none can be written to it.
const NOTHING: &str = "/";

/// What stands in the place of standard streams that are closed. It is kept for as long as the program runs.
#[derive(Drop)]
pub struct KeptOpen {
    first: Option<File>,
    second: Option<File>,
    third: Option<File>,
}

/// Begins a program. So that no file that it opens later is taken for a standard stream, each of the three that is closed is
/// opened, and a read of it or a write to it fails as before. So much of the stack as a run may need is touched, so that a stack
/// that can't grow so far ends the program here, before it has begun. What is kept open stands in the place of a standard stream, 0 to 2.
pub fn begin<R: Files<File = File>>(files: &R) -> KeptOpen
    ensures first { IfSome result.first (λ file. file_raw_fd file ≤ℤ pos 2) }
    ensures second { IfSome result.second (λ file. file_raw_fd file ≤ℤ pos 2) }
    ensures third { IfSome result.third (λ file. file_raw_fd file ≤ℤ pos 2) }
{
    // The system gives the lowest number that is free.
    let kept = KeptOpen {
        first: open_low(files),
        second: open_low(files),
        third: open_low(files),
    };
    if let Ok(nothing) = File::open(files, NOTHING) {
        touch_stack(&nothing);
    }
    kept
}

/// Opens the lowest number that is free, where it is one of the three.
fn open_low<R: Files<File = File>>(files: &R) -> Option<File>
    ensures { IfSome result (λ file. file_raw_fd file ≤ℤ pos 2) }
{
    match File::open(files, NOTHING) {
        Ok(file) if file.as_raw_fd() <= 2 => Some(file),
        _ => None,
    }
}

/// Touches so much of the stack. The read fails and puts nothing there: that the system is handed the bytes keeps them from
/// being left out.
#[inline(never)]
fn touch_stack(nothing: &File) {
    let mut deep = [0; STACK];
    let _ = nothing.read_at(&mut deep, 0);
}

/// The words behind the program's name.
///
/// # Errors
///
/// No memory is left.
pub fn words(alloc: Global, args: Args) -> Result<Vec<String>, AllocError>
    ensures { IfOk result (λ words. words.items ≡ drop 1 (into_iter_items args)) }
{
    let mut words = Vec::new(alloc);
    let mut left = args;
    let _name = left.next();
    'words: while let Some(word) = left.next() {
        words.push(word)?;
    }
    Ok(words)
}
