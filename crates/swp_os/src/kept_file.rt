//! A file of the operating system as a memory that keeps its bytes over a power cut.
ghost use Rattle.std.specs.Prelude.{◌≡◌, ◌<◌, ◌≤◌, ◌^◌, [], false, OnOk, OnErr};
ghost use Rattle.swp_base.specs.Outside.{one_more};

use std::fs::{self, File, Files, Metadata, OpenOptions};
use std::io::{self, ErrorKind};
use std::os::fd::AsRawFd;
use std::os::unix::fs::FileExt;
use swp_base::{Failed, Nv};

/// The folder that the program runs in.
const FOLDER: &str = ".";

/// How many bytes a new file is filled with at once.
const PIECE: usize = 4096;

/// What a memory is opened for.
#[derive(Clone, Copy, PartialEq, Eq)]
pub enum Access {
    /// To be read. Others may read and write it meanwhile, and a write fails.
    Reads,
    /// To be read and written, by one program at a time.
    Writes,
}

/// A file in the folder that the program runs in, as a memory of so many bytes. It is opened at its first use, and made, all FF,
/// where it isn't there or is empty. A file of another length, what is no file, and one that another program has open for
/// writing are refused and left as they are. A call that fails is counted.
#[derive(Drop)]
pub struct FileNv<'a, R> {
    files: &'a R,
    name: &'a str,
    made_as: &'a str,
    length: u32,
    access: Access,
    file: Option<File>,
    faults: u64,
}

impl<'a, R: Files<File = File>> FileNv<'a, R> {
    /// A memory of `length` bytes in the file `name`. It is made under the name `made_as`, so that the file is whole or isn't there.
    /// Nothing is opened, and no call has failed.
    pub fn new(files: &'a R, name: &'a str, made_as: &'a str, length: u32, access: Access) -> Self
        ensures faults { result.faults ≡ 0 }
        ensures length { result.length ≡ length }
    {
        FileNv {
            files,
            name,
            made_as,
            length,
            access,
            file: None,
            faults: 0,
        }
    }

    /// Fills the buffer with the bytes from place `at` on. Behind the end of the file that fails.
    pub fn read_at(&mut self, at: u32, buf: &mut [u8]) -> Result<(), Failed>
        ensures bounded { self.old.length < 2 ^ 32 }
        ensures length { self.new.length ≡ self.old.length }
        ensures count { self.old.faults ≤ self.new.faults }
        ensures went { OnOk result (self.new.faults ≡ self.old.faults) }
        ensures fault { OnErr result (self.new.faults ≡ one_more self.old.faults) }
    {
        let _length = self.length;
        let answer = self.read_file(at, buf);
        self.counted(answer)
    }

    /// Puts the bytes there from place `at` on, and has them on the disk.
    pub fn write_at(&mut self, at: u32, bytes: &[u8]) -> Result<(), Failed>
        ensures bounded { self.old.length < 2 ^ 32 }
        ensures length { self.new.length ≡ self.old.length }
        ensures count { self.old.faults ≤ self.new.faults }
        ensures went { OnOk result (self.new.faults ≡ self.old.faults) }
        ensures fault { OnErr result (self.new.faults ≡ one_more self.old.faults) }
    {
        let _length = self.length;
        let answer = self.write_file(at, bytes);
        self.counted(answer)
    }

    /// The answer to a call, whose fault is counted.
    fn counted(&mut self, answer: io::Result<()>) -> Result<(), Failed>
        ensures length { self.new.length ≡ self.old.length }
        ensures count { self.old.faults ≤ self.new.faults }
        ensures went { OnOk result (self.new.faults ≡ self.old.faults) }
        ensures fault { OnErr result (self.new.faults ≡ one_more self.old.faults) }
    {
        match answer {
            Ok(()) => Ok(()),
            Err(_) => {
                self.faults = self.faults.saturating_add(1);
                Err(Failed)
            }
        }
    }

    /// Opens the file where it isn't open, and makes it where it isn't there.
    fn open(&mut self) -> io::Result<()>
        ensures faults { self.new.faults ≡ self.old.faults }
        ensures length { self.new.length ≡ self.old.length }
    {
        if self.file.is_some() {
            return Ok(());
        }
        if is_missing(self.files, self.name)? {
            make(self.files, self.name, self.made_as, self.length)?;
        }
        let file = open_whole(self.files, self.name, self.length, self.access)?;
        self.file = Some(file);
        Ok(())
    }

    fn read_file(&mut self, at: u32, buf: &mut [u8]) -> io::Result<()>
        ensures faults { self.new.faults ≡ self.old.faults }
        ensures length { self.new.length ≡ self.old.length }
    {
        self.open()?;
        match &self.file {
            Some(file) => file.read_exact_at(buf, u64::from(at)),
            None => Err(ErrorKind::NotFound.into()),
        }
    }

    fn write_file(&mut self, at: u32, bytes: &[u8]) -> io::Result<()>
        ensures faults { self.new.faults ≡ self.old.faults }
        ensures length { self.new.length ≡ self.old.length }
    {
        self.open()?;
        match &self.file {
            Some(file) => {
                file.write_all_at(bytes, u64::from(at))?;
                // So that a later write is never on the disk before an earlier one.
                file.sync_data()
            }
            None => Err(ErrorKind::NotFound.into()),
        }
    }
}

/// Whether a memory is still to be made: there is nothing of that name, or an empty file.
fn is_missing<R: Files<File = File>>(files: &R, name: &str) -> io::Result<bool> {
    match fs::symlink_metadata(files, name) {
        Ok(found) => Ok(found.is_file() && found.len() == 0),
        Err(error) if error.kind() == ErrorKind::NotFound => Ok(true),
        Err(error) => Err(error),
    }
}

/// Refuses what is no file, and a file of another length.
fn check_whole(found: &Metadata, length: u32) -> io::Result<()> {
    if found.is_file() && found.len() == u64::from(length) {
        Ok(())
    } else {
        Err(ErrorKind::InvalidData.into())
    }
}

/// Opens a file of that length.
fn open_whole<R: Files<File = File>>(
    files: &R,
    name: &str,
    length: u32,
    access: Access,
) -> io::Result<File> {
    let writes = access == Access::Writes;
    // This is asked before, since an opening may wait where there is no file.
    check_whole(&fs::metadata(files, name)?, length)?;
    let mut how = OpenOptions::new();
    how.read(true).write(writes);
    let file = how.open(files, name)?;
    // What has the number of a standard stream would be taken for it.
    if file.as_raw_fd() <= 2 {
        return Err(ErrorKind::InvalidData.into());
    }
    if writes {
        file.try_lock()?;
        // The run that made the file may have been ended before it had synced the folder. Where that can't be done, a write
        // goes on to what the system promises of the file alone.
        let _ = sync_folder(files);
    }
    // Once more, now that nobody else writes it.
    check_whole(&file.metadata()?, length)?;
    Ok(file)
}

/// Has the names of the folder's files on the disk.
fn sync_folder<R: Files<File = File>>(files: &R) -> io::Result<()> {
    File::open(files, FOLDER)?.sync_all()
}

/// Makes the file, all FF, under another name, and gives it its name once it is whole and on the disk. Two runs don't make it at
/// once: the second one fails.
fn make<R: Files<File = File>>(
    files: &R,
    name: &str,
    made_as: &str,
    length: u32,
) -> io::Result<()> {
    let folder = File::open(files, FOLDER)?;
    folder.try_lock()?;
    // Another run may have made it since.
    if !is_missing(files, name)? {
        return Ok(());
    }
    // A run that was ended while it made the file left this.
    match fs::remove_file(files, made_as) {
        Err(error) if error.kind() != ErrorKind::NotFound => return Err(error),
        _ => {}
    }
    if let Err(error) = make_named(files, name, made_as, length) {
        let _ = fs::remove_file(files, made_as);
        return Err(error);
    }
    match folder.sync_all() {
        // A file system that syncs no folders answers so.
        Err(error) if error.kind() == ErrorKind::InvalidInput => Ok(()),
        answer => answer,
    }
}

fn make_named<R: Files<File = File>>(
    files: &R,
    name: &str,
    made_as: &str,
    length: u32,
) -> io::Result<()> {
    let mut how = OpenOptions::new();
    how.write(true).create_new(true);
    let file = how.open(files, made_as)?;
    fill(&file, length)?;
    fs::rename(files, made_as, name)
}

/// Fills a new file with FF, up to that length.
fn fill(file: &File, length: u32) -> io::Result<()> {
    let erased = [0xFF; PIECE];
    let length = length as usize;
    for piece in 0..length / PIECE {
        file.write_all_at(&erased, (piece * PIECE) as u64)?;
    }
    let rest = length % PIECE;
    file.write_all_at(&erased[..rest], (length - rest) as u64)?;
    file.sync_all()
}

impl<'a, R: Files<File = File>> Nv for FileNv<'a, R> {
    ghost use Rattle.std.specs.Prelude.{◌≡◌, [], false};
    ghost use Rattle.std.proofs.lemmas.Bool.{false≢true};
    ghost use Rattle.swp_base.specs.Outside.{Rose};

    ghost faults = { λ m. m.faults };

    ghost capacity = { λ m. m.length };

    ghost tells = { false };

    ghost content = { λ _. [] };

    ghost reads = { λ old ok new. ok ≡ false → Rose old.faults new.faults };

    ghost writes = { λ old at bytes ok new. ok ≡ false → Rose old.faults new.faults };

    ghost sized = { λ m tells. absurd (false≢true tells) };

    ghost told = { λ old at bytes ok new tells made. absurd (false≢true tells) };

    fn size(&self) -> u32 {
        self.length
    }

    fn read(&mut self, at: u32, buf: &mut [u8]) -> Result<(), Failed> {
        self.read_at(at, buf)
    }

    fn write(&mut self, at: u32, bytes: &[u8]) -> Result<(), Failed> {
        self.write_at(at, bytes)
    }
}
