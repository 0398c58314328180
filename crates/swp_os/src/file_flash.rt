//! A file of the operating system that stands for a flash memory. It meets the trait and tells no bytes; that it reads, programs
//! and erases the right ones is shown by tests and by the runs of `swp_flash`.
ghost use Rattle.std.specs.Prelude.{◌≡◌, ◌≤◌, [], false, length, OnOk, OnErr};
ghost use Rattle.swp_base.specs.Outside.{one_more};

use crate::kept_file::{Access, FileNv};
use flash_nv::Flash;
use std::fs::{File, Files};
use swp_base::Failed;

/// How many bytes a page has.
const PAGE: usize = 512;

/// How many bytes the flash has: 272 pages (this project's own).
const LENGTH: u32 = 139_264;

/// A file as a flash memory of 139,264 bytes. A call that fails is counted.
#[derive(Drop)]
pub struct FileFlash<'a, R> {
    file: FileNv<'a, R>,
}

impl<'a, R: Files<File = File>> FileFlash<'a, R> {
    /// Nothing is opened, and no call has failed.
    pub fn new(files: &'a R, name: &'a str, made_as: &'a str, access: Access) -> Self
        ensures { result.file.faults ≡ 0 }
    {
        FileFlash {
            file: FileNv::new(files, name, made_as, LENGTH, access),
        }
    }

    /// Makes each byte from place `at` on the AND of the old and the given one.
    fn program_file(&mut self, at: u32, bytes: &[u8]) -> Result<(), Failed>
        requires { length bytes.now ≤ 512 }
        ensures count { self.old.file.faults ≤ self.new.file.faults }
        ensures went { OnOk result (self.new.file.faults ≡ self.old.file.faults) }
        ensures fault { OnErr result (self.new.file.faults ≡ one_more self.old.file.faults) }
    {
        let mut page = [0; PAGE];
        let cells = &mut page[..bytes.len()];
        self.file.read_at(at, cells)?;
        for i in 0..bytes.len() {
            cells[i] &= bytes[i];
        }
        self.file.write_at(at, cells)
    }
}

impl<'a, R: Files<File = File>> Flash for FileFlash<'a, R> {
    ghost use Rattle.std.specs.Prelude.{[], false};

    ghost faults = { λ f. f.file.faults };

    ghost tells = { false };

    ghost cells = { λ _. [] };

    fn read(&mut self, at: u32, buf: &mut [u8]) -> Result<(), Failed> {
        self.file.read_at(at, buf)
    }

    fn program(&mut self, at: u32, bytes: &[u8]) -> Result<(), Failed> {
        self.program_file(at, bytes)
    }

    fn erase(&mut self, page: u16) -> Result<(), Failed> {
        self.file
            .write_at(u32::from(page) * PAGE as u32, &[0xFF; PAGE])
    }
}
