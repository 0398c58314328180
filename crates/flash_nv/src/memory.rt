//! A memory over flash.
ghost use Rattle.std.specs.Prelude.{◌≡◌, ◌⊎◌, ◌+◌, ◌^◌, ◌<◌, ◌≤◌, true, false, length, is_ok, IsTrue, OnOk, OnErr, replicate, None, slice_range};
ghost use Rattle.swp_base.specs.Outside.{one_more, Rose};
ghost use Rattle.flash_nv.specs.Content.{length-content_front};
ghost use Rattle.flash_nv.specs.Pages.{IsClean, ArePages, flash_content};
ghost use Rattle.flash_nv.specs.Memory.{fault_count};
ghost use Rattle.flash_nv.specs.Steps.{IsMapBegun};
ghost use Rattle.flash_nv.specs.Calls.{ReadsFlash, WritesFlash};
ghost use Rattle.flash_nv.specs.Writing.{HasSpent};

use crate::Flash;
use crate::page_map::PageMap;
use crate::scan::scan;
use crate::sector::{Unwritten, read_bytes, write_bytes};
use std::marker::Model;
use swp_base::{Failed, Nv};

/// A memory of 65,536 bytes over flash: 256 sectors of 256 bytes, each in a page of its own. A sector is written by putting it
/// whole into a page that is not that of any sector, so that a power cut leaves it as it was, or as it was to be. Contracts see the
/// flash, what is known of its pages, whether that is so still, and how many writes were refused.
#[derive(Drop)]
pub struct FlashNv<F: Flash + Drop> {
    flash: F,
    map: PageMap,
    /// The map has the page of each sector. It isn't known before the first call, and after a call that failed.
    known: bool,
    /// How many writes were refused since a sector's version was the last.
    refused: u64,
}

impl<F: Flash + Drop> Model for FlashNv<F> {
    ghost use Rattle.flash_nv.specs.Memory.{FlashMemory, IsStanding};

    ghost Value = { FlashMemory F };

    ghost view = { λ m. record { flash = m.flash; map = m.map; known = m.known; refused = m.refused } };

    ghost invariant = { λ m. IsStanding F.tells F.cells
        (record { flash = m.flash; map = m.map; known = m.known; refused = m.refused }) };
}

impl<F: Flash + Drop> FlashNv<F> {
    /// A memory over this flash. It reads nothing yet. Where the flash tells its bytes, each page is to be one that no torn erase
    /// can make valid: of each bit of its first nine bytes and the bit of its complement at least one is 1.
    pub fn new(flash: F) -> Self
        requires { IsTrue F.tells → IsClean (F.cells flash) }
        ensures { result ≡ record { flash = flash; map = record { pages = replicate 256 None; next = 0 }; known = false; refused = 0 } }
    {
        FlashNv {
            flash,
            map: PageMap::new(),
            known: false,
            refused: 0,
        }
    }

    /// The flash. It meets what `new` asks.
    pub fn into_flash(self) -> F
        ensures flash { result ≡ self.flash }
        ensures clean { IsTrue F.tells → IsClean (F.cells result) }
    {
        self.flash
    }

    /// Finds the page of each sector, where that isn't known.
    fn know_pages(&mut self) -> Result<(), Failed>
        ensures known { self.new.known ≡ is_ok result }
        ensures count { F.faults self.old.flash ≤ F.faults self.new.flash }
        ensures fault { OnErr result (Rose (F.faults self.old.flash) (F.faults self.new.flash)) }
        ensures kept { IsTrue F.tells → F.cells self.new.flash ≡ F.cells self.old.flash }
        ensures refused { self.new.refused ≡ self.old.refused }
        ensures begun { IsTrue F.tells → OnOk result (IsMapBegun F.cells self.old self.new.map) }
    {
        if !self.known {
            self.map = scan(&mut self.flash)?;
            self.known = true;
        }
        Ok(())
    }
}

impl<F: Flash + Drop> Nv for FlashNv<F> {
    ghost faults = { fault_count F.faults };

    ghost capacity = { λ m. 65536 };

    ghost tells = { F.tells };

    ghost content = { λ m. flash_content (F.cells m.flash) };

    ghost reads = { ReadsFlash F.tells F.cells };

    ghost writes = { WritesFlash F.tells F.cells };

    ghost sized = { λ m tells. length-content_front (F.cells m.flash) 65536 };

    ghost told = { λ old at bytes ok new tells made. made.told tells };

    fn size(&self) -> u32 {
        65_536
    }

    fn read(&mut self, at: u32, buf: &mut [u8]) -> Result<(), Failed>
        requires { at + length buf.old ≤ 65536 }
        ensures count { F.faults self.old.flash ≤ F.faults self.new.flash }
        ensures fault { OnErr result (Rose (F.faults self.old.flash) (F.faults self.new.flash)) }
        ensures refused { self.new.refused ≡ self.old.refused }
        ensures read { IsTrue F.tells →
            OnOk result (buf.new ≡ slice_range (flash_content (F.cells self.old.flash)) at (at + length buf.old)) }
        ensures kept { IsTrue F.tells → F.cells self.new.flash ≡ F.cells self.old.flash }
        ensures step { ReadsFlash F.tells F.cells self.old (is_ok result) self.new }
    {
        self.know_pages()?;
        self.known = false;
        read_bytes(&mut self.flash, &self.map, at, buf)?;
        self.known = true;
        Ok(())
    }

    fn write(&mut self, at: u32, bytes: &[u8]) -> Result<(), Failed>
        requires { at + length bytes.now ≤ 65536 }
        ensures count { fault_count F.faults self.old ≤ fault_count F.faults self.new }
        ensures fault { OnErr result (Rose (fault_count F.faults self.old) (fault_count F.faults self.new)) }
        ensures step { WritesFlash F.tells F.cells self.old at bytes.now (is_ok result) self.new }

        // only a fault of the flash is a cause of a failure, or a sector of the last version, which is counted
        ensures refused { OnOk result (self.new.refused ≡ self.old.refused) }
        ensures cause { OnErr result (((self.new.refused ≡ self.old.refused) × Rose (F.faults self.old.flash) (F.faults self.new.flash))
            ⊎ ((self.new.refused ≡ one_more self.old.refused)
            × (IsTrue F.tells → HasSpent (F.cells self.old.flash) (F.cells self.new.flash) at (length bytes.now)))) }
    {
        self.know_pages()?;
        self.known = false;
        match write_bytes(&mut self.flash, &mut self.map, at, bytes) {
            Ok(()) => {
                self.known = true;
                Ok(())
            }
            Err(Unwritten::Failed) => Err(Failed),
            Err(Unwritten::Spent) => {
                self.refused = self.refused.saturating_add(1);
                Err(Failed)
            }
        }
    }
}
