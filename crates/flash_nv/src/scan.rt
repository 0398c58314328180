//! A pass over the pages, which finds the page of each sector.
ghost use Rattle.std.specs.Prelude.{◌≡◌, ◌<◌, ◌≤◌, ◌+◌, List, ℕ, length, IsTrue, IfOk, OnErr, None, replicate, slice_index, slice_index_or};
ghost use Rattle.swp_base.specs.Outside.{Rose};
ghost use Rattle.flash_nv.specs.Pages.{header_at, ArePages};
ghost use Rattle.flash_nv.specs.Scanning.{ArePagesFound, beats};

use crate::Flash;
use crate::header::{is_valid, version_of};
use crate::page_map::PageMap;
use swp_base::Failed;

/// The page of each sector and its version, as far as the pages were read.
#[derive(Drop)]
struct Found {
    map: PageMap,
    versions: [u64; 256],
}

impl Found {
    /// No page was read.
    fn new() -> Self
        ensures found { (cells : List ℕ) → ArePagesFound cells 0 result.map.pages result.versions }
        ensures next { result.map.next ≡ 0 }
    {
        Found {
            map: PageMap::new(),
            versions: [0; 256],
        }
    }

    /// A page of this version is to be taken for a sector, in the place of the one that was found.
    fn is_newer(&self, sector: u8, version: u64) -> bool
        ensures newer { result ≡ beats (slice_index_or self.now.map.pages sector None) (slice_index self.now.versions sector) version }
        ensures pages { length self.now.map.pages ≡ 256 }
        ensures versions { length self.now.versions ≡ 256 }
    {
        match self.map.page(sector) {
            None => true,
            Some(_) => self.versions[sector as usize] < version,
        }
    }

    /// Notes the header of the next page.
    fn note(&mut self, page: u16, header: &[u8; 18])
        requires { page < 272 }
        ensures found { (cells : List ℕ) → header.now ≡ header_at cells page → ArePagesFound cells page self.old.map.pages self.old.versions
            → ArePagesFound cells (page + 1) self.new.map.pages self.new.versions }
        ensures next { self.new.map.next ≡ self.old.map.next }
    {
        if !is_valid(header) {
            return;
        }
        let sector = header[0];
        let version = version_of(header);
        if !self.is_newer(sector, version) {
            return;
        }
        self.map.set_page(sector, page);
        self.versions[sector as usize] = version;
    }
}

/// Finds the page of each sector. Page 0 is looked at first for a free one.
pub fn scan<F: Flash>(flash: &mut F) -> Result<PageMap, Failed>
    ensures count { F.faults flash.old ≤ F.faults flash.new }
    ensures fault { OnErr result (Rose (F.faults flash.old) (F.faults flash.new)) }
    ensures kept { IsTrue F.tells → F.cells flash.new ≡ F.cells flash.old }
    ensures pages { IsTrue F.tells → IfOk result (λ m. ArePages (F.cells flash.old) m.pages) }
    ensures next { IfOk result (λ m. m.next ≡ 0) }
{
    let mut found = Found::new();
    for page in 0..272 {
        let mut header = [0; 18];
        flash.read(512 * page as u32, &mut header)?;
        found.note(page, &header);
    }
    Ok(found.map)
}
