//! A sector is put into a page: the page is erased, the sector's data are programmed, and then the header.
ghost use Rattle.std.specs.Prelude.{◌≡◌, ◌<◌, ◌≤◌, length, is_ok, IsTrue, OnErr};
ghost use Rattle.swp_base.specs.Outside.{Rose};
ghost use Rattle.flash_nv.specs.Putting.{IsPut};

use crate::Flash;
use crate::header::page_header;
use swp_base::Failed;

/// Puts a sector in this version into a page. Until its header is programmed, the page isn't valid.
pub fn put<F: Flash>(
    flash: &mut F,
    page: u16,
    sector: u8,
    version: u64,
    bytes: &[u8; 256],
) -> Result<(), Failed>
    requires { page < 272 }
    ensures count { F.faults flash.old ≤ F.faults flash.new }
    ensures fault { OnErr result (Rose (F.faults flash.old) (F.faults flash.new)) }
    ensures put { IsTrue F.tells → IsPut (is_ok result) (F.cells flash.old) (F.cells flash.new) page sector version bytes.now }
{
    let at = 512 * page as u32;
    flash.erase(page)?;
    flash.program(at + 18, bytes)?;
    flash.program(at, &page_header(sector, version))
}
