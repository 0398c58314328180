//! Reading and writing of bytes, sector by sector.
ghost use Rattle.std.specs.Prelude.{◌≡◌, ◌<◌, ◌≤◌, ◌+◌, ◌-◌, ◌^◌, ℕ, length, is_ok, IsTrue, IfOk, OnOk, OnErr, Err, None, slice_index, slice_index_or};
ghost use Rattle.std.specs.Option.{ForSome};
ghost use Rattle.swp_base.specs.Outside.{Rose};
ghost use Rattle.flash_nv.specs.Pages.{IsClean, ArePages, data_byte, version_on, content_byte, sector_version};
ghost use Rattle.flash_nv.specs.Steps.{IsStep, piece_byte, AreSteps, sectors};
ghost use Rattle.flash_nv.specs.Writing.{IsSectorWritten, AreLaid, IsKeptBeside, HasSpent};

use crate::Flash;
use crate::header::version_of;
use crate::page_map::PageMap;
use crate::put::put;
use swp_base::Failed;

/// Why bytes were not written.
#[derive(Clone, Copy, Debug, PartialEq, Eq)]
pub enum Unwritten {
    /// A call of the flash failed.
    Failed,
    /// The version of a sector is the last, 18,446,744,073,709,551,615.
    Spent,
}

impl From<Failed> for Unwritten {
    ghost use Rattle.std.specs.Prelude.{◌≡◌};
    ghost use Rattle.flash_nv.specs.declared.sector.Unwritten.TheVariants.{Failed};

    ghost from_gives = { λ _ u. u ≡ Failed };

    fn from(_: Failed) -> Self {
        Unwritten::Failed
    }
}

/// Fills the buffer with bytes of a sector, from its byte `from` on, by its page.
fn read_piece<F: Flash>(
    flash: &mut F,
    page: Option<u16>,
    from: u32,
    buf: &mut [u8],
) -> Result<(), Failed>
    requires page { ForSome page (λ p. p < 272) }
    requires room { from + length buf.old ≤ 256 }
    ensures count { F.faults flash.old ≤ F.faults flash.new }
    ensures fault { OnErr result (Rose (F.faults flash.old) (F.faults flash.new)) }
    ensures kept { IsTrue F.tells → F.cells flash.new ≡ F.cells flash.old }
    ensures bytes { IsTrue F.tells → OnOk result ((j : ℕ) → j < length buf.new
        → slice_index buf.new j ≡ data_byte (F.cells flash.old) page (from + j)) }
{
    match page {
        None => {
            buf.fill(0xFF);
            Ok(())
        }
        Some(page) => flash.read(512 * page as u32 + 18 + from, buf),
    }
}

/// Fills the buffer with the bytes from place `at` on.
pub fn read_bytes<F: Flash>(
    flash: &mut F,
    map: &PageMap,
    at: u32,
    buf: &mut [u8],
) -> Result<(), Failed>
    requires { at + length buf.old ≤ 65536 }
    ensures count { F.faults flash.old ≤ F.faults flash.new }
    ensures fault { OnErr result (Rose (F.faults flash.old) (F.faults flash.new)) }
    ensures kept { IsTrue F.tells → F.cells flash.new ≡ F.cells flash.old }
    ensures bytes { IsTrue F.tells → ArePages (F.cells flash.old) map.now.pages → OnOk result ((i : ℕ) → i < length buf.new
        → slice_index buf.new i ≡ content_byte (F.cells flash.old) (at + i)) }
{
    let mut done = 0;
    while done < buf.len() {
        let place = at + done as u32;
        let from = place % 256;
        let len = (256 - from as usize).min(buf.len() - done);
        let page = map.page((place / 256) as u8);
        read_piece(flash, page, from, &mut buf[done..done + len])?;
        done += len;
    }
    Ok(())
}

/// Reads a sector whole, by its page, and gives its version.
fn read_sector<F: Flash>(
    flash: &mut F,
    page: Option<u16>,
    whole: &mut [u8; 256],
) -> Result<u64, Failed>
    requires { ForSome page (λ p. p < 272) }
    ensures count { F.faults flash.old ≤ F.faults flash.new }
    ensures fault { OnErr result (Rose (F.faults flash.old) (F.faults flash.new)) }
    ensures kept { IsTrue F.tells → F.cells flash.new ≡ F.cells flash.old }
    ensures version { IsTrue F.tells → IfOk result (λ v. v ≡ version_on (F.cells flash.old) page) }
    ensures bytes { IsTrue F.tells → OnOk result ((j : ℕ) → j < 256
        → slice_index whole.new j ≡ data_byte (F.cells flash.old) page j) }
{
    let Some(page) = page else {
        whole.fill(0xFF);
        return Ok(0);
    };
    let mut image = [0; 274];
    flash.read(512 * page as u32, &mut image)?;
    let mut header = [0; 18];
    header.copy_from_slice(&image[..18]);
    whole.copy_from_slice(&image[18..]);
    Ok(version_of(&header))
}

/// Lays these bytes over those of a sector, from its byte `from` on.
fn lay(whole: &mut [u8; 256], from: usize, bytes: &[u8])
    requires { from + length bytes.now ≤ 256 }
    ensures laid { AreLaid whole.old whole.new from bytes.now }
    ensures len { length whole.new ≡ 256 }
{
    for i in 0..bytes.len() {
        whole[from + i] = bytes[i];
    }
}

/// Writes these bytes into a sector, from its byte `from` on: the whole sector is put into a page that is not that of any sector.
fn write_piece<F: Flash>(
    flash: &mut F,
    map: &mut PageMap,
    sector: u8,
    from: usize,
    bytes: &[u8],
) -> Result<(), Unwritten>
    requires { from + length bytes.now ≤ 256 }
    ensures count { F.faults flash.old ≤ F.faults flash.new }
    ensures fault { result ≡ Err Unwritten.Failed → Rose (F.faults flash.old) (F.faults flash.new) }
    ensures written { IsTrue F.tells → IsClean (F.cells flash.old) → ArePages (F.cells flash.old) map.old.pages
        → IsSectorWritten (is_ok result) (F.cells flash.old) (F.cells flash.new) sector from bytes.now }
    ensures pages { IsTrue F.tells → IsClean (F.cells flash.old) → ArePages (F.cells flash.old) map.old.pages
        → OnOk result (ArePages (F.cells flash.new) map.new.pages) }
    ensures step { IsTrue F.tells → ArePages (F.cells flash.old) map.old.pages → OnOk result (IsStep (F.cells flash.old)
        (F.cells flash.new) map.old map.new sector (piece_byte (F.cells flash.old) sector from bytes.now)) }
    ensures spent { IsTrue F.tells → ArePages (F.cells flash.old) map.old.pages
        → result ≡ Err Unwritten.Spent → sector_version (F.cells flash.old) sector ≡ 2 ^ 64 - 1 }
    ensures same { IsTrue F.tells → result ≡ Err Unwritten.Spent → F.cells flash.new ≡ F.cells flash.old }
{
    let mut whole = [0xFF; 256];
    let version = read_sector(flash, map.page(sector), &mut whole)?;
    if version == u64::MAX {
        return Err(Unwritten::Spent);
    }
    lay(&mut whole, from, bytes);
    let page = map.free();
    put(flash, page, sector, version + 1, &whole)?;
    map.take(sector, page);
    Ok(())
}

/// Writes these bytes from place `at` on, sector by sector.
pub fn write_bytes<F: Flash>(
    flash: &mut F,
    map: &mut PageMap,
    at: u32,
    bytes: &[u8],
) -> Result<(), Unwritten>
    requires { at + length bytes.now ≤ 65536 }
    ensures count { F.faults flash.old ≤ F.faults flash.new }
    ensures fault { result ≡ Err Unwritten.Failed → Rose (F.faults flash.old) (F.faults flash.new) }
    ensures kept { IsTrue F.tells → IsClean (F.cells flash.old) → ArePages (F.cells flash.old) map.old.pages
        → IsKeptBeside (F.cells flash.old) (F.cells flash.new) at (length bytes.now) }
    ensures there { IsTrue F.tells → IsClean (F.cells flash.old) → ArePages (F.cells flash.old) map.old.pages
        → OnOk result ((i : ℕ) → i < length bytes.now → content_byte (F.cells flash.new) (at + i) ≡ slice_index bytes.now i) }
    ensures pages { IsTrue F.tells → IsClean (F.cells flash.old) → ArePages (F.cells flash.old) map.old.pages
        → OnOk result (ArePages (F.cells flash.new) map.new.pages) }
    ensures steps { IsTrue F.tells → IsClean (F.cells flash.old) → ArePages (F.cells flash.old) map.old.pages
        → OnOk result (AreSteps (sectors at (length bytes.now)) at bytes.now (F.cells flash.old) map.old (F.cells flash.new) map.new) }
    ensures spent { IsTrue F.tells → IsClean (F.cells flash.old) → ArePages (F.cells flash.old) map.old.pages
        → result ≡ Err Unwritten.Spent → HasSpent (F.cells flash.old) (F.cells flash.new) at (length bytes.now) }
{
    let mut done = 0;
    while done < bytes.len() {
        let place = at + done as u32;
        let from = (place % 256) as usize;
        let len = (256 - from).min(bytes.len() - done);
        let piece = &bytes[done..done + len];
        match write_piece(flash, map, (place / 256) as u8, from, piece) {
            Ok(()) => done += len,
            Err(why) => return Err(why),
        }
    }
    Ok(())
}
