//! A journal over flash: what its clauses say of any memory holds of this one.
ghost use Rattle.std.specs.Prelude.{◌≡◌, ◌++◌, ◌≤◌, ◌<◌, [], ◌∷◌, length, is_ok, true, IsTrue, OnOk, OnErr, IfOk};
ghost use Rattle.flash_nv.specs.Pages.{flash_content};
ghost use Rattle.journal_laws.specs.Journal.{records};
ghost use Rattle.journal_laws.specs.Operations.{append_writes, HasRoomForBody, LeftByCut};

use flash_nv::{FlashNv, MemFlash};
use nv_journal::{Journal, JournalFault, StartRefused};

/// A started journal has the records that the pages of the flash say.
pub fn start_over_flash(
    nv: FlashNv<MemFlash>,
) -> Result<Journal<FlashNv<MemFlash>>, StartRefused<FlashNv<MemFlash>>>
    ensures { IfOk result (λ j. records (flash_content j.nv.flash.cells) ≡ records (flash_content nv.flash.cells)) }
{
    Journal::start(nv)
}

/// An append adds the record to those that the pages of the flash say, or is cut: then these are the old ones, or these and the
/// new one.
pub fn append_over_flash(
    journal: &mut Journal<FlashNv<MemFlash>>,
    body: &[u8],
) -> Result<(), JournalFault>
    requires live { IsTrue journal.old.live }
    requires room { HasRoomForBody journal.old.state body.now }
    ensures records { OnOk result (records (flash_content journal.new.nv.flash.cells)
        ≡ records (flash_content journal.old.nv.flash.cells) ++ body.now ∷ []) }
    ensures cut { OnErr result (LeftByCut (append_writes journal.old.state body.now)
        (flash_content journal.old.nv.flash.cells) (flash_content journal.new.nv.flash.cells)) }
{
    journal.append(body)
}
