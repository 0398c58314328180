//! The records of a memory as commands.
ghost use Rattle.std.specs.Prelude.{◌≡◌, ◌≢◌, ◌⊎◌, ◌≤◌, fold, take, true, false, Ok, Err, Some, IsTrue, OnOk, IfErr};
ghost use Rattle.swp_base.specs.Outside.{Rose};
ghost use Rattle.journal_laws.specs.Writes.{AreRead};
ghost use Rattle.journal_laws.specs.Journal.{journal, records};
ghost use Rattle.nv_journal.specs.Scanning.{IsReadSoFar};
ghost use Rattle.nv_journal.specs.Refusals.{IsImageFault};
ghost use Rattle.nv_journal.specs.Faults.{IsKnown};
ghost use Rattle.hci_tables.specs.Tables.{no_tables};
ghost use Rattle.hci_store.specs.Recordable.{IsRecordable};
ghost use Rattle.hci_store.specs.Image.{applied, are_commands, tables_of, image_fault};

use hci_tables::{Tables, read_command};
use nv_journal::{JournalFault, Scan};
use swp_base::Nv;

/// Passes all records that come, and does what their commands say. A record that is no command is refused.
pub fn apply_all<N: Nv + Drop>(scan: &mut Scan<N>, tables: &mut Tables) -> Result<(), JournalFault>
    requires first { scan.old.state.many ≡ 0 }
    requires empty { tables.old ≡ no_tables }
    ensures ended { OnOk result (IsTrue scan.new.ended) }
    ensures read { (first : N) → IsReadSoFar N.reads first scan.old → result ≢ Err JournalFault.NvFault
        → IsReadSoFar N.reads first scan.new }
    ensures unread { (first : N) → IsReadSoFar N.reads first scan.old → result ≡ Err JournalFault.NvFault
        → AreRead N.reads 37 first false scan.new.nv }
    ensures count { N.faults scan.old.nv ≤ N.faults scan.new.nv }
    ensures rose { result ≡ Err JournalFault.NvFault → Rose (N.faults scan.old.nv) (N.faults scan.new.nv) }
    ensures kept { IsTrue N.tells → N.content scan.new.nv ≡ N.content scan.old.nv }
    ensures tables { IsTrue N.tells → OnOk result (tables.new ≡ tables_of (N.content scan.old.nv)) }
    ensures recordable { IsRecordable tables.new }
    ensures commands { IsTrue N.tells → OnOk result (are_commands (records (N.content scan.old.nv)) ≡ true) }
    ensures fault { IfErr result (λ f. (f ≡ JournalFault.NvFault) ⊎ (IsImageFault f × (IsTrue N.tells
        → IsKnown (journal (N.content scan.old.nv)).head.version → image_fault (N.content scan.old.nv) ≡ Some f))) }
{
    'records: loop {
        let at = scan.place();
        let body = match scan.next() {
            Ok(Some(body)) => body,
            Ok(None) => return Ok(()),
            Err(fault) => return Err(fault),
        };
        match read_command(body.as_slice()) {
            Some(command) => tables.apply(&command),
            None => return Err(JournalFault::BadRecord { at }),
        }
    }
}
