//! What a controller does where its administration gate has decided, and where a host has answered a notice.
ghost use Rattle.std.specs.Prelude.{◌≡◌, [], ◌<◌, ◌++◌, true, false, map, option_map, length};
ghost use Rattle.pipe_table.specs.declared.row.PipeRow.{PipeRow};
ghost use Rattle.hci_tables.specs.Commands.{IsCommand};
ghost use Rattle.gate_admin.specs.View.{has, hosts_where};
ghost use Rattle.gate_admin.specs.Decide.{IsRecordableDecision};
ghost use Rattle.node_machine.specs.Parts.Deed.{Tells};
ghost use Rattle.node_machine.specs.Carrying.{own_view};
ghost use Rattle.node_machine.specs.Controller.{decision_deeds, agreed, about_of, notice_deeds};
ghost use Rattle.node_deeds.specs.Shown.{Handling, notice_shown, deeds_shown, creation_of_row};
ghost use Rattle.node_deeds.specs.Cores.{controller_core, IsReady, AreDoable, IsSoundDesk, IsSoundDecision, TellsFew};

use crate::answering::{answered, dropped, refused_on};
use crate::deeds::{Deed, Deeds, ends_of};
use crate::desks::{About, Desk};
use crate::view::{ADMINISTRATION_PIPE, is_in};
use gate_admin::Decision;
use gate_answers::{Notice, Response, answer, refused};
use hci_store::Store;
use hci_tables::Command;
use pipe_table::PipeRow;
use swp_base::Nv;

/// What the administration gate decided of a command is done.
pub(crate) fn put_decision<N: Nv + Drop>(
    deeds: &mut Deeds,
    store: &mut Store<N>,
    host: u8,
    pipe: u8,
    decision: Decision,
)
    requires ready { IsReady store.old }
    requires pipe { pipe < 112 }
    requires sound { IsSoundDecision host decision }
    requires recordable { IsRecordableDecision decision }
    requires none { deeds.old.items ≡ [] }
    ensures deeds { (a : Handling) → deeds_shown a deeds.new.items
        ≡ decision_deeds (own_view (controller_core store.old.journal.state store.old.tables)) host pipe decision }
    ensures doable { AreDoable deeds.new.items }
    ensures unchanged { store.new ≡ store.old }
{
    match decision {
        Decision::Answer(message) => answered(deeds, host, pipe, message),
        Decision::Commit {
            command,
            answer,
            tell,
            notice,
        } => {
            if store.room(&command) {
                deeds.push(Deed::Commits(command));
                deeds.push(Deed::Sends {
                    host,
                    pipe,
                    message: answer,
                });
                deeds.push(Deed::SaysOk);
                tell_hosts(deeds, tell, &notice);
            } else {
                refused_on(deeds, host, pipe, Response::NotOk)
            }
        }
        Decision::Ask { command, .. } => deeds.push(Deed::Asks(created_by(command))),
    }
}

// The pipe that a command creates.
fn created_by(command: Command) -> PipeRow
    requires { (row : PipeRow) × (command ≡ Command.Create row) }
    ensures { command ≡ Command.Create result }
{
    match command {
        Command::Create(row) => row,
        _ => unreachable!(),
    }
}

// The hosts of a mask are told by a notice.
fn tell_hosts(deeds: &mut Deeds, tell: u8, notice: &Notice)
    requires three { length deeds.old.items ≡ 3 }
    requires few { TellsFew tell notice.now.items }
    requires doable { AreDoable deeds.old.items }
    ensures told { (a : Handling) → deeds_shown a deeds.new.items
        ≡ deeds_shown a deeds.old.items ++ map (λ told. Tells told notice.now.items) (hosts_where (has tell)) }
    ensures doable { AreDoable deeds.new.items }
{
    for host in 1..8 {
        if is_in(tell, host) {
            deeds.push(Deed::Tells {
                host,
                message: copy_of(notice),
            });
        }
    }
}

fn copy_of(notice: &Notice) -> Notice
    ensures { result.items ≡ notice.now.items }
{
    let mut copy = Notice::new();
    let _ = copy.try_extend_from_slice(notice.as_slice());
    copy
}

/// The host of this desk has answered with this code on pipe 01: its notice is answered, and the creation that it was asked for is done or not,
/// where it waits.
pub(crate) fn replied<N: Nv + Drop>(deeds: &mut Deeds, store: &mut Store<N>, desk: &Desk, code: u8)
    requires ready { IsReady store.old }
    requires sound { IsSoundDesk desk.now }
    requires none { deeds.old.items ≡ [] }
    ensures deeds { (a : Handling) → deeds_shown a deeds.new.items
        ≡ notice_deeds (own_view (controller_core store.old.journal.state store.old.tables)) code (about_of (option_map notice_shown desk.now.notice)) }
    ensures doable { AreDoable deeds.new.items }
    ensures unchanged { store.new ≡ store.old }
{
    match desk.notice {
        Some(notice) => match notice.about {
            About::Waits(row) => {
                if code == 0 && store.room(&Command::Create(row)) {
                    agreed(deeds, row)
                } else {
                    disagreed(deeds, &row)
                }
            }
            About::Forgotten => deeds.push(Deed::IsAnswered),
            About::Removed => deeds.push(Deed::IsAnswered),
        },
        None => dropped(deeds, ADMINISTRATION_PIPE),
    }
}

// A creation is committed, and its asker gets its answer.
fn agreed(deeds: &mut Deeds, row: PipeRow)
    requires command { IsCommand (Command.Create row) }
    requires none { deeds.old.items ≡ [] }
    ensures deeds { (a : Handling) → deeds_shown a deeds.new.items ≡ agreed true (creation_of_row row) }
    ensures doable { AreDoable deeds.new.items }
{
    let message = answer(Response::Ok, &ends_of(&row));
    deeds.push(Deed::IsAnswered);
    deeds.push(Deed::Commits(Command::Create(row)));
    deeds.push(Deed::Releases { asker: row.creator });
    deeds.push(Deed::Sends {
        host: row.creator,
        pipe: ADMINISTRATION_PIPE,
        message,
    });
    deeds.push(Deed::SaysOk);
}

// A creation isn't made, and its asker is told so.
fn disagreed(deeds: &mut Deeds, row: &PipeRow)
    requires none { deeds.old.items ≡ [] }
    ensures deeds { (a : Handling) → deeds_shown a deeds.new.items ≡ agreed false (creation_of_row row.now) }
    ensures doable { AreDoable deeds.new.items }
{
    deeds.push(Deed::IsAnswered);
    deeds.push(Deed::Releases { asker: row.creator });
    deeds.push(Deed::Sends {
        host: row.creator,
        pipe: ADMINISTRATION_PIPE,
        message: refused(Response::NotOk),
    });
}
