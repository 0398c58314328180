//! What a host does with a response on pipe 01: what it keeps of its own command, and the next step of its init.
ghost use Rattle.std.specs.Prelude.{◌≡◌, ℕ, ◌+◌, ◌≤◌, ◌<◌, ◌==◌, if◌then◌else◌, [], ◌++◌, List, length, slice_get, Option, Some};
ghost use Rattle.std.specs.List.{list_all};
ghost use Rattle.registry.specs.Values.{is_default};
ghost use Rattle.history.specs.Damage.{same_bytes};
ghost use Rattle.node_machine.specs.Carrying.{own_view};
ghost use Rattle.node_machine.specs.Parts.{Init as InitOf};
ghost use Rattle.node_machine.specs.HostReplies.{is_same, learns, init_deeds, orders_of};
ghost use Rattle.node_deeds.specs.Shown.{Handling, deeds_shown, init_shown};
ghost use Rattle.node_deeds.specs.Cores.{IsReady, AreDoable};
ghost use Rattle.node_deeds.specs.Hosts.{host_core, handled_by, init_running, learned_of, heard_deeds, next_deeds};
ghost use Rattle.journal_laws.specs.declared.state.State.{State};

use crate::deeds::{Deed, Deeds, InitEnd};
use crate::host::Tasks;
use crate::inits::{Init, Ordered, order_at};
use crate::notices::pipe_named_in;
use arrayvec::ArrayVec;
use gate_answers::ADMINISTRATION_GATE;
use hci_store::Store;
use hci_tables::{Command, Tables};
use registry::SESSION_IDENTITY;
use swp_base::Nv;

/// A response with this code and value answers the last command that the host sent on pipe 01.
pub(crate) fn heard<N: Nv + Drop>(
    deeds: &mut Deeds,
    store: &mut Store<N>,
    host: u8,
    tasks: &Tasks,
    code: u8,
    value: &[u8],
)
    requires ready { IsReady store.old }
    requires some { 1 ≤ host }
    requires host { host ≤ 7 }
    requires none { deeds.old.items ≡ [] }
    ensures deeds { (pipe : ℕ) (message : List ℕ) → deeds_shown (handled_by host (init_running tasks.now.init) pipe message) deeds.new.items
        ≡ heard_deeds (host_core host store.old.journal.state store.old.tables (init_running tasks.now.init)) code value.now tasks.now.command }
    ensures doable { AreDoable deeds.new.items }
    ensures unchanged { store.new ≡ store.old }
{
    let Some(order) = tasks.command else {
        return;
    };
    deeds.push(Deed::Hears);
    learn_if_ok(deeds, store, host, code, order, value);
    if let Some(init) = &tasks.init {
        go_on(deeds, store, host, init, code, value);
    }
}

// What a host keeps of its own command, to which this answer came.
fn learn_if_ok<N: Nv + Drop>(
    deeds: &mut Deeds,
    store: &mut Store<N>,
    host: u8,
    code: u8,
    order: Ordered,
    value: &[u8],
)
    requires ready { IsReady store.old }
    requires short { length deeds.old.items ≤ 1 }
    requires doable { AreDoable deeds.old.items }
    ensures deeds { (a : Handling) (init : Option InitOf) → deeds_shown a deeds.new.items ≡ deeds_shown a deeds.old.items
        ++ (if code == 0 then learned_of (host_core host store.old.journal.state store.old.tables init) order value.now else []) }
    ensures short { length deeds.new.items ≤ 2 }
    ensures doable { AreDoable deeds.new.items }
    ensures unchanged { store.new ≡ store.old }
{
    if code == 0 {
        learn(deeds, store, host, order, value);
    }
}

// What a host keeps of its own command, to which ANY_OK came with this value.
fn learn<N: Nv + Drop>(
    deeds: &mut Deeds,
    store: &mut Store<N>,
    host: u8,
    order: Ordered,
    value: &[u8],
)
    requires ready { IsReady store.old }
    requires short { length deeds.old.items ≤ 1 }
    requires doable { AreDoable deeds.old.items }
    ensures deeds { (a : Handling) (init : Option InitOf) → deeds_shown a deeds.new.items ≡ deeds_shown a deeds.old.items
        ++ learned_of (host_core host store.old.journal.state store.old.tables init) order value.now }
    ensures short { length deeds.new.items ≤ 2 }
    ensures doable { AreDoable deeds.new.items }
    ensures unchanged { store.new ≡ store.old }
{
    match order {
        Ordered::Creation => {
            if let Some(row) = pipe_named_in(value) {
                learn_command(deeds, store, Command::Create(row));
            }
        }
        Ordered::Deletion { pid } => learn_command(deeds, store, Command::Delete { pid }),
        Ordered::Clearing => learn_command(deeds, store, Command::Clear { host }),
        Ordered::Other => {}
    }
}

// A command of its own is committed where there is room and it may be recorded.
fn learn_command<N: Nv + Drop>(deeds: &mut Deeds, store: &mut Store<N>, command: Command)
    requires ready { IsReady store.old }
    requires short { length deeds.old.items ≤ 7 }
    requires doable { AreDoable deeds.old.items }
    ensures deeds { (a : Handling) (host : ℕ) (init : Option InitOf) → deeds_shown a deeds.new.items ≡ deeds_shown a deeds.old.items
        ++ learns (own_view (host_core host store.old.journal.state store.old.tables init)) command }
    ensures short { length deeds.new.items ≤ length deeds.old.items + 1 }
    ensures doable { AreDoable deeds.new.items }
    ensures unchanged { store.new ≡ store.old }
{
    if command.is_recordable() && store.room(&command) {
        deeds.push(Deed::Commits(command));
    }
}

// A response with this code and value came to a command of an init.
fn go_on<N: Nv + Drop>(
    deeds: &mut Deeds,
    store: &mut Store<N>,
    host: u8,
    init: &Init,
    code: u8,
    value: &[u8],
)
    requires ready { IsReady store.old }
    requires some { 1 ≤ host }
    requires host { host ≤ 7 }
    requires short { length deeds.old.items ≤ 2 }
    requires doable { AreDoable deeds.old.items }
    ensures deeds { (pipe : ℕ) (message : List ℕ) →
        deeds_shown (handled_by host (Some (init_shown init.now)) pipe message) deeds.new.items
        ≡ deeds_shown (handled_by host (Some (init_shown init.now)) pipe message) deeds.old.items
        ++ init_deeds (own_view (host_core host store.old.journal.state store.old.tables (Some (init_shown init.now)))) code value.now
        (Some (init_shown init.now)) }
    ensures doable { AreDoable deeds.new.items }
    ensures unchanged { store.new ≡ store.old }
{
    if code != 0 {
        deeds.push(Deed::Ends(InitEnd::Failed { code }));
    } else if is_same(store.tables(), host, init, value) {
        deeds.push(Deed::Ends(InitEnd::Same));
    } else {
        send_next(deeds, store, host, init);
    }
}

// The next command of an init goes out, or it has made all and keeps its identity.
fn send_next<N: Nv + Drop>(deeds: &mut Deeds, store: &mut Store<N>, host: u8, init: &Init)
    requires ready { IsReady store.old }
    requires some { 1 ≤ host }
    requires host { host ≤ 7 }
    requires short { length deeds.old.items ≤ 2 }
    requires doable { AreDoable deeds.old.items }
    ensures deeds { (pipe : ℕ) (message : List ℕ) →
        deeds_shown (handled_by host (Some (init_shown init.now)) pipe message) deeds.new.items
        ≡ deeds_shown (handled_by host (Some (init_shown init.now)) pipe message) deeds.old.items
        ++ next_deeds (host_core host store.old.journal.state store.old.tables (Some (init_shown init.now))) (init_shown init.now)
        (slice_get (orders_of (init_shown init.now)) (init.now.answered + 1)) }
    ensures doable { AreDoable deeds.new.items }
    ensures unchanged { store.new ≡ store.old }
{
    let place = usize::from(init.answered) + 1;
    match order_at(init, place) {
        Some(order) => {
            deeds.push(Deed::GoesOn {
                answered: place as u8,
            });
            deeds.push(Deed::Orders(order));
        }
        None => {
            learn_command(deeds, store, setting_of(host, init));
            deeds.push(Deed::Ends(InitEnd::Made {
                pipes: init.pipes.len() as u8,
            }));
        }
    }
}

// The command that keeps the identity of an init.
fn setting_of(host: u8, init: &Init) -> Command
    ensures { result ≡ Command.Set host 0 1 (record { items = init.now.identity }) }
{
    let mut value = ArrayVec::new();
    let _ = value.try_extend_from_slice(&init.identity);
    Command::Set {
        host,
        gate: ADMINISTRATION_GATE,
        param: SESSION_IDENTITY,
        value,
    }
}

// The second command of an init was answered by the identity that the host keeps, and one was ever set.
fn is_same(tables: &Tables, host: u8, init: &Init, value: &[u8]) -> bool
    requires some { 1 ≤ host }
    requires host { host ≤ 7 }
    ensures { (journal : State) (i : Option InitOf) → result ≡ is_same (own_view (host_core host journal tables.now i)) (init_shown init.now) value.now }
{
    let kept = tables
        .registry()
        .get(host, ADMINISTRATION_GATE, SESSION_IDENTITY);
    init.answered == 1 && same_bytes(value, kept.as_slice()) && !is_unset(value)
}

fn same_bytes(one: &[u8], other: &[u8]) -> bool
    ensures { result ≡ same_bytes one.now other.now }
{
    one == other
}

// Whether an identity is the one that stands where none was set.
fn is_unset(identity: &[u8]) -> bool
    ensures { result ≡ is_default 1 identity.now }
{
    identity.len() == 8 && all_ones(identity)
}

fn all_ones(bytes: &[u8]) -> bool
    ensures { result ≡ list_all (λ byte. byte == 255) bytes.now }
{
    bytes.iter().all(|byte| *byte == 0xFF)
}
