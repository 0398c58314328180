//! Lines of a schedule that power a node up and down, have a write to its memory fail, tell its tables, or reset an end.
ghost use Rattle.std.specs.Prelude.{◌≡◌, ℕ, [], false, Option, option_map, IfOk, OnOk};
ghost use Rattle.swp_base.specs.InMemory.{Memory};
ghost use Rattle.link_laws.specs.messages.Links.{NumberedEnd};
ghost use Rattle.node_sites.specs.Powers.{IsNodePlace};
ghost use Rattle.trace_model.specs.declared.line.Header.{Header};
ghost use Rattle.trace_model.specs.declared.line.Line.TheVariants as line;
ghost use Rattle.gate_admin.specs.View.{has, hosts_where};
ghost use Rattle.node_machine.specs.Parts.{Running};
ghost use Rattle.node_machine.specs.world.World.{NodeWorld, node_at};
ghost use Rattle.node_machine.specs.world.Lines.{line_step};
ghost use Rattle.node_world.specs.Controllers.{WorldIs, MayGoOn};
ghost use Rattle.node_world.specs.HostSteps.{reset_noted};
ghost use Rattle.node_world.specs.Whole.{LinePlayed, MayPlay};

use crate::controller::{boot_controller, lose_controller};
use crate::controller_sites::place_of;
use crate::hosts::boot_host;
use crate::looking::{node_of, runs};
use crate::steps::comes_to;
use arrayvec::ArrayVec;
use hci_tables::Tables;
use link_end::ResetRefused;
use node_sites::incoming::Incoming;
use node_sites::noted::{Noted, note_last, refuse};
use node_sites::places::{HostSite, lose_power};
use node_sites::power::Power;
use std::alloc::Global;
use swp_base::NoMemory;
use trace_model::{End, Entry, NoCause, NodeTables};

/// A line `boot`: the node starts from its memory, the controller with links to the hosts of this mask, or the line is refused where it
/// runs.
///
/// # Errors
///
/// No memory is left; what the world stands for then isn't said.
pub(crate) fn boot_line(
    alloc: Global,
    controller: &mut Power,
    sites: &mut [HostSite],
    node: u8,
    mask: u8,
    noted: &mut Noted,
) -> Result<(), NoMemory>
    requires state { (header : Header) × (w : NodeWorld) × WorldIs controller.old sites.old w × MayPlay header (line.Boot node) w }
    requires nothing { noted.old.entries.items ≡ [] }
    requires memory { noted.old.short ≡ false }
    ensures stands { (header : Header) (w : NodeWorld) → WorldIs controller.old sites.old w → MayPlay header (line.Boot node) w
        → hosts_where (has mask) ≡ header.hosts.items
        → OnOk result (LinePlayed controller.new sites.new noted.new.entries.items (line_step w (line.Boot node))) }
    ensures memory { OnOk result (noted.new.short ≡ false) }
{
    if runs(controller, sites, node) {
        return refuse(noted, NoCause::Running);
    }
    if node == 0 {
        return boot_controller(alloc, controller, sites, mask, noted);
    }
    match place_of(sites, node) {
        Some(place) => boot_host(alloc, &mut sites[place], noted),
        None => Ok(()),
    }
}

/// A line `cut`: the power of the node is cut, or the line is refused where it doesn't run.
///
/// # Errors
///
/// No memory is left; what the world stands for then isn't said.
pub(crate) fn cut_line(
    controller: &mut Power,
    sites: &mut [HostSite],
    node: u8,
    noted: &mut Noted,
) -> Result<(), NoMemory>
    requires nothing { noted.old.entries.items ≡ [] }
    requires memory { noted.old.short ≡ false }
    ensures stands { (header : Header) (w : NodeWorld) → WorldIs controller.old sites.old w → MayPlay header (line.Cut node) w
        → OnOk result (LinePlayed controller.new sites.new noted.new.entries.items (line_step w (line.Cut node))) }
    ensures memory { OnOk result (noted.new.short ≡ false) }
{
    if !runs(controller, sites, node) {
        return refuse(noted, NoCause::Off);
    }
    if node == 0 {
        lose_controller(controller, sites);
        return note_last(noted, Entry::Cut { node });
    }
    match place_of(sites, node) {
        Some(place) => {
            lose_power(&mut sites[place]);
            note_last(noted, Entry::Cut { node })
        }
        None => Ok(()),
    }
}

/// A line `activate`: activation begins on the link of the host, first at the controller's end, with this power mode, and then at the host's,
/// with this sync identifier; or the line is refused where the controller or the host doesn't run.
///
/// # Errors
///
/// No memory is left; what the world stands for then isn't said.
pub(crate) fn activate_line(
    controller: &mut Power,
    sites: &mut [HostSite],
    host: u8,
    sync: u16,
    power: u8,
    noted: &mut Noted,
) -> Result<(), NoMemory>
    requires state { (header : Header) × (w : NodeWorld) × WorldIs controller.old sites.old w × MayPlay header (line.Activate host sync power) w }
    requires nothing { noted.old.entries.items ≡ [] }
    requires memory { noted.old.short ≡ false }
    ensures stands { (header : Header) (w : NodeWorld) → WorldIs controller.old sites.old w → MayPlay header (line.Activate host sync power) w
        → OnOk result (LinePlayed controller.new sites.new noted.new.entries.items (line_step w (line.Activate host sync power))) }
    ensures memory { OnOk result (noted.new.short ≡ false) }
{
    if !runs(controller, sites, 0) {
        return refuse(noted, NoCause::Off);
    }
    if !runs(controller, sites, host) {
        return refuse(noted, NoCause::Off);
    }
    let near = End {
        link: host,
        at_host: false,
    };
    let start = Incoming::Start(power as u16);
    comes_to(controller, sites, near, start, noted)?;
    let far = End {
        link: host,
        at_host: true,
    };
    comes_to(controller, sites, far, Incoming::Start(sync), noted)?;
    Ok(())
}

/// A line `arm`: a write to the memory of the node is to fail.
///
/// # Errors
///
/// No memory is left; what the world stands for then isn't said.
pub(crate) fn arm_line(
    controller: &mut Power,
    sites: &mut [HostSite],
    node: u8,
    nth: u32,
    fill: &ArrayVec<u8, 64>,
    noted: &Noted,
) -> Result<(), NoMemory>
    requires state { (header : Header) × (w : NodeWorld) × WorldIs controller.old sites.old w × MayPlay header (line.Arm node nth fill.now) w }
    requires nothing { noted.now.entries.items ≡ [] }
    ensures stands { (header : Header) (w : NodeWorld) → WorldIs controller.old sites.old w → MayPlay header (line.Arm node nth fill.now) w
        → OnOk result (LinePlayed controller.new sites.new noted.now.entries.items (line_step w (line.Arm node nth fill.now))) }
{
    let fill = fill.clone()?;
    if node == 0 {
        controller.arm(nth, fill);
        return Ok(());
    }
    if let Some(place) = place_of(sites, node) {
        sites[place].power.arm(nth, fill);
    }
    Ok(())
}

// Why a reset is refused, as the line that asks for it tells.
fn reset_cause(why: ResetRefused) -> NoCause
    ensures { result ≡ reset_noted why }
{
    match why {
        ResetRefused::Inactive => NoCause::Inactive,
        ResetRefused::Waiting => NoCause::Waiting,
    }
}

/// A line `reset`: the end is reset, or the line is refused.
///
/// # Errors
///
/// No memory is left; what the world stands for then isn't said.
pub(crate) fn reset_line(
    controller: &mut Power,
    sites: &mut [HostSite],
    at: End,
    window: Option<u8>,
    noted: &mut Noted,
) -> Result<(), NoMemory>
    requires state { (header : Header) × (w : NodeWorld) × WorldIs controller.old sites.old w × MayPlay header (line.Reset at window) w }
    requires nothing { noted.old.entries.items ≡ [] }
    requires memory { noted.old.short ≡ false }
    ensures stands { (header : Header) (w : NodeWorld) → WorldIs controller.old sites.old w → MayPlay header (line.Reset at window) w
        → OnOk result (LinePlayed controller.new sites.new noted.new.entries.items (line_step w (line.Reset at window))) }
    ensures memory { OnOk result (noted.new.short ≡ false) }
{
    if !runs(controller, sites, node_of(at)) {
        return refuse(noted, NoCause::Off);
    }
    match comes_to(controller, sites, at, Incoming::Reset(window), noted)? {
        Some(why) => refuse(noted, reset_cause(why)),
        None => Ok(()),
    }
}

// A copy of the tables of a node that runs. `None` where it doesn't.
fn tables_of(power: &Power) -> Result<Option<Tables>, NoMemory>
    ensures { (m : Memory) (node : Option Running) (near : ℕ → NumberedEnd) → IsNodePlace power.now m node near
        → IfOk result (λ tables. tables ≡ option_map (λ (r : Running). r.core.tables) node) }
{
    match power {
        Power::On(node) => Ok(Some(node.store().tables().clone()?)),
        Power::Off(_) => Ok(None),
    }
}

// A copy of the tables of the node with this number, where that runs. `None` where it doesn't.
fn copied_tables(
    controller: &Power,
    sites: &[HostSite],
    node: u8,
) -> Result<Option<Tables>, NoMemory>
    ensures { (w : NodeWorld) → WorldIs controller.now sites.now w → MayGoOn w
        → IfOk result (λ tables. tables ≡ option_map (λ (r : Running). r.core.tables) (node_at w node)) }
{
    if node == 0 {
        return tables_of(controller);
    }
    let Some(place) = place_of(sites, node) else {
        return Ok(None);
    };
    tables_of(&sites[place].power)
}

/// A line `tables`: the tables of the node are told, or the line is refused where it doesn't run.
///
/// # Errors
///
/// No memory is left; what the world stands for then isn't said.
pub(crate) fn tables_line(
    alloc: Global,
    controller: &Power,
    sites: &[HostSite],
    node: u8,
    noted: &mut Noted,
) -> Result<(), NoMemory>
    requires nothing { noted.old.entries.items ≡ [] }
    requires memory { noted.old.short ≡ false }
    ensures stands { (w : NodeWorld) → WorldIs controller.now sites.now w → MayGoOn w
        → OnOk result (LinePlayed controller.now sites.now noted.new.entries.items (line_step w (line.Tables node))) }
    ensures memory { OnOk result (noted.new.short ≡ false) }
{
    let Some(tables) = copied_tables(controller, sites, node)? else {
        return refuse(noted, NoCause::Off);
    };
    let tables = NodeTables::new(alloc, tables)?;
    note_last(noted, Entry::Tables { node, tables })
}
