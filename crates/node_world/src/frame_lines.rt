//! Lines of a schedule that take, lose or damage frames, or let time pass.
ghost use Rattle.std.specs.Prelude.{◌≡◌, [], false, None, IfOk, OnErr, OnOk};
ghost use Rattle.trace_model.specs.declared.line.Header.{Header};
ghost use Rattle.trace_model.specs.declared.line.Line.TheVariants as line;
ghost use Rattle.history.specs.Steps.{lost_as};
ghost use Rattle.link_laws.specs.messages.Links.{Loss};
ghost use Rattle.node_machine.specs.world.World.{NodeWorld, world_step};
ghost use Rattle.node_machine.specs.world.World.Happening.{Loses};
ghost use Rattle.node_machine.specs.world.Lines.{line_step, misread_in};
ghost use Rattle.node_world.specs.Controllers.{WorldIs, WorldBecomes, MayGoOn, IsThere};
ghost use Rattle.node_world.specs.Whole.{IsMisreadIn, IsWithinBounds, LinePlayed, MayPlay};

use crate::controller_sites::place_of;
use crate::looking::{damaged_at, node_of, on_the_way, runs};
use crate::steps::{comes_to, tick_world};
use arrayvec::ArrayVec;
use link_wires::{Damaged, Misread, taken};
use node_sites::incoming::Incoming;
use node_sites::noted::{Noted, refuse};
use node_sites::places::HostSite;
use node_sites::power::Power;
use swp_base::NoMemory;
use trace_model::{End, LostCause, NoCause};

/// A line `deliver`: the end takes so many of the frames that stand on the wire to it, or all of them, until its node loses its power; or
/// the line is refused.
///
/// # Errors
///
/// No memory is left; what the world stands for then isn't said.
pub(crate) fn deliver_line(
    controller: &mut Power,
    sites: &mut [HostSite],
    at: End,
    count: Option<u8>,
    noted: &mut Noted,
) -> Result<(), NoMemory>
    requires state { (header : Header) × (w : NodeWorld) × WorldIs controller.old sites.old w × MayPlay header (line.Deliver at count) w }
    requires nothing { noted.old.entries.items ≡ [] }
    requires memory { noted.old.short ≡ false }
    ensures stands { (header : Header) (w : NodeWorld) → WorldIs controller.old sites.old w → MayPlay header (line.Deliver at count) w
        → OnOk result (LinePlayed controller.new sites.new noted.new.entries.items (line_step w (line.Deliver at count))) }
    ensures memory { OnOk result (noted.new.short ≡ false) }
{
    let node = node_of(at);
    if !runs(controller, sites, node) {
        return refuse(noted, NoCause::Off);
    }
    let standing = on_the_way(sites, at);
    if standing == 0 {
        return refuse(noted, NoCause::Empty);
    }
    for _ in 0..taken(count, standing) {
        if !runs(controller, sites, node) {
            return Ok(());
        }
        comes_to(controller, sites, at, Incoming::NextFrame, noted)?;
    }
    Ok(())
}

// The first frame on the way to an end is lost for this cause. A frame that was refused on its way counts for REC_ERROR of that end, while
// its node runs.
fn lose_frame(
    controller: &mut Power,
    sites: &mut [HostSite],
    at: End,
    cause: LostCause,
    noted: &mut Noted,
) -> Result<(), NoMemory>
    requires state { (w : NodeWorld) × WorldIs controller.old sites.old w × IsWithinBounds w × IsThere at.link w }
    ensures stands { (w : NodeWorld) (why : Loss) → WorldIs controller.old sites.old w → IsWithinBounds w → IsThere at.link w → cause ≡ lost_as why
        → OnOk result (WorldBecomes controller.new sites.new noted.old.entries.items noted.new.entries.items (world_step w (Loses at why))) }
    ensures short { noted.new.short ≡ noted.old.short }
{
    let Some(place) = place_of(sites, at.link) else {
        return Ok(());
    };
    let site = &mut sites[place];
    site.wires.lose(at, cause, &mut noted.entries)?;
    if at.at_host {
        site.power.loses_frame(at.link, cause);
    } else {
        controller.loses_frame(at.link, cause);
    }
    Ok(())
}

/// A line `lose`: the first frame on the way to the end is lost, or the line is refused.
///
/// # Errors
///
/// No memory is left; what the world stands for then isn't said.
pub(crate) fn lose_line(
    controller: &mut Power,
    sites: &mut [HostSite],
    at: End,
    noted: &mut Noted,
) -> Result<(), NoMemory>
    requires state { (header : Header) × (w : NodeWorld) × WorldIs controller.old sites.old w × MayPlay header (line.Lose at) w }
    requires nothing { noted.old.entries.items ≡ [] }
    requires memory { noted.old.short ≡ false }
    ensures stands { (header : Header) (w : NodeWorld) → WorldIs controller.old sites.old w → MayPlay header (line.Lose at) w
        → OnOk result (LinePlayed controller.new sites.new noted.new.entries.items (line_step w (line.Lose at))) }
    ensures memory { OnOk result (noted.new.short ≡ false) }
{
    if !runs(controller, sites, node_of(at)) {
        return refuse(noted, NoCause::Off);
    }
    if on_the_way(sites, at) == 0 {
        return refuse(noted, NoCause::Empty);
    }
    lose_frame(controller, sites, at, LostCause::Asked, noted)
}

/// A line `damage`: the first frame on the way to the end is taken as it was, or lost, or the line is refused. Where another frame is read
/// in its place, that is answered, and nothing happens.
///
/// # Errors
///
/// No memory is left; what the world stands for then isn't said.
pub(crate) fn damage_line(
    controller: &mut Power,
    sites: &mut [HostSite],
    at: End,
    places: &ArrayVec<u16, 16>,
    noted: &mut Noted,
) -> Result<Option<Misread>, NoMemory>
    requires state { (header : Header) × (w : NodeWorld) × WorldIs controller.old sites.old w × MayPlay header (line.Damage at places.now) w }
    requires nothing { noted.old.entries.items ≡ [] }
    requires memory { noted.old.short ≡ false }
    ensures stands { (header : Header) (w : NodeWorld) → WorldIs controller.old sites.old w → MayPlay header (line.Damage at places.now) w
        → IfOk result (λ other. other ≡ None → LinePlayed controller.new sites.new noted.new.entries.items (line_step w (line.Damage at places.now))) }
    ensures misread { (w : NodeWorld) → WorldIs controller.old sites.old w → MayGoOn w → IfOk result (IsMisreadIn w (line.Damage at places.now)) }
    ensures told { (w : NodeWorld) → WorldIs controller.old sites.old w → MayGoOn w → OnErr result (misread_in w (line.Damage at places.now) ≡ None) }
    ensures memory { OnOk result (noted.new.short ≡ false) }
{
    if !runs(controller, sites, node_of(at)) {
        refuse(noted, NoCause::Off)?;
        return Ok(None);
    }
    match damaged_at(sites, at, places.as_slice()) {
        Damaged::Refused(cause) => {
            refuse(noted, cause)?;
            Ok(None)
        }
        Damaged::Same => {
            comes_to(controller, sites, at, Incoming::NextFrame, noted)?;
            Ok(None)
        }
        Damaged::Lost(cause) => {
            lose_frame(controller, sites, at, cause, noted)?;
            Ok(None)
        }
        Damaged::Undetected(misread) => Ok(Some(misread)),
    }
}

/// A line `tick`: time passes, one tick or as many as the line says.
///
/// # Errors
///
/// No memory is left; what the world stands for then isn't said.
pub(crate) fn tick_line(
    controller: &mut Power,
    sites: &mut [HostSite],
    times: Option<u8>,
    noted: &mut Noted,
) -> Result<(), NoMemory>
    requires state { (header : Header) × (w : NodeWorld) × WorldIs controller.old sites.old w × MayPlay header (line.Tick times) w }
    requires nothing { noted.old.entries.items ≡ [] }
    requires memory { noted.old.short ≡ false }
    ensures stands { (header : Header) (w : NodeWorld) → WorldIs controller.old sites.old w → MayPlay header (line.Tick times) w
        → OnOk result (LinePlayed controller.new sites.new noted.new.entries.items (line_step w (line.Tick times))) }
    ensures memory { OnOk result (noted.new.short ≡ false) }
{
    for _ in 0..times.unwrap_or(1) {
        tick_world(controller, sites, noted)?;
    }
    Ok(())
}
