//! The unanswered notices of a controller are those that are read off the entries of its world, and nothing is read of a creation
//! that waits while it doesn't run. Nothing here runs.

ghost use Rattle.trace_model.specs.declared.line.Header.{Header};
ghost use Rattle.trace_model.specs.declared.line.Line.{Line};
ghost use Rattle.std.specs.Prelude.{◌≡◌, ◌++◌, ℕ, List, [], Option, None, is_some};
ghost use Rattle.trace_model.specs.declared.entry.Entry.{Entry};
ghost use Rattle.std.specs.List.{AllByRecursion};
ghost use Rattle.link_laws.specs.machine.Machine.{Message, spare};
ghost use Rattle.node_machine.specs.Parts.{Core, Port};
ghost use Rattle.node_machine.specs.Controller.{controller_deeds, is_asked_at, view_of};
ghost use Rattle.node_machine.specs.world.World.{NodeWorld, Happening, new_world, world_step};
ghost use Rattle.node_machine.specs.world.NodeFilters.{asking_in, spare_at};
ghost use Rattle.trace_model.specs.declared.line.End.{End};
ghost use Rattle.link_laws.specs.messages.Links.{NumberedEnd};
ghost use Rattle.node_laws.specs.notices.Spares.{IsEndRead};
ghost use Rattle.node_machine.specs.world.NodeHistories.{NodeHistory, FollowsNodes, node_entries, world_after};
ghost use Rattle.node_laws.specs.kept.Hosts.{AreHosts};
ghost use Rattle.node_laws.specs.notices.Notices.{GoesToFree, IsKeptNotice, NoticesAreRead, is_of_creation};
ghost use Rattle.node_laws.specs.telling.Telling.{MayBoot};
ghost use Rattle.node_laws.specs.notices.Worlds.{KeepsNotices};

/// Whatever message of a host a controller handles, it asks and tells by a notice only hosts that have no notice to answer: so no
/// notice takes the place of another one.
pub fn no_notice_takes_the_place_of_another()
    ensures { (core : Core) (ports : List Port) (h : ℕ) (m : Message) → AllByRecursion (GoesToFree ports) (controller_deeds (view_of core ports) h m) }
{}

/// In a world that begins no notice is read. Whatever happens then, the unanswered notice of the controller to each host is the one that
/// is read off the entries, and none is read of a controller that doesn't run: so it is at each moment between events. It asks for hosts
/// from 01 to 07 that are all different, and a node that boots doesn't run.
pub fn the_controller_keeps_the_notices_that_are_read()
    ensures begin { (hosts : List ℕ) → AreHosts hosts → KeepsNotices [] (new_world hosts) }
    ensures event { (t : List Entry) (w : NodeWorld) (c : Happening) → KeepsNotices t w → MayBoot w c →
        KeepsNotices (t ++ (world_step w c).1) (world_step w c).0 }
    ensures read { (t : List Entry) (w : NodeWorld) → KeepsNotices t w → NoticesAreRead t w }
{}

/// So what a controller knows of the host of an end is what is read, where the notice that it keeps is: that it has a notice to answer,
/// and that it has that of a creation, also of one that was forgotten.
pub fn noticed_and_asked_hosts_are_read()
    ensures noticed { (message : Option (List ℕ)) (p : Port) → IsKeptNotice message p.desk.notice → is_some p.desk.notice ≡ is_some message }
    ensures asked { (message : Option (List ℕ)) (p : Port) → IsKeptNotice message p.desk.notice → is_asked_at p ≡ is_of_creation message }
{}

/// Behind any lines of a schedule the unanswered notice of the controller to each host is the one that is read off the entries, and it
/// is about what that message says: that of a creation while it waits, with the two ends and the number of its pipe, or one that was
/// forgotten, or that of a pipe that was deleted or of all pipes of a host. None is read of a controller that doesn't run. It asks for
/// hosts from 01 to 07 that are all different.
pub fn unanswered_notices_are_read_off_histories()
    ensures { (header : Header) (lines : List Line) (t : NodeHistory) → FollowsNodes header lines t → AreHosts header.hosts.items →
        NoticesAreRead (node_entries t) (world_after (new_world header.hosts.items) lines) }
{}

/// Nothing is read of a creation that waits while the controller doesn't run: at each moment, and behind any lines of a schedule with
/// hosts from 01 to 07 that are all different.
pub fn no_creation_is_read_while_the_controller_is_off()
    ensures moment { (t : List Entry) (w : NodeWorld) → KeepsNotices t w → w.controller ≡ None → (h : ℕ) → asking_in t h ≡ None }
    ensures histories { (header : Header) (lines : List Line) (t : NodeHistory) → FollowsNodes header lines t → AreHosts header.hosts.items →
        (world_after (new_world header.hosts.items) lines).controller ≡ None → (h : ℕ) → asking_in (node_entries t) h ≡ None }
{}

/// Where the session of an end, its messages and the block that is set aside are what is read off the entries, the blocks that it has
/// to spare are those that are read.
pub fn blocks_to_spare_are_read_where_the_end_is()
    ensures { (t : List Entry) (e : End) (near_end : NumberedEnd) → IsEndRead t e near_end → spare_at t e ≡ spare near_end.side }
{}
