//! Laws of what a controller does with a message of a host. Nothing here runs.

ghost use Rattle.std.specs.Prelude.{◌≡◌, ℕ, ◌≤◌, List};
ghost use Rattle.std.specs.List.{AllByRecursion};
ghost use Rattle.link_laws.specs.machine.Machine.{Message};
ghost use Rattle.node_machine.specs.Parts.{Core, Port};
ghost use Rattle.node_machine.specs.Controller.{controller_deeds, view_of};
ghost use Rattle.registry.specs.Values.{value_at};
ghost use Rattle.hci_tables.specs.declared.command.Command.{Command};
ghost use Rattle.hci_tables.specs.Commands.{IsCommand};
ghost use Rattle.hci_tables.specs.Tables.{HciTables, AreTables, apply};
ghost use Rattle.node_laws.specs.steps.Waiting.{MayWait, IsAllowedStill};
ghost use Rattle.node_laws.specs.steps.Creations.{AreAllowedDeeds, DeedLeavesWhitelist, LeavesWhitelist, IsBeingAsked, WaitsForPipes};

/// Whatever message of a host a controller handles: a pipe that it makes at once ends at the controller itself, any other pipe
/// that it makes is that of a creation for which this host was asked and which waits for its answer; and it asks a host for a
/// creation only while that host is connected and its whitelist holds the asker.
pub fn creations_are_made_as_allowed()
    ensures { (core : Core) (ports : List Port) (h : ℕ) (m : Message) →
        AreAllowedDeeds core.tables ports h (controller_deeds (view_of core ports) h m) }
{}

/// While a host has the notice of a creation to answer, no message that a controller handles sets or clears its whitelist: a
/// whitelist is set and cleared by its own host alone, and these commands are refused then. A command that does neither leaves it.
pub fn whitelists_stay_while_hosts_are_asked()
    ensures left { (t : HciTables) (c : Command) (x : ℕ) → AreTables t → IsCommand c → 1 ≤ x → x ≤ 7 → LeavesWhitelist x c
        → value_at (apply t c).values x 0 3 ≡ value_at t.values x 0 3 }
    ensures committed { (core : Core) (ports : List Port) (h : ℕ) (m : Message) (x : ℕ) → IsBeingAsked ports x → WaitsForPipes ports h →
        AllByRecursion (DeedLeavesWhitelist x) (controller_deeds (view_of core ports) h m) }
{}

/// While each creation that waits is of a pipe to the host that is asked, whose whitelist holds the creator, whatever message of a host
/// a controller handles: each pipe between two hosts that it makes is allowed by the tables just before; behind a commit the creations
/// that wait are allowed still; and so is a creation for which it asks a host.
pub fn waiting_creations_stay_allowed()
    ensures { (core : Core) (ports : List Port) (h : ℕ) (m : Message) → AreTables core.tables → MayWait core.tables ports →
        AllByRecursion (IsAllowedStill core.tables ports) (controller_deeds (view_of core ports) h m) }
{}
