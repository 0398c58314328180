//! Laws of the tables that a store keeps. No code.
ghost use Rattle.std.specs.Prelude.{◌≡◌};
ghost use Rattle.hci_tables.specs.declared.command.Command.{Command};
ghost use Rattle.hci_tables.specs.Tables.{HciTables, AreTables, no_tables, apply, after_commands, close};
ghost use Rattle.hci_store.specs.Snapshots.{snapshot_of};

/// Where all pipes are closed at the end, it doesn't matter whether they were closed before.
pub fn closing_first_changes_nothing()
    ensures twice { (t : HciTables) → close (close t) ≡ close t }
    ensures before { (t : HciTables) (c : Command) → close (apply (close t) c) ≡ close (apply t c) }
{}

/// The commands of a snapshot make the same tables again, all pipes closed.
pub fn a_snapshot_makes_the_tables_again()
    ensures { (t : HciTables) → AreTables t → close (after_commands no_tables (snapshot_of t)) ≡ close t }
{}
