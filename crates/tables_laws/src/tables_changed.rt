//! What commands make of the tables, in the words of their user. Laws; nothing here runs.

ghost use Rattle.std.specs.Prelude.{◌≡◌, ℕ, ◌<◌, Bool, true, false, not, ◌==◌, List, IsTrue, IfSome, Some};
ghost use Rattle.std.specs.List.{list_all, list_any, AllByRecursion};
ghost use Rattle.sorted_rows.specs.Rows.{row_of};
ghost use Rattle.registry.specs.Values.{value_at, default_of, is_kept};
ghost use Rattle.pipe_table.specs.declared.row.PipeRow.{PipeRow};
ghost use Rattle.pipe_table.specs.PipeRows.{pipe_at, joins_host};
ghost use Rattle.hci_tables.specs.declared.command.Command.{Command};
ghost use Rattle.hci_tables.specs.declared.command.Command.TheVariants.{Clear};
ghost use Rattle.hci_tables.specs.Commands.{IsCommand};
ghost use Rattle.hci_tables.specs.Tables.{HciTables, AreTables, no_tables, static_place, apply, after_commands, close, is_opened};
ghost use Rattle.tables_laws.specs.tables.Changes.{JoinTwo, ComesFrom, told_value, opens};

/// Whatever commands come, the pipes are sorted, none stands twice and all are 02 to 6F, and so it is with the other parts.
pub fn tables_stay_sorted()
    ensures commands { (commands : List Command) → AllByRecursion IsCommand commands → AreTables (after_commands no_tables commands) }
    ensures closed { (t : HciTables) → AreTables t → AreTables (close t) }
{}

/// Whatever commands come, each pipe joins two different hosts.
pub fn pipes_join_two_hosts()
    ensures commands { (commands : List Command) → AllByRecursion IsCommand commands → JoinTwo (after_commands no_tables commands).rows }
    ensures closed { (t : HciTables) → JoinTwo t.rows → JoinTwo (close t).rows }
{}

/// A pipe's two ends change by its creation alone: a row behind a command is the created one, or comes from a row with the
/// same ends.
pub fn ends_change_by_creation_alone()
    ensures { (t : HciTables) (command : Command) (pid : ℕ) → AreTables t →
        IfSome (pipe_at (apply t command).rows pid) (ComesFrom t command pid) }
{}

/// Behind the clearing of a host none of its pipes is left, no static pipe of it is opened, and its session identity and
/// whitelist are at their defaults.
pub fn clearing_leaves_nothing_of_the_host()
    ensures pipes { (t : HciTables) (host : ℕ) → IsTrue (list_all (λ row. not (joins_host row host)) (apply t (Clear host)).rows) }
    ensures statics { (t : HciTables) (host : ℕ) → IsTrue (list_all (λ static. not (static.0 == host)) (apply t (Clear host)).statics) }
    ensures values { (t : HciTables) (host param : ℕ) → AreTables t → IsTrue (is_kept host 0 param) →
        value_at (apply t (Clear host)).values host 0 param ≡ default_of param }
{}

/// It leaves the pipes and the static pipes of other hosts, and all identifiers.
pub fn clearing_leaves_the_others()
    ensures pipes { (t : HciTables) (host pid : ℕ) (row : PipeRow) → AreTables t → pipe_at t.rows pid ≡ Some row →
        joins_host row host ≡ false → pipe_at (apply t (Clear host)).rows pid ≡ Some row }
    ensures statics { (t : HciTables) (host : ℕ) (static : ℕ × ℕ) → AreTables t →
        row_of static_place (static_place static) t.statics ≡ Some static → (static.0 == host) ≡ false →
        row_of static_place (static_place static) (apply t (Clear host)).statics ≡ Some static }
    ensures syncs { (t : HciTables) (host : ℕ) → (apply t (Clear host)).syncs ≡ t.syncs }
{}

/// A parameter reads as the last value that was set, since the last clearing of its host, and for a session identity the last
/// other identifier of its host: so it is behind each command.
pub fn values_are_the_last_set()
    ensures { (t : HciTables) (command : Command) (host param : ℕ) → AreTables t → IsCommand command →
        IsTrue (is_kept host 0 param) → value_at (apply t command).values host 0 param ≡ told_value t command host param }
{}

/// Behind a closing of all pipes no pipe is opened that no later command opened.
pub fn closed_pipes_stay_closed()
    ensures { (t : HciTables) (commands : List Command) (host pid : ℕ) → AreTables t → AllByRecursion IsCommand commands →
        is_opened (after_commands (close t) commands) host pid ≡ true → IsTrue (list_any (opens host pid) commands) }
{}
