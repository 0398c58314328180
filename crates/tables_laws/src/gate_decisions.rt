//! What the administration gate decides, in the words of its users. Laws; nothing here runs.

ghost use Rattle.std.specs.Prelude.{◌≡◌, ℕ, not, ◌==◌, ◌<◌, Bool, false, List, IsTrue, IfSome, None};
ghost use Rattle.std.specs.List.{list_all};
ghost use Rattle.pipe_table.specs.declared.row.PipeRow.{PipeRow};
ghost use Rattle.pipe_table.specs.PipeRows.{IsDynamic, is_free, lowest_free};
ghost use Rattle.hci_tables.specs.Tables.{HciTables};
ghost use Rattle.gate_admin.specs.declared.view.LinkView.{LinkView};
ghost use Rattle.gate_admin.specs.Decide.{decided};
ghost use Rattle.tables_laws.specs.gate.Rules.{AsksAsAllowed, TellsOthers, IsLeastFree};

/// A pipe between two hosts is asked for only where the whitelist of the host that is asked holds the creator at that moment, and
/// that host is connected; its number is in no row and kept for no other creation. A pipe that is made at once ends at the
/// controller.
pub fn creations_are_asked_as_allowed()
    ensures { (t : HciTables) (v : LinkView) (host pipe instruction : ℕ) (body : List ℕ) →
        AsksAsAllowed t v host (decided t v host pipe instruction body) }
{}

/// Where all pipes join two different hosts, those that are told of a change are connected hosts other than its sender.
pub fn connected_others_are_told()
    ensures { (t : HciTables) (v : LinkView) (host pipe instruction : ℕ) (body : List ℕ) →
        IsTrue (list_all (λ row. not (row.creator == row.dest)) t.rows) → TellsOthers v host (decided t v host pipe instruction body) }
{}

/// The pipe that is given is the least dynamic one that is free.
pub fn least_free_pipe_is_given()
    ensures given { (rows : List PipeRow) (kept : List ℕ) → IfSome (lowest_free rows kept) (IsLeastFree rows kept) }
    ensures none { (rows : List PipeRow) (kept : List ℕ) → lowest_free rows kept ≡ None →
        (pid : ℕ) → IsDynamic pid → is_free rows kept pid ≡ false }
{}
