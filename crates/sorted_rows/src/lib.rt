//! Lists of rows with a key each, sorted by it, no key twice: what it means to put a row and to take one out. Laws; nothing
//! here runs.
#![tactic(auto)]

ghost use Rattle.std.specs.Prelude.{◌≡◌, ℕ, ◌-◌, ◌<◌, ◌≤◌, ◌==◌, if◌then◌else◌, Bool, List, length, None, Some};
ghost use Rattle.std.specs.List.{filter};
ghost use Rattle.sorted_rows.specs.Rows.{AreRows, row_of, with_row, without_row};

/// Rows whose keys lie from `low` up to `high` are at most as many as there are numbers.
pub fn rows_are_few<X>()
    ensures { (key : X → ℕ) (low high : ℕ) (rows : List X) → AreRows key low high rows → length rows ≤ high - low }
{}

/// Rows stay sorted where one is put, and where some are taken out.
pub fn rows_stay_sorted<X>()
    ensures put { (key : X → ℕ) (low high : ℕ) (row : X) (rows : List X) → AreRows key low high rows
        → low ≤ key row → key row < high → AreRows key low high (with_row key row rows) }
    ensures filtered { (key : X → ℕ) (low high : ℕ) (kept : X → Bool) (rows : List X) → AreRows key low high rows
        → AreRows key low high (filter kept rows) }
{}

/// A row that was put is found, a row that was taken out isn't, and all others are found as before.
pub fn rows_are_found<X>()
    ensures put { (key : X → ℕ) (row : X) (rows : List X) (k : ℕ) →
        row_of key k (with_row key row rows) ≡ (if key row == k then Some row else row_of key k rows) }
    ensures taken_out { (key : X → ℕ) (gone : ℕ) (rows : List X) (k : ℕ) →
        row_of key k (without_row key gone rows) ≡ (if gone == k then None else row_of key k rows) }
{}
