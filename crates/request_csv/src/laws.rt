//! What holds of rows, over the definitions that the contracts cite.

ghost use Rattle.std.specs.Prelude.{◌≡◌, false, ℕ, List, Option, Result, Some};
ghost use Rattle.record_text.specs.declared.refusal.RefusalKind.{RefusalKind};
ghost use Rattle.commands.specs.declared.entry_row.EntryRow.{EntryRow};
ghost use Rattle.row_references.specs.Entries.{has_place_reference};
ghost use Rattle.request_csv.specs.Batches.{ReadsBatch, ReadsPlaced, ReadsRow};
ghost use Rattle.request_csv.specs.Input.{Row};

/// A row is one register entry, or is refused for one reason.
pub fn a_row_is_one_entry()
    ensures { (row : List (List ℕ)) (first second : Result EntryRow RefusalKind) → ReadsRow row first
        → ReadsRow row second → first ≡ second }
{}

/// The rows of known bytes are one list of register entries, where they are any, with the same numbers in place of
/// their references.
pub fn bytes_are_one_batch()
    ensures { (numbers : List (Option ℕ)) (bytes : List ℕ) (rows others : List Row) (first second : List EntryRow)
        → ReadsBatch numbers (Some bytes) rows first → ReadsBatch numbers (Some bytes) others second
        → first ≡ second }
{}

/// A row without a reference is its own entry, or is refused as it stands, whatever numbers tokens have.
pub fn a_row_without_a_reference_is_its_entry()
    ensures { (number : Option ℕ) (row : Row) (outcome : Result EntryRow RefusalKind)
        → has_place_reference row ≡ false → (ReadsPlaced number row outcome → ReadsRow row outcome)
        × (ReadsRow row outcome → ReadsPlaced number row outcome) }
{}
