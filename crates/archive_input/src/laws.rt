//! What holds of rows, over the definitions that the contracts cite.
//!
//! What holds of the faults of files.

ghost use Rattle.std.specs.Prelude.{◌≡◌, false, ℕ, List};
ghost use Rattle.row_references.specs.References.{has_references};
ghost use Rattle.archive_input.specs.Answers.{Served};
ghost use Rattle.archive_input.specs.Applying.{IsServed, IsServedAsItIs};
ghost use Rattle.archive_input.specs.Requests.{Asked, Asks};
ghost use Rattle.gedcom_rules.specs.declared.fault.TreeKind.{TreeKind};
ghost use Rattle.gedcom_rules.specs.Refusals as tree;
ghost use Rattle.record_text.specs.Refusals as refusals;
ghost use Rattle.archive_input.specs.Faults.{kind_of};

/// A row asks for one request, or is refused for one reason.
pub fn a_row_asks_for_one_thing()
    ensures { (row : List (List ℕ)) (first second : Asked) → Asks row first → Asks row second → first ≡ second }
{}

/// A row without references is served as it asks.
pub fn a_row_without_references_is_served_as_it_is()
    ensures { (row : List (List ℕ)) (s : Served) → has_references row ≡ false → IsServed row s → IsServedAsItIs row s }
{}

/// A fault of a file is refused with its number and its name.
pub fn a_fault_is_refused_as_itself()
    ensures number { (kind : TreeKind) → refusals.number_of (kind_of kind) ≡ tree.number_of kind }
    ensures name { (kind : TreeKind) → refusals.name_of (kind_of kind) ≡ tree.name_of kind }
{}
