//! Laws of lists of faults, over the definitions that the contracts cite.

ghost use Rattle.std.specs.Prelude.{◌≡◌, ◌≤◌, List, ℕ, [], Some, length, true};
ghost use Rattle.std.specs.List.{list_any};
ghost use Rattle.gedcom_line.specs.Reading.{Parts};
ghost use Rattle.gedcom_rules.specs.Faults.{Clean, Fault, FaultOf, max_file};
ghost use Rattle.gedcom_rules.specs.Pieces.{all_pieces};
ghost use Rattle.gedcom_rules.specs.Rules.{is_trailer};
ghost use Rattle.file_faults.specs.Faults.{faults, first_of};

/// What is listed first is the one fault of the file; and nothing is listed of a file that has none: its pieces are
/// blank or lines that break no rule, among them the trailer.
pub fn the_first_is_the_fault_of_the_file()
    ensures first { (b : List ℕ) (f : Fault) → FaultOf b f → first_of (faults b) ≡ Some f }
    ensures none { (b : List ℕ) (lines : List Parts) → length b ≤ max_file → Clean [] (all_pieces b) lines
        → list_any is_trailer lines ≡ true → faults b ≡ [] }
{}
