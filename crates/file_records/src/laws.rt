//! What holds of the sides, over the definitions of what an import makes.

ghost use Rattle.std.specs.Prelude.{◌≡◌, ◌==◌, ◌++◌, ℕ, List, Some, bytes_eq, codes, true};
ghost use Rattle.std.specs.List.{filter, flat_map, slice_get};
ghost use Rattle.stored_lines.specs.Tree.{children, label, list_of};
ghost use Rattle.import_definitions.specs.Lines.{lined_roots, roots};
ghost use Rattle.import_definitions.specs.Nodes.{FileNode};
ghost use Rattle.import_definitions.specs.Report.{said_of_members};
ghost use Rattle.import_definitions.specs.Sides.{side_of};
ghost use Rattle.file_records.specs.Lookups.{fit_tag, lines_in};
ghost use Rattle.file_records.specs.Members.{doubled_in};
ghost use Rattle.file_records.specs.Taken.{named_in, said_of_sides, sides_by_members};
ghost use Rattle.file_records.specs.declared.sides.Side.{Side};

/// What is reported of families and then of persons is what an import reports of memberships.
pub fn what_is_said_is_what_an_import_reports()
    ensures { (ks : List FileNode) → flat_map (doubled_in ks) ks ++ said_of_sides ks
        ≡ said_of_members (roots ks) (lined_roots ks) }
{}

/// The lines of a person's side in a family are those that an import reads there: below the first line of the person
/// that names the family, by FAMS where the family names the person as a partner, and by FAMC where it does not.
pub fn the_side_of_a_person_is_found()
    ensures { (ks : List FileNode) (n k : ℕ) (t : FileNode) → slice_get ks n ≡ Some t
        → bytes_eq (label t).tag (codes "INDI") ≡ true
        → lines_in ks (list_of (children t)) (filter (λ (s : Side). s.family == k)
        (sides_by_members ks (named_in ks) n t))
        ≡ side_of (roots ks) (fit_tag (named_in ks k n)) k n }
{}
