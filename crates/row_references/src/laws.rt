//! What holds of rows and their references.

ghost use Rattle.std.specs.Prelude.{◌≡◌, ℕ, List, Option, None, Some, false, true};
ghost use Rattle.row_references.specs.References.{IsNumbered, has_references, numbered};

/// A row without references stays as it is, whatever the tokens mean.
pub fn a_row_without_references_stays()
    ensures { (known : List ℕ → Option ℕ) (row : List (List ℕ)) → has_references row ≡ false
        → numbered known row ≡ Some row }
{}

/// With some numbers in place of its references it is still the row.
pub fn a_row_without_references_has_no_numbers()
    ensures { (row : List (List ℕ)) (own : Option (List (List ℕ))) → has_references row ≡ false → IsNumbered row own
        → own ≡ Some row }
{}

/// A row with references has no numbers to put in their places where no token has one.
pub fn a_row_with_references_wants_numbers()
    ensures { (row : List (List ℕ)) → has_references row ≡ true → numbered (λ token. None) row ≡ None }
{}
