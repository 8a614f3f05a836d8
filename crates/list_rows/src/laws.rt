//! What holds of rows.

ghost use Rattle.std.specs.Prelude.{◌≡◌, ℕ, List, false, length, map};
ghost use Rattle.csv.specs.Reading.{default_config, records_from};
ghost use Rattle.csv.specs.Writing.{read_back};
ghost use Rattle.csv.specs.declared.parser.State.TheVariants as st;
ghost use Rattle.list_rows.specs.Cells.{begins_formula, cell, rows};

/// A reader of CSV gets the cells of all rows back. (`read_back`: a row without cells has one that is empty.)
pub fn rows_read_as_their_cells()
    ensures { (found : List (List (List ℕ))) → records_from default_config (length found) st.StartRecord (rows found)
        ≡ map (λ texts. read_back (map cell texts)) found }
{}

/// No cell begins a formula.
pub fn no_cell_begins_a_formula()
    ensures { (text : List ℕ) → begins_formula (cell text) ≡ false }
{}
