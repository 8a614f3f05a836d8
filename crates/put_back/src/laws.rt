//! What holds of the rows that put something back.

ghost use Rattle.std.specs.Prelude.{◌≡◌, ℕ, []};
ghost use Rattle.record_kinds.specs.declared.record.Record.{Record};
ghost use Rattle.put_back.specs.Back as back;

/// A record that is as it was needs no row.
pub fn what_is_as_it_was_needs_no_row()
    ensures { (number : ℕ) (r : Record) → back.rows_back number r r ≡ [] }
{}
