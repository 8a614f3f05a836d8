//! Laws of what is found on a page, over the definitions that the contracts cite.

ghost use Rattle.std.specs.Prelude.{◌≡◌, ℕ, Bool, Option, Some, slice_get};
ghost use Rattle.archive_state.specs.Content.{Content};
ghost use Rattle.table_pages.specs.Sheets.{Sheet};
ghost use Rattle.table_pages.specs.declared.columns.Column.{Column};
ghost use Rattle.table_pages.specs.declared.columns.Column.TheVariants as column;
ghost use Rattle.table_pages.specs.declared.fault.FaultKind.{FaultKind};
ghost use Rattle.table_pages.specs.declared.sheet.SheetRow.{SheetRow};
ghost use Rattle.page_entries.specs.Entries.{cell_under, kind_in};
ghost use Rattle.page_entries.specs.Under.{cell_at};
ghost use Rattle.page_entries.specs.declared.dates.DateOrder.{DateOrder};
ghost use Rattle.page_checks.specs.Laws.{Has, IsRefused};
ghost use Rattle.page_checks.specs.Lines.{line};
ghost use Rattle.page_checks.specs.Page.{found_on};
ghost use Rattle.page_checks.specs.declared.findings.What.TheVariants.{Fault};

/// A cell under a column that entering the page would refuse has its line, with the number of its row, a fault, the
/// name of the column and the cell, whatever else is wrong.
pub fn a_refused_cell_has_its_line()
    ensures { (content : Content) (source : ℕ) (order : Option DateOrder) (makes : Bool) (sheet : Sheet) (i j : ℕ)
        (row : SheetRow) (c : Column) → slice_get sheet.rows i ≡ Some row → slice_get sheet.columns j ≡ Some c
        → IsRefused order (kind_in (cell_under sheet row column.Kind)) c (cell_at row.cells j)
        → (why : FaultKind) × Has (found_on content source order makes sheet).text (line row.number (record {
          what = Fault why;
          column = cell_at sheet.names j;
          cell = cell_at row.cells j;
        })) }
{}
