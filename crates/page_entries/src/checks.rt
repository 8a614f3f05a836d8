//! What is wrong with a cell, whatever entry its row is, and a name under a role that the kind has not.

ghost use Rattle.std.specs.Prelude.{◌==◌, ◌≡◌, not, slice_get};
ghost use Rattle.std.specs.List.{list_all};
ghost use Rattle.page_entries.specs.Checks as checks;

use commands::Field;
use record_fields::EntryKind;
use record_shapes::is_role_of;
use table_pages::{Column, FaultKind};

/// What is looked for.
#[derive(Clone, Copy, Debug, PartialEq, Eq)]
pub(crate) enum Check {
    /// A cell that is no text, or where none may be.
    Texts,
    /// A name under a role that the kind has not.
    Roles(EntryKind),
}

/// The place of the first cell with a fault, and the fault.
pub(crate) fn first_fault(
    check: Check,
    columns: &[Column],
    cells: &[Field],
) -> Option<(usize, FaultKind)>
    ensures { result ≡ checks.first_fault check columns.now 0 cells.now }
{
    let mut at = 0;
    for cell in cells {
        if let Some(kind) = cell_fault(check, column_at(columns, at), cell.as_str()) {
            return Some((at, kind));
        }
        at += 1;
    }
    None
}

/// The column at a place.
pub(crate) fn column_at(columns: &[Column], at: usize) -> Option<Column>
    ensures { result ≡ slice_get columns.now at }
{
    columns.get(at).copied()
}

/// What is wrong with a cell under a column, or after the last column.
fn cell_fault(check: Check, column: Option<Column>, cell: &str) -> Option<FaultKind>
    ensures { result ≡ checks.cell_fault check column cell.now }
{
    match check {
        Check::Texts => text_fault(column, cell),
        Check::Roles(kind) => role_fault(kind, column, cell),
    }
}

/// What is wrong with a cell under a column, or after the last column, whatever the column means.
pub fn text_fault(column: Option<Column>, cell: &str) -> Option<FaultKind>
    ensures { result ≡ checks.text_fault column cell.now }
{
    match column {
        None => unless_empty(FaultKind::BeyondHeader, cell),
        Some(Column::Own) => None,
        Some(Column::Unnamed) => unless_empty(FaultKind::UnnamedColumn, cell),
        Some(_) => shown_fault(cell),
    }
}

/// What is wrong with a name under a role in an entry of a kind.
pub fn role_fault(kind: EntryKind, column: Option<Column>, cell: &str) -> Option<FaultKind>
    ensures { result ≡ checks.role_fault kind column cell.now }
{
    match column {
        Some(Column::Mention(role, _)) if !is_role_of(kind, role) => {
            unless_empty(FaultKind::NotOfKind, cell)
        }
        _ => None,
    }
}

fn unless_empty(kind: FaultKind, cell: &str) -> Option<FaultKind>
    ensures { result ≡ checks.unless_empty kind cell.now }
{
    if cell.is_empty() { None } else { Some(kind) }
}

fn shown_fault(cell: &str) -> Option<FaultKind>
    ensures { result ≡ checks.shown_fault cell.now }
{
    if is_error(cell) || is_narrow(cell.as_bytes()) {
        Some(FaultKind::SheetError)
    } else if is_text(cell.as_bytes()) {
        None
    } else {
        Some(FaultKind::BadText)
    }
}

/// What a spreadsheet writes for an error.
fn is_error(cell: &str) -> bool
    ensures { result ≡ checks.is_error cell.now }
{
    match cell {
        "#REF!" => true,
        "#N/A" => true,
        "#NAME?" => true,
        "#VALUE!" => true,
        "#DIV/0!" => true,
        "#NUM!" => true,
        "#NULL!" => true,
        _ => false,
    }
}

/// What it writes in a column that is too narrow: only `#`, once or more.
fn is_narrow(cell: &[u8]) -> bool
    ensures { result ≡ checks.is_narrow cell.now }
{
    !cell.is_empty() && only_hashes(cell)
}

fn only_hashes(cell: &[u8]) -> bool
    ensures { result ≡ list_all (λ b. b == 35) cell.now }
{
    cell.iter().all(|b| *b == b'#')
}

/// Without U+0000, and of at most 1,048,576 bytes; CR there is none in a sheet.
fn is_text(cell: &[u8]) -> bool
    ensures { result ≡ checks.is_text cell.now }
{
    cell.len() <= 1_048_576 && has_no_nul(cell)
}

fn has_no_nul(cell: &[u8]) -> bool
    ensures { result ≡ list_all (λ b. not (b == 0)) cell.now }
{
    cell.iter().all(|b| *b != 0)
}
