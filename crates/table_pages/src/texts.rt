//! The cells of a row as texts.

ghost use Rattle.std.specs.Prelude.{◌≡◌, ◌++◌, ◌∷◌, [], IfOk, MatchOption, None, Some};
ghost use Rattle.table_pages.specs.Texts as texts;

use crate::blanks::trimmed;
use crate::cells::CellBytes;
use commands::{Field, FieldRow};
use std::alloc::{AllocError, Global};

/// The cells of a row without blanks at their ends. `None`: one of them is not UTF-8.
pub(crate) fn row_texts(alloc: Global, cells: &[CellBytes]) -> Result<Option<FieldRow>, AllocError>
    ensures { IfOk result (λ found. found ≡ texts.row_texts cells.now) }
{
    let mut fields = Vec::new(alloc);
    for cell in cells {
        match text(alloc, cell.as_slice())? {
            Some(text) => fields.push(text)?,
            None => return Ok(None),
        }
    }
    Ok(Some(FieldRow::new(fields)))
}

/// A cell without blanks at its ends. `None`: it is not UTF-8.
fn text(alloc: Global, cell: &[u8]) -> Result<Option<Field>, AllocError>
    ensures { IfOk result (λ found. found ≡ texts.text cell.now) }
{
    match str::from_utf8(trimmed(cell)) {
        Ok(text) => {
            let string = String::from_str(alloc, text)?;
            Ok(Some(Field::new(string)))
        }
        Err(_) => Ok(None),
    }
}
