//! The bytes of what has more than one row: a batch of entries, and an import.

ghost use Rattle.std.specs.Prelude.{◌≡◌, IfOk, map};
ghost use Rattle.csv.specs.Writing.{default_writer, row_text};
ghost use Rattle.commands.specs.Bytes.{Batch, Import, written};

use crate::field::{Field, FieldRow};
use crate::rows::row_bytes;
use std::alloc::{AllocError, Global};

/// The bytes of a batch of entries: `entries,`, the number of the source, LF, and then each row as a row of CSV.
/// Refused only if out of memory.
pub fn batch_bytes(alloc: Global, source: u32, rows: &[FieldRow]) -> Result<Vec<u8>, AllocError>
    ensures { IfOk result (λ bytes. bytes.items ≡ written (Batch source rows.now)) }
{
    let mut bytes = Vec::new(alloc);
    bytes.extend_from_slice(b"entries,")?;
    bytes.extend_from_slice(source.to_string(alloc)?.as_bytes())?;
    bytes.push(b'\n')?;
    for row in rows {
        bytes.extend_from_slice(field_row_bytes(alloc, row.fields())?.as_slice())?;
    }
    Ok(bytes)
}

/// The bytes of an import: `import`, LF, and then the canonical text of its forest. Refused only if out of memory.
pub fn import_bytes(alloc: Global, text: &[u8]) -> Result<Vec<u8>, AllocError>
    ensures { IfOk result (λ bytes. bytes.items ≡ written (Import text.now)) }
{
    let mut bytes = Vec::new(alloc);
    bytes.extend_from_slice(b"import\n")?;
    bytes.extend_from_slice(text)?;
    Ok(bytes)
}

/// The bytes of a row of these fields.
fn field_row_bytes(alloc: Global, fields: &[Field]) -> Result<Vec<u8>, AllocError>
    ensures { IfOk result (λ bytes. bytes.items ≡ row_text default_writer fields.now) }
{
    let mut words: Vec<&[u8]> = Vec::new(alloc);
    for field in fields {
        words.push(field.as_str().as_bytes())?;
    }
    row_bytes(alloc, words.as_slice())
}
