//! The bytes of commands, of batches of entries and of imports.

use crate::reading::command_of;
use crate::rows::{refused, said};
use commands::{Field, FieldRow, batch_bytes, command_bytes, command_digest, import_bytes};
use record_text::RefusalKind;
use std::alloc::{AllocError, Global};

/// The bytes of a command as a field, and in a second row their digest in hexadecimal.
pub fn bytes_rows(alloc: Global, fields: &[&str]) -> Result<Vec<u8>, AllocError> {
    match command_of(alloc, fields) {
        Ok(command) => {
            let bytes = command_bytes(alloc, &command);
            let digest = command_digest(alloc, &command);
            drop(command);
            bytes_and_digest(alloc, bytes?.as_slice(), digest?.as_slice())
        }
        Err(kind) => refused(alloc, "", kind),
    }
}

fn bytes_and_digest(alloc: Global, bytes: &[u8], digest: &[u8]) -> Result<Vec<u8>, AllocError> {
    let mut rows = said(alloc, "bytes", bytes)?;
    let digest = hex::encode(alloc, digest)?;
    rows.extend_from_slice(said(alloc, "digest", digest.as_bytes())?.as_slice())?;
    Ok(rows)
}

/// The bytes of a batch of entries as a field: of its source, and of its rows, of which each is a field here with a bar
/// between its own fields.
pub fn batch_row(alloc: Global, fields: &[&str]) -> Result<Vec<u8>, AllocError> {
    let [source, rows @ ..] = fields else {
        return refused(alloc, "", RefusalKind::FieldCount);
    };
    let Ok(source) = source.parse::<u32>() else {
        return refused(alloc, "", RefusalKind::BadRow);
    };
    let rows = field_rows(alloc, rows)?;
    let bytes = batch_bytes(alloc, source, rows.as_slice())?;
    said(alloc, "bytes", bytes.as_slice())
}

fn field_rows(alloc: Global, rows: &[&str]) -> Result<Vec<FieldRow>, AllocError> {
    let mut made = Vec::new(alloc);
    for row in rows {
        made.push(field_row(alloc, row)?)?;
    }
    Ok(made)
}

fn field_row(alloc: Global, row: &str) -> Result<FieldRow, AllocError> {
    let mut fields = Vec::new(alloc);
    for word in row.split('|') {
        fields.push(Field::new(String::from_str(alloc, word)?))?;
    }
    Ok(FieldRow::new(fields))
}

/// The bytes of an import of this text as a field.
pub fn import_row(alloc: Global, fields: &[&str]) -> Result<Vec<u8>, AllocError> {
    let [text] = fields else {
        return refused(alloc, "", RefusalKind::FieldCount);
    };
    let bytes = import_bytes(alloc, text.as_bytes())?;
    said(alloc, "bytes", bytes.as_slice())
}
