//! What a row has: its fields, the command of a verb, and a request.

use archive_core::Request;
use commands::{Command, EntryRow, EntryRows, RowCommand};
use csv::ByteRecord;
use devices::Counted;
use gedcom_tree::read_forest;
use receipts::Token;
use record_text::RefusalKind;
use std::alloc::{AllocError, Global};

/// The fields of a row. `None`: one is not UTF-8.
pub fn fields_of<'a>(
    alloc: Global,
    row: &'a ByteRecord,
) -> Result<Option<Vec<&'a str>>, AllocError> {
    let mut fields = Vec::new(alloc);
    for field in row {
        match str::from_utf8(field) {
            Ok(text) => fields.push(text)?,
            Err(_) => return Ok(None),
        }
    }
    Ok(Some(fields))
}

/// The command of a verb with its fields.
pub fn command_of(alloc: Global, fields: &[&str]) -> Result<Command, RefusalKind> {
    match fields {
        [verb, rest @ ..] => command_of_verb(alloc, verb, rest),
        [] => Err(RefusalKind::FieldCount),
    }
}

/// The same. The tests have two verbs of their own beside those of rows.
fn command_of_verb(alloc: Global, verb: &str, fields: &[&str]) -> Result<Command, RefusalKind> {
    match (verb, fields) {
        ("! batch", [source, rows @ ..]) => batch_of(alloc, source, rows),
        ("! import", [text]) => import_of(alloc, text),
        _ => Ok(Command::Row(RowCommand::of_row(alloc, verb, fields)?)),
    }
}

/// A batch of register entries of a source. A row of it is a field with semicolons between its own fields.
fn batch_of(alloc: Global, source: &str, rows: &[&str]) -> Result<Command, RefusalKind> {
    let Ok(source) = source.parse::<u32>() else {
        return Err(RefusalKind::BadRow);
    };
    let rows = EntryRows::new(entries_of(alloc, rows)?);
    Ok(Command::Entries { source, rows })
}

fn entries_of(alloc: Global, rows: &[&str]) -> Result<Vec<EntryRow>, RefusalKind> {
    let mut entries = Vec::new(alloc);
    for row in rows {
        let fields = parted(alloc, row, ';')?;
        let entry = EntryRow::of_row(alloc, fields.as_slice())?;
        push(&mut entries, entry)?;
    }
    Ok(entries)
}

fn push<T: Drop>(items: &mut Vec<T>, item: T) -> Result<(), AllocError> {
    Ok(items.push(item)?)
}

/// The import of a file of this text. A text that is no file is reported as a bad row.
fn import_of(alloc: Global, text: &str) -> Result<Command, RefusalKind> {
    let mut bytes = Counted::new(text.as_bytes());
    match read_forest(alloc, &mut bytes) {
        Ok(forest) => Ok(Command::Import(forest)),
        Err(_) => Err(RefusalKind::BadRow),
    }
}

/// The request of a token, a verb and fields.
pub fn request_of(
    alloc: Global,
    fields: &[&str],
) -> Result<Result<Request, RefusalKind>, AllocError> {
    let [token, rest @ ..] = fields else {
        return Ok(Err(RefusalKind::BadToken));
    };
    match Token::try_new(String::from_str(alloc, token)?) {
        Some(token) => Ok(request_under(alloc, token, rest)),
        None => Ok(Err(RefusalKind::BadToken)),
    }
}

fn request_under(alloc: Global, token: Token, fields: &[&str]) -> Result<Request, RefusalKind> {
    match command_of(alloc, fields) {
        Ok(command) => Ok(Request {
            token,
            command,
            digest: None,
        }),
        Err(kind) => Err(kind),
    }
}

/// The requests of rows, of which each is a field with bars between its own fields.
pub fn requests_of(
    alloc: Global,
    rows: &[&str],
) -> Result<Result<Vec<Request>, RefusalKind>, AllocError> {
    let mut requests = Vec::new(alloc);
    for row in rows {
        match request_of(alloc, parted(alloc, row, '|')?.as_slice())? {
            Ok(request) => requests.push(request)?,
            Err(kind) => return Ok(Err(kind)),
        }
    }
    Ok(Ok(requests))
}

/// The fields of a row that is one field itself, with this character between its own.
pub fn parted<'a>(alloc: Global, row: &'a str, between: char) -> Result<Vec<&'a str>, AllocError> {
    let mut fields = Vec::new(alloc);
    for field in row.split(between) {
        fields.push(field)?;
    }
    Ok(fields)
}
