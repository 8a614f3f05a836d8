//! The rows that a row is answered with: a request, or what the tests ask beside it.

use crate::archives::Archives;
use crate::files::ArchiveFiles;
use crate::storing::answer_stored;
use archive_core::Request;
use commands::Command;
use csv::ByteRecord;
use receipts::Token;
use record_text::RefusalKind;
use request_words::{batch_row, bytes_rows, command_of, fields_of, import_row, refused};
use std::alloc::{AllocError, Global};

/// The answer of a row. One that is not UTF-8 has no token.
pub fn answer<F: ArchiveFiles>(
    alloc: Global,
    archives: &mut Archives<F>,
    row: &ByteRecord,
) -> Result<Vec<u8>, AllocError> {
    match fields_of(alloc, row)? {
        Some(fields) => answer_fields(alloc, archives, fields.as_slice()),
        None => refused(alloc, "", RefusalKind::BadRow),
    }
}

fn answer_fields<F: ArchiveFiles>(
    alloc: Global,
    archives: &mut Archives<F>,
    fields: &[&str],
) -> Result<Vec<u8>, AllocError> {
    let [first, rest @ ..] = fields else {
        return refused(alloc, "", RefusalKind::BadToken);
    };
    match Token::try_new(String::from_str(alloc, first)?) {
        Some(token) => answer_request(alloc, archives, token, rest),
        None => answer_question(alloc, archives, first, rest),
    }
}

/// The answer of what stands after a token.
fn answer_request<F: ArchiveFiles>(
    alloc: Global,
    archives: &mut Archives<F>,
    token: Token,
    fields: &[&str],
) -> Result<Vec<u8>, AllocError> {
    match command_of(alloc, fields) {
        Ok(command) => answer_command(alloc, archives, token, command),
        Err(kind) => refused(alloc, token.as_str(), kind),
    }
}

fn answer_command<F: ArchiveFiles>(
    alloc: Global,
    archives: &mut Archives<F>,
    token: Token,
    command: Command,
) -> Result<Vec<u8>, AllocError> {
    let request = Request {
        token,
        command,
        digest: None,
    };
    let answer = archives.ask(alloc, &request);
    drop(request);
    answer
}

/// The answer of a row of the tests' own. Their first fields have a space, which no token has.
fn answer_question<F: ArchiveFiles>(
    alloc: Global,
    archives: &mut Archives<F>,
    asked: &str,
    fields: &[&str],
) -> Result<Vec<u8>, AllocError> {
    match asked {
        "! set next" => set_next(alloc, archives, fields),
        "! place" => put_place(alloc, archives, fields),
        "! places" => put_places(alloc, archives, fields),
        "! bytes" => bytes_rows(alloc, fields),
        "! batch" => batch_row(alloc, fields),
        "! import" => import_row(alloc, fields),
        _ => answer_stored(alloc, archives, asked, fields),
    }
}

/// Sets the next number, and shows it.
fn set_next<F: ArchiveFiles>(
    alloc: Global,
    archives: &mut Archives<F>,
    fields: &[&str],
) -> Result<Vec<u8>, AllocError> {
    let [number] = fields else {
        return refused(alloc, "", RefusalKind::FieldCount);
    };
    let Ok(number) = number.parse::<u64>() else {
        return refused(alloc, "", RefusalKind::BadRow);
    };
    archives.set_next(number);
    archives.see(alloc, "! next", &[])
}

/// Puts a place with a name and a parent at a number, and shows it.
fn put_place<F: ArchiveFiles>(
    alloc: Global,
    archives: &mut Archives<F>,
    fields: &[&str],
) -> Result<Vec<u8>, AllocError> {
    let [number, name, parent] = fields else {
        return refused(alloc, "", RefusalKind::FieldCount);
    };
    let Ok(at) = number.parse::<u32>() else {
        return refused(alloc, "", RefusalKind::BadRow);
    };
    archives.put_place(alloc, at, name, parent.parse::<u32>().ok())?;
    archives.see(alloc, "! show", &[number])
}

/// Puts so many places of one name by one change, and shows the last.
fn put_places<F: ArchiveFiles>(
    alloc: Global,
    archives: &mut Archives<F>,
    fields: &[&str],
) -> Result<Vec<u8>, AllocError> {
    let [count, name] = fields else {
        return refused(alloc, "", RefusalKind::FieldCount);
    };
    let Ok(number) = count.parse::<u32>() else {
        return refused(alloc, "", RefusalKind::BadRow);
    };
    archives.put_places(alloc, number, name)?;
    archives.see(alloc, "! show", &[count])
}
