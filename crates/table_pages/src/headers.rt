//! The header of a page: which column each of its cells names.

ghost use Rattle.std.specs.Prelude.{
  ◌≡◌,
  ◌≤◌,
  [],
  IfOk,
  MatchOption,
  MatchResult,
  None,
  Ok,
  Err,
  Some,
  false,
  length,
  string_bytes,
};
ghost use Rattle.table_pages.specs.Headers as headers;

use crate::columns::{Column, stands_in};
use crate::fault::{FaultKind, PageFault};
use commands::Field;
use record_fields::Role;
use std::alloc::{AllocError, Global};

/// A fault of the header.
pub(crate) fn header_fault(
    alloc: Global,
    kind: FaultKind,
    name: &str,
) -> Result<PageFault, AllocError>
    ensures { IfOk result (λ f. f ≡ headers.header_fault kind name.now) }
{
    let name = String::from_str(alloc, name)?;
    Ok(PageFault {
        row: 1,
        kind,
        column: Field::new(name),
        cell: Field::new(String::new(alloc)),
    })
}

/// The columns of these names, or the fault of the first that is not known or stands twice.
pub(crate) fn columns_of(
    alloc: Global,
    names: &[Field],
) -> Result<Result<Vec<Column>, PageFault>, AllocError>
    ensures { IfOk result (λ r. MatchResult r (λ columns. headers.columns_from [] names.now ≡ Ok columns.items)
        (λ fault. headers.columns_from [] names.now ≡ Err fault)) }
{
    let mut columns = Vec::new(alloc);
    for name in names {
        match next_column(alloc, &columns, name.as_str())? {
            Ok(column) => columns.push(column)?,
            Err(fault) => return Ok(Err(fault)),
        }
    }
    Ok(Ok(columns))
}

/// The column of a name after these, or why it is none.
fn next_column(
    alloc: Global,
    columns: &[Column],
    name: &str,
) -> Result<Result<Column, PageFault>, AllocError>
    ensures { IfOk result (λ r. r ≡ headers.next_column columns.now name.now) }
{
    match column_of(alloc, name)? {
        Some(column) if stands_in(columns, column) => Ok(Err(header_fault(
            alloc,
            FaultKind::RepeatedColumn,
            name,
        )?)),
        Some(column) => Ok(Ok(column)),
        None => Ok(Err(header_fault(alloc, FaultKind::UnknownColumn, name)?)),
    }
}

/// The column of a name. `None`: no field and no role has it.
fn column_of(alloc: Global, name: &str) -> Result<Option<Column>, AllocError>
    ensures { IfOk result (λ found. found ≡ headers.column_of name.now) }
{
    match name.as_bytes() {
        [] => Ok(Some(Column::Unnamed)),
        [first, ..] if *first == b'#' => Ok(Some(Column::Own)),
        bytes => column_by_key(alloc, bytes),
    }
}

/// The column of a name, of a field or a role.
fn column_by_key(alloc: Global, name: &[u8]) -> Result<Option<Column>, AllocError>
    ensures { IfOk result (λ found. found ≡ headers.by_key (headers.key false name.now)) }
{
    match key(alloc, name)? {
        Some(key) => Ok(column_of_key(key.as_str())),
        None => Ok(None),
    }
}

/// The name in lower case, with one `-` for each run of blanks, `-` and `_`. `None`: it has another character that is
/// not ASCII.
fn key(alloc: Global, name: &[u8]) -> Result<Option<String>, AllocError>
    ensures { IfOk result (λ found. MatchOption found (headers.key false name.now ≡ None)
        (λ key. headers.key false name.now ≡ Some (string_bytes key))) }
{
    let mut key = String::new(alloc);
    let mut parted = false;
    for byte in name {
        if is_parting(*byte) {
            if !parted {
                key.push('-')?;
            }
            parted = true;
        } else if *byte < 128 {
            key.push(byte.to_ascii_lowercase() as char)?;
            parted = false;
        } else {
            return Ok(None);
        }
    }
    Ok(Some(key))
}

/// A blank, of which U+00A0 is 194 and 160, `-` or `_`.
fn is_parting(byte: u8) -> bool
    ensures { result ≡ headers.is_parting byte }
{
    matches!(byte, b' ' | b'\t' | b'\n' | 194 | 160 | b'-' | b'_')
}

/// The column of a key.
fn column_of_key(key: &str) -> Option<Column>
    ensures { result ≡ headers.column_of_key key.now }
{
    match key {
        "kind" => Some(Column::Kind),
        "page" => Some(Column::Page),
        "item" => Some(Column::Item),
        "date" => Some(Column::Date),
        "place" => Some(Column::Place),
        "text" => Some(Column::Text),
        _ => mention_column(key.as_bytes()),
    }
}

/// The column of a role and its number, which is 1 where none is written.
fn mention_column(key: &[u8]) -> Option<Column>
    ensures { result ≡ headers.mention_column key.now }
{
    let (size, number) = numbered(key);
    let role = role_of(&key[..key.len() - size])?;
    Some(Column::Mention(role, number))
}

/// The role of a word.
fn role_of(word: &[u8]) -> Option<Role>
    ensures { result ≡ headers.role_in word.now }
{
    match str::from_utf8(word) {
        Ok(word) => Role::from_word(word),
        Err(_) => None,
    }
}

/// How many bytes a number from 1 to 100 takes at the end, with `-` before it, and the number: 0 and 1 where there is
/// none.
fn numbered(key: &[u8]) -> (usize, u8)
    ensures size { result.0 ≡ (headers.numbered key.now).0 }
    ensures number { result.1 ≡ (headers.numbered key.now).1 }
    ensures within { result.0 ≤ length key.now }
{
    let n = key.len();
    if n >= 2 && key[n - 2] == b'-' && is_first(key[n - 1]) {
        (2, key[n - 1] - b'0')
    } else if n >= 3 && key[n - 3] == b'-' && is_first(key[n - 2]) && key[n - 1].is_ascii_digit() {
        (3, 10 * (key[n - 2] - b'0') + (key[n - 1] - b'0'))
    } else if n >= 4 && key[n - 4] == b'-' && is_hundred(key[n - 3], key[n - 2], key[n - 1]) {
        (4, 100)
    } else {
        (0, 1)
    }
}

/// The digits of 100.
fn is_hundred(a: u8, b: u8, c: u8) -> bool
    ensures { result ≡ headers.is_hundred a b c }
{
    a == b'1' && b == b'0' && c == b'0'
}

/// A digit that a number begins with.
fn is_first(byte: u8) -> bool
    ensures { result ≡ headers.is_first byte }
{
    b'1' <= byte && byte <= b'9'
}

/// The first of the fields that each entry needs which has no column.
pub(crate) fn missing(columns: &[Column]) -> Option<&'static str>
    ensures { MatchOption result (headers.missing columns.now ≡ None)
        (λ word. headers.missing columns.now ≡ Some word.now) }
{
    if !stands_in(columns, Column::Kind) {
        Some("kind")
    } else if !stands_in(columns, Column::Page) {
        Some("page")
    } else if !stands_in(columns, Column::Item) {
        Some("item")
    } else {
        None
    }
}
