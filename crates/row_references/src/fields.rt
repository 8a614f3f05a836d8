//! The fields of a row, and the token of a reference.

ghost use Rattle.std.specs.Prelude.{
  ◌≡◌,
  ◌==◌,
  [],
  false,
  get_or,
  if◌then◌else◌,
  map,
  option_map,
  set,
  IfOk,
  MatchOption,
  None,
  Some,
};
ghost use Rattle.std.specs.List.{list_all};
ghost use Rattle.csv.specs.Records.{fields_of};
ghost use Rattle.receipts.specs.Tokens.{is_printable as printable};
ghost use Rattle.row_references.specs.References.{is_token, token_in, with_number};

use csv::ByteRecord;
use receipts::Token;
use std::alloc::{AllocError, Global};

/// The most characters that a token has.
const MAX_CHARACTERS: usize = 64;

/// The field at a place. Where the row has none it is empty.
pub(crate) fn field_at(row: &ByteRecord, at: usize) -> &[u8]
    ensures { result.now ≡ get_or (fields_of row.now) at [] }
{
    match row.get(at) {
        Some(field) => field,
        None => &[],
    }
}

/// The token of a reference, as bytes. `None`: the field is no reference.
pub(crate) fn token_bytes(field: &[u8]) -> Option<&[u8]>
    ensures { option_map (λ t. t.now) result ≡ token_in field.now }
{
    match field {
        [b'@', token @ ..] if is_token(token) => Some(token),
        _ => None,
    }
}

/// Whether the bytes are a token.
fn is_token(bytes: &[u8]) -> bool
    ensures { result ≡ is_token bytes.now }
{
    if bytes.is_empty() || bytes.len() > MAX_CHARACTERS {
        return false;
    }
    is_printed(bytes)
}

/// Whether each byte is a character from `!` to `~`.
fn is_printed(bytes: &[u8]) -> bool
    ensures { result ≡ list_all printable bytes.now }
{
    bytes.iter().all(|b| is_printable(*b))
}

fn is_printable(byte: u8) -> bool
    ensures { result ≡ printable byte }
{
    b'!' <= byte && byte <= b'~'
}

/// The token of a reference: of `@` and a token. `None`: the field is no reference. Refused only if out of memory.
pub fn token_in(alloc: Global, field: &[u8]) -> Result<Option<Token>, AllocError>
    ensures { IfOk result (λ found. MatchOption found (token_in field.now ≡ None)
        (λ token. token_in field.now ≡ Some token)) }
{
    match token_bytes(field) {
        Some(token) => token_of(alloc, token),
        None => Ok(None),
    }
}

/// The bytes as a token. `None`: they are none.
fn token_of(alloc: Global, bytes: &[u8]) -> Result<Option<Token>, AllocError>
    ensures { IfOk result (λ found. MatchOption found (is_token bytes.now ≡ false) (λ token. token ≡ bytes.now)) }
{
    match str::from_utf8(bytes) {
        Ok(text) => Ok(Token::try_new(String::from_str(alloc, text)?)),
        Err(_) => Ok(None),
    }
}

/// The row with a number in that place. Refused only if out of memory.
pub(crate) fn with_number(
    alloc: Global,
    row: &ByteRecord,
    at: usize,
    number: u32,
) -> Result<ByteRecord, AllocError>
    ensures { IfOk result (λ r. fields_of r ≡ with_number (fields_of row.now) at number) }
{
    let text = number.to_string(alloc)?;
    with_field(alloc, row, at, text.as_bytes())
}

/// The row with this field in that place.
fn with_field(
    alloc: Global,
    row: &ByteRecord,
    at: usize,
    field: &[u8],
) -> Result<ByteRecord, AllocError>
    ensures { IfOk result (λ r. fields_of r ≡ set (fields_of row.now) at field.now) }
{
    let mut out = ByteRecord::new(alloc);
    'fields: for i in 0..row.len() {
        out.push_field(field_or(row, i, at, field))?;
    }
    Ok(out)
}

/// The field of a row at a place, and this one where it is that place.
fn field_or<'a>(row: &'a ByteRecord, i: usize, at: usize, field: &'a [u8]) -> &'a [u8]
    ensures { result.now ≡ (if i == at then field.now else get_or (fields_of row.now) i []) }
{
    if i == at { field } else { field_at(row, i) }
}

/// The same row in memory of its own. Refused only if out of memory.
pub fn copied(alloc: Global, row: &ByteRecord) -> Result<ByteRecord, AllocError>
    ensures { IfOk result (λ r. fields_of r ≡ fields_of row.now) }
{
    let fields = all_fields(alloc, row)?;
    ByteRecord::from_fields(alloc, fields.as_slice())
}

/// All fields of a row. Refused only if out of memory.
fn all_fields<'a>(alloc: Global, row: &'a ByteRecord) -> Result<Vec<&'a [u8]>, AllocError>
    ensures { IfOk result (λ fields. map (λ f. f.now) fields.items ≡ fields_of row.now) }
{
    let mut fields = Vec::new(alloc);
    'fields: for i in 0..row.len() {
        fields.push(field_at(row, i))?;
    }
    Ok(fields)
}
