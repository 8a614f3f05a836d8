//! The fields of a row as texts.

ghost use Rattle.std.specs.Prelude.{◌≡◌, ◌<◌, ◌≤◌, ◌++◌, ◌∷◌, [], length, get_or, map, IfOk, IsUtf8, MatchOption, OnOk};
ghost use Rattle.csv.specs.Records.{AllText, fields_of};
ghost use Rattle.request_csv.specs.Input.{first_fields, kept_fields};

use csv::ByteRecord;
use std::alloc::{AllocError, Global};

/// How many fields of a row are kept: one more than the longest row has, that of an `entry` with 100 mentions.
const KEPT_FIELDS: usize = 210;

/// The first fields of a row, at most 210: a row of more is refused by these as it is by all. `None`: a field is not
/// UTF-8, however far after. Refused only if out of memory.
pub fn text_fields<'a>(
    alloc: Global,
    row: &'a ByteRecord,
) -> Result<Option<Vec<&'a str>>, AllocError>
    ensures { IfOk result (λ found. MatchOption found (¬ (AllText (fields_of row.now)))
        (λ fields. AllText (fields_of row.now) × (map (λ f. f.now) fields.items ≡ first_fields (fields_of row.now)))) }
{
    let mut fields = Vec::new(alloc);
    'fields: for i in 0..row.len() {
        match text_at(row, i) {
            Some(text) => keep_at(&mut fields, i, text)?,
            None => return Ok(None),
        }
    }
    Ok(Some(fields))
}

/// Adds the field at this place of its row, where it is one of those that are kept.
fn keep_at<'a>(fields: &mut Vec<&'a str>, i: usize, text: &'a str) -> Result<(), AllocError>
    ensures kept { i < kept_fields → OnOk result (fields.new.items ≡ fields.old.items ++ text.entry ∷ []) }
    ensures left { kept_fields ≤ i → OnOk result (fields.new.items ≡ fields.old.items) }
{
    if i < KEPT_FIELDS {
        fields.push(text)?;
    }
    Ok(())
}

/// The field at a place. `None`: it is not UTF-8.
fn text_at(row: &ByteRecord, i: usize) -> Option<&str>
    requires { i < length (fields_of row.now) }
    ensures { MatchOption result (¬ (IsUtf8 (get_or (fields_of row.now) i [])))
        (λ text. (text.now ≡ get_or (fields_of row.now) i []) × IsUtf8 (get_or (fields_of row.now) i [])) }
{
    match row.get(i) {
        Some(field) => match str::from_utf8(field) {
            Ok(text) => Some(text),
            Err(_) => None,
        },
        None => None,
    }
}
