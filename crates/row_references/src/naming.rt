//! Which fields of a row name a record or a slip, and whether one of them is a reference.

ghost use Rattle.std.specs.Prelude.{◌≡◌, is_some};
ghost use Rattle.csv.specs.Records.{fields_of};
ghost use Rattle.row_references.specs.Naming.{corrected_fields, is_number_field, naming_fields, naming_of};
ghost use Rattle.row_references.specs.References.{has_references, token_in};

use crate::fields::{field_at, token_bytes};
use commands::Verb;
use csv::ByteRecord;

/// Whether a field of the row that names a record or a slip is `@` and a token. Takes no memory.
pub fn has_references(row: &ByteRecord) -> bool
    ensures { result ≡ has_references (fields_of row.now) }
{
    naming_of(row)
        .iter()
        .any(|at| token_bytes(field_at(row, *at)).is_some())
}

/// The places of the fields of a row that name a record or a slip.
pub(crate) fn naming_of(row: &ByteRecord) -> &'static [usize]
    ensures { result.now ≡ naming_of (fields_of row.now) }
{
    match str::from_utf8(field_at(row, 1)) {
        Ok(word) => match Verb::from_word(word) {
            Some(verb) => naming_fields(verb, field_at(row, 3)),
            None => &[],
        },
        Err(_) => &[],
    }
}

/// The places of the fields of a verb that name a record or a slip: 0 is the token's, 1 the verb's. `field` is the one
/// at 3.
fn naming_fields(verb: Verb, field: &[u8]) -> &'static [usize]
    ensures { result.now ≡ naming_fields verb field.now }
{
    match verb {
        Verb::Person | Verb::Repo => &[],
        Verb::Name | Verb::Sex | Verb::Unlink | Verb::Undo | Verb::Remove => &[2],
        Verb::Unparticipant => &[2],
        Verb::Family | Verb::Child | Verb::Participant | Verb::Citation | Verb::Merge => &[2, 3],
        Verb::Unpartner | Verb::Unchild => &[2, 3],
        Verb::Event => &[2, 6],
        Verb::Amend => &[2, 5],
        Verb::Place => &[3],
        Verb::Source => &[5],
        Verb::Entry => &[2, 7],
        Verb::Link => &[2, 4],
        Verb::Partner => &[2, 4],
        Verb::Correct => corrected_fields(field),
    }
}

/// Those of a correction of the field of a word.
fn corrected_fields(field: &[u8]) -> &'static [usize]
    ensures { result.now ≡ corrected_fields field.now }
{
    let Ok(word) = str::from_utf8(field) else {
        return &[2];
    };
    if is_number_field(word) { &[2, 4] } else { &[2] }
}

/// Whether the value of a field is the number of a record.
fn is_number_field(word: &str) -> bool
    ensures { result ≡ is_number_field word.now }
{
    matches!(word, "place" | "repository")
}
