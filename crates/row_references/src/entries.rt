//! References in rows of batches of register entries, which have one only in the field of the place.

ghost use Rattle.std.specs.Prelude.{◌≡◌, IfOk};
ghost use Rattle.archive_state.specs.Looks.{CountsFailures, Looked};
ghost use Rattle.archive_state.specs.Views.{On};
ghost use Rattle.csv.specs.Records.{fields_of};
ghost use Rattle.row_references.specs.Entries.{has_place_reference, place_field, place_number};
ghost use Rattle.row_references.specs.References.{kept_number, with_number};

use crate::fields::{field_at, token_bytes, token_in, with_number};
use crate::numbering::ANY_NUMBER;
use crate::words::kept_number;
use archive_state::View;
use csv::ByteRecord;
use record_text::RefusalKind;
use std::alloc::{AllocError, Global};

/// The field of the place, after kind, page, item and date.
const PLACE: usize = 4;

/// Whether the place of a row of a batch is `@` and a token. Takes no memory.
pub fn has_place_reference(row: &ByteRecord) -> bool
    ensures { result ≡ has_place_reference (fields_of row.now) }
{
    token_bytes(field_at(row, PLACE)).is_some()
}

/// The first number of the answer that is stored for the token of the place of a row. `None`: the place is no
/// reference, nothing is stored for its token, or an answer that made nothing. Refused as a look is.
pub fn place_number<V: View>(
    alloc: Global,
    view: &mut V,
    row: &ByteRecord,
) -> Result<Option<u32>, RefusalKind>
    ensures shows { On V.View view.old view.new (λ c. Looked result
        (λ found. found ≡ place_number (kept_number c) (fields_of row.now))) }
    ensures counts { CountsFailures (V.failed view.old) (V.failed view.new) result }
{
    match token_in(alloc, field_at(row, PLACE))? {
        Some(token) => kept_number(alloc, view, &token),
        None => Ok(None),
    }
}

/// The row with a number for its place. Refused only if out of memory.
pub fn with_place(alloc: Global, row: &ByteRecord, number: u32) -> Result<ByteRecord, AllocError>
    ensures { IfOk result (λ r. fields_of r ≡ with_number (fields_of row.now) place_field number) }
{
    with_number(alloc, row, PLACE, number)
}

/// The row with the number 1 for its place, by which its form can be judged. Refused only if out of memory.
pub fn with_any_place(alloc: Global, row: &ByteRecord) -> Result<ByteRecord, AllocError>
    ensures { IfOk result (λ r. fields_of r ≡ with_number (fields_of row.now) place_field 1) }
{
    with_place(alloc, row, ANY_NUMBER)
}
