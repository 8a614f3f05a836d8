//! Rows with numbers in place of their references.

ghost use Rattle.std.specs.Prelude.{◌≡◌, fold, option_map, IfOk, Some};
ghost use Rattle.archive_state.specs.Looks.{CountsFailures, Looked};
ghost use Rattle.archive_state.specs.Views.{On};
ghost use Rattle.csv.specs.Records.{fields_of};
ghost use Rattle.row_references.specs.References.{
  Fills,
  FillsOne,
  IsNumbered,
  any_number,
  first_of,
  kept_number,
  numbered,
  numbered_at,
  with_number,
};

use crate::fields::{copied, field_at, token_bytes, token_in, with_number};
use crate::naming::naming_of;
use archive_state::View;
use csv::ByteRecord;
use receipts::Answer;
use record_text::RefusalKind;
use std::alloc::{AllocError, Global};

/// A number that is put in place of each reference where only the form of a row is judged.
pub(crate) const ANY_NUMBER: u32 = 1;

/// The row with the first number of the answer that is kept for its token in place of each reference. `None`: nothing
/// is kept for one of the tokens, or an answer that made nothing. Refused as a look is. Whatever the view shows, other
/// fields stay as they are.
pub fn numbered<V: View>(
    alloc: Global,
    view: &mut V,
    row: &ByteRecord,
) -> Result<Option<ByteRecord>, RefusalKind>
    ensures shows { On V.View view.old view.new (λ c. Looked result
        (λ found. option_map fields_of found ≡ numbered (kept_number c) (fields_of row.now))) }
    ensures form { IfOk result (λ found. IsNumbered (fields_of row.now) (option_map fields_of found)) }
    ensures counts { CountsFailures (V.failed view.old) (V.failed view.new) result }
{
    let own = copied(alloc, row)?;
    numbered_in(alloc, view, own, naming_of(row))
}

/// The same of the references at these places.
#[tactic(auto, using(crate::proofs::InPlace::one_more, crate::proofs::InPlace::all_numbered))]
fn numbered_in<V: View>(
    alloc: Global,
    view: &mut V,
    row: ByteRecord,
    places: &[usize],
) -> Result<Option<ByteRecord>, RefusalKind>
    ensures shows { On V.View view.old view.new (λ c. Looked result
        (λ found. option_map fields_of found ≡ fold (numbered_at (kept_number c)) (Some (fields_of row)) places.now)) }
    ensures form { IfOk result (λ found. Fills places.now (Some (fields_of row)) (option_map fields_of found)) }
    ensures counts { CountsFailures (V.failed view.old) (V.failed view.new) result }
{
    let mut found = Some(row);
    'each: for at in places {
        found = numbered_at(alloc, view, found, *at)?;
    }
    Ok(found)
}

/// The same of the reference at one place, after those before it.
fn numbered_at<V: View>(
    alloc: Global,
    view: &mut V,
    row: Option<ByteRecord>,
    at: usize,
) -> Result<Option<ByteRecord>, RefusalKind>
    ensures shows { On V.View view.old view.new (λ c. Looked result (λ found. option_map fields_of found
        ≡ numbered_at (kept_number c) (option_map fields_of row) at)) }
    ensures form { IfOk result (λ found. FillsOne at (option_map fields_of row) (option_map fields_of found)) }
    ensures counts { CountsFailures (V.failed view.old) (V.failed view.new) result }
{
    let Some(row) = row else {
        return Ok(None);
    };
    match token_in(alloc, field_at(&row, at))? {
        None => Ok(Some(row)),
        Some(token) => match view.receipt(alloc, &token)? {
            Some(kept) => Ok(put_first(alloc, &row, at, kept.answer)?),
            None => Ok(None),
        },
    }
}

/// The row with the first number of an answer in that place. `None`: the answer made nothing.
fn put_first(
    alloc: Global,
    row: &ByteRecord,
    at: usize,
    answer: Answer,
) -> Result<Option<ByteRecord>, AllocError>
    ensures { IfOk result (λ found. option_map fields_of found
        ≡ option_map (with_number (fields_of row.now) at) (first_of answer)) }
{
    if answer.count == 0 {
        return Ok(None);
    }
    Ok(Some(with_number(alloc, row, at, answer.first)?))
}

/// The row with the number 1 in place of each reference, by which its form can be judged. Refused only if out of
/// memory.
pub fn with_any_numbers(alloc: Global, row: &ByteRecord) -> Result<ByteRecord, AllocError>
    ensures { IfOk result (λ r. numbered any_number (fields_of row.now) ≡ Some (fields_of r)) }
{
    let own = copied(alloc, row)?;
    with_ones(alloc, own, naming_of(row))
}

/// The same of the references at these places.
#[tactic(auto, using(crate::proofs::InPlace::one_more, crate::proofs::InPlace::all_numbered))]
fn with_ones(alloc: Global, row: ByteRecord, places: &[usize]) -> Result<ByteRecord, AllocError>
    ensures { IfOk result (λ r. fold (numbered_at any_number) (Some (fields_of row)) places.now ≡ Some (fields_of r)) }
{
    let mut out = row;
    'each: for at in places {
        out = with_one(alloc, out, *at)?;
    }
    Ok(out)
}

/// The same of the reference at one place.
fn with_one(alloc: Global, row: ByteRecord, at: usize) -> Result<ByteRecord, AllocError>
    ensures { IfOk result (λ r. numbered_at any_number (Some (fields_of row)) at ≡ Some (fields_of r)) }
{
    match token_bytes(field_at(&row, at)) {
        Some(_) => with_number(alloc, &row, at, ANY_NUMBER),
        None => Ok(row),
    }
}
