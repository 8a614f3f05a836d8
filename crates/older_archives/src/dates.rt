//! Dates of before, read anew.

ghost use Rattle.std.specs.Prelude.{◌≡◌, ◌≢◌, ◌⊎◌, IfOk, MatchBool, MatchOption};
ghost use Rattle.gedcom_date.specs.Before.{FittedNone};
ghost use Rattle.record_fields.specs.Dates.{IsWritten};
ghost use Rattle.record_shapes.specs.Reading.{dated};
ghost use Rattle.older_archives.specs.Dates.{FittedSome, IsNewDate};

use gedcom_date::read_date_before;
use record_fields::Date;
use record_text::Text;
use std::alloc::{AllocError, Global};

/// The date that a text says today, where it fitted no form of the grammar of before, and is not the canonical spelling
/// of what it says today.
pub(crate) fn new_date(alloc: Global, text: &Text) -> Result<Option<Date>, AllocError>
    ensures { IfOk result (λ found. MatchOption found
        (IsWritten text.now ⊎ FittedSome text.now) (λ date. IsNewDate text.now date)) }
{
    if fitted(alloc, text)? {
        return Ok(None);
    }
    match said(alloc, text)? {
        None => Ok(None),
        Some(date) => Ok(unless_same(text, date)),
    }
}

/// Whether a text fitted a form of the grammar of before.
fn fitted(alloc: Global, text: &Text) -> Result<bool, AllocError>
    ensures { IfOk result (λ fitted. MatchBool fitted (FittedSome text.now) (FittedNone text.now)) }
{
    match read_date_before(alloc, text.as_str()) {
        Ok(Some(_)) => Ok(true),
        Ok(None) => Ok(false),
        Err(_) => Err(AllocError),
    }
}

/// The date that a text says today. There is always one: the spelling of what a text says is a text.
fn said(alloc: Global, text: &Text) -> Result<Option<Date>, AllocError>
    ensures { IfOk result (λ found. found ≡ dated text.now) }
{
    Date::try_new(alloc, text.as_str())
}

/// The date, where its spelling is another than the text.
fn unless_same(text: &Text, date: Date) -> Option<Date>
    ensures { MatchOption result (text.now ≡ date.text) (λ d. (d ≡ date) × (text.now ≢ date.text)) }
{
    if date.as_str() == text.as_str() {
        drop(date);
        None
    } else {
        Some(date)
    }
}
