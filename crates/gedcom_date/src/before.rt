//! Texts by the grammar before it had French Republican dates.

ghost use Rattle.std.specs.Prelude.{◌↔◌, IfOk, IsTrue, MatchOption};
ghost use Rattle.gedcom_date.specs.Before.{FitsBefore, FittedNone, IsEarlier, IsEarlierForm};
ghost use Rattle.gedcom_date.specs.View.{view};

use crate::fault::DateFault;
use crate::forms::read_date;
use crate::value::DateValue;
use calendar_days::{Calendar, CalendarDate};
use std::alloc::Global;

/// The value of a text by the grammar before it had French Republican dates. `None`: the text fitted no form
/// of that grammar, so that it was kept as it stands. What it read, `read_date` reads as the same value.
///
/// An error comes only where memory is refused.
pub fn read_date_before(alloc: Global, text: &str) -> Result<Option<DateValue>, DateFault>
    ensures { IfOk result (λ found.
        MatchOption found (FittedNone text.now) (λ value. FitsBefore text.now (view value))) }
{
    let value = read_date(alloc, text)?;
    if is_earlier(&value) {
        Ok(Some(value))
    } else {
        Ok(None)
    }
}

/// Whether the grammar had such a value.
fn is_earlier(value: &DateValue) -> bool
    ensures { IsTrue result ↔ IsEarlierForm (view value.now) }
{
    match value {
        DateValue::On(date) => is_of_earlier(date),
        DateValue::Near(_, date) => is_of_earlier(date),
        DateValue::Before(date) => is_of_earlier(date),
        DateValue::After(date) => is_of_earlier(date),
        DateValue::Between(period) => is_of_earlier(&period.first) && is_of_earlier(&period.last),
        DateValue::From(date) => is_of_earlier(date),
        DateValue::To(date) => is_of_earlier(date),
        DateValue::FromTo(period) => is_of_earlier(&period.first) && is_of_earlier(&period.last),
        DateValue::Interpreted(interpreted) => is_of_earlier(&interpreted.date),
        DateValue::Phrase(_) => true,
        DateValue::Verbatim(_) => false,
    }
}

/// Whether the date is of a calendar that the grammar had.
fn is_of_earlier(date: &CalendarDate) -> bool
    ensures { IsTrue result ↔ IsEarlier date.now.calendar }
{
    match date.calendar {
        Calendar::Gregorian | Calendar::Julian => true,
        Calendar::Republican => false,
    }
}
