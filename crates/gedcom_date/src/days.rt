//! The days that a value may mean.

ghost use Rattle.calendar_days.specs.Bounds.{IsLeast, IsGreatest};
ghost use Rattle.calendar_days.specs.Told.{told};
ghost use Rattle.calendar_days.specs.Within.{IsIn};
ghost use Rattle.gedcom_date.specs.Days.{IsDayOf};
ghost use Rattle.gedcom_date.specs.View.{view};

use crate::value::{DateValue, Span};
use calendar_days::{CalendarDate, first_day, last_day};

/// The first and the last day that a date may mean. Takes no memory.
pub fn span(value: &DateValue) -> Span
    ensures lo { IsLeast (IsDayOf (view value.now)) result.lo }
    ensures hi { IsGreatest (IsDayOf (view value.now)) result.hi }
{
    match value {
        DateValue::On(date) => days_of(date),
        DateValue::Near(_, date) => days_of(date),
        DateValue::Interpreted(interpreted) => days_of(&interpreted.date),
        DateValue::Before(date) => Span {
            lo: None,
            hi: Some(first_day(date) - 1),
        },
        DateValue::After(date) => Span {
            lo: Some(last_day(date) + 1),
            hi: None,
        },
        DateValue::Between(period) => Span {
            lo: Some(first_day(&period.first)),
            hi: Some(last_day(&period.last)),
        },
        DateValue::FromTo(period) => Span {
            lo: Some(first_day(&period.first)),
            hi: Some(last_day(&period.last)),
        },
        DateValue::From(date) => Span {
            lo: Some(first_day(date)),
            hi: None,
        },
        DateValue::To(date) => Span {
            lo: None,
            hi: Some(last_day(date)),
        },
        DateValue::Phrase(_) => Span { lo: None, hi: None },
        DateValue::Verbatim(_) => Span { lo: None, hi: None },
    }
}

/// The days of a date.
fn days_of(date: &CalendarDate) -> Span
    ensures lo { IsLeast (IsIn (told date.now)) result.lo }
    ensures hi { IsGreatest (IsIn (told date.now)) result.hi }
{
    Span {
        lo: Some(first_day(date)),
        hi: Some(last_day(date)),
    }
}
