//! What a text says of a time.

use crate::approximation::Approximation;
use crate::period::Period;
use crate::texts::{Interpreted, Phrase, Verbatim};
use calendar_days::CalendarDate;

/// The value of a date line: GEDCOM 5.5.1, chapter 2, DATE_VALUE.
#[derive(Debug, Drop)]
pub enum DateValue {
    /// Only a date.
    On(CalendarDate),
    /// `ABT`, `CAL` or `EST` and a date.
    Near(Approximation, CalendarDate),
    /// `BEF` and a date.
    Before(CalendarDate),
    /// `AFT` and a date.
    After(CalendarDate),
    /// `BET`, a date, `AND` and a date.
    Between(Period),
    /// `FROM` and a date.
    From(CalendarDate),
    /// `TO` and a date.
    To(CalendarDate),
    /// `FROM`, a date, `TO` and a date.
    FromTo(Period),
    /// `INT`, a date and a phrase.
    Interpreted(Interpreted),
    /// Only a phrase.
    Phrase(Phrase),
    /// A text that is none of these.
    Verbatim(Verbatim),
}

/// The first and the last day that a date may mean, in days from 1970-01-01, day 0.
#[derive(Clone, Copy, Debug, PartialEq, Eq)]
pub struct Span {
    /// The first day; none where each day has an earlier one.
    pub lo: Option<i32>,
    /// The last day; none where each day has a later one.
    pub hi: Option<i32>,
}
