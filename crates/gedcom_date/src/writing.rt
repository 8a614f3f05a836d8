//! Values written.

ghost use Rattle.std.specs.Prelude.{◌≡◌, ◌++◌, ◌∷◌, OnOk, IfOk, codes, string_bytes};
ghost use Rattle.calendar_days.specs.Calendars.{IsCounted, IsExtent};
ghost use Rattle.calendar_days.specs.Told.{told};
ghost use Rattle.gedcom_date.specs.View.{view};
ghost use Rattle.gedcom_date.specs.Grammar.{Says};
ghost use Rattle.gedcom_date.specs.Spelling.{
  month_name,
  roman_name,
  republican_name,
  year_text,
  extent_text,
  told_text,
  after_text,
  two_text,
  approximation_text,
  phrase_text,
  spelling,
  Appends,
};

use crate::approximation::Approximation;
use crate::fault::{DateFault, DateKind};
use crate::period::Period;
use crate::texts::Interpreted;
use crate::value::DateValue;
use calendar_days::{Calendar, CalendarDate, Extent, Year};
use std::alloc::{AllocError, Global};

/// The canonical spelling of a value: upper case, single spaces, no leading zeros, no escape for
/// the Gregorian calendar. A `Verbatim` is written as its text. An error comes only where memory is refused.
pub fn write_date(alloc: Global, value: &DateValue) -> Result<String, DateFault>
    ensures canonical { IfOk result (λ text. string_bytes text ≡ spelling (view value.now)) }
    ensures again { IfOk result (λ text. Says (string_bytes text) (view value.now)) }
{
    let mut text = String::new(alloc);
    match push_value(&mut text, value) {
        Ok(()) => Ok(text),
        Err(_) => Err(DateFault {
            kind: DateKind::OutOfMemory,
        }),
    }
}

/// Appends a value.
#[tactic(auto, unfolding(crate::specs::Spelling::spelling))]
fn push_value(out: &mut String, value: &DateValue) -> Result<(), AllocError>
    ensures { OnOk result (Appends (string_bytes out.old) (string_bytes out.new)
        (spelling (view value.now))) }
{
    match value {
        DateValue::On(date) => push_date(out, date),
        DateValue::Near(how, date) => push_behind(out, approximation_word(*how), date),
        DateValue::Before(date) => push_behind(out, "BEF", date),
        DateValue::After(date) => push_behind(out, "AFT", date),
        DateValue::Between(period) => push_period(out, "BET", "AND", period),
        DateValue::From(date) => push_behind(out, "FROM", date),
        DateValue::To(date) => push_behind(out, "TO", date),
        DateValue::FromTo(period) => push_period(out, "FROM", "TO", period),
        DateValue::Interpreted(interpreted) => push_interpreted(out, interpreted),
        DateValue::Phrase(phrase) => push_phrase(out, &phrase.text),
        DateValue::Verbatim(verbatim) => out.push_str(&verbatim.text),
    }
}

/// The keyword of a date that is not sure.
fn approximation_word(how: Approximation) -> &'static str
    ensures { result.now ≡ approximation_text how }
{
    match how {
        Approximation::About => "ABT",
        Approximation::Calculated => "CAL",
        Approximation::Estimated => "EST",
    }
}

/// Appends a keyword, a space and a date.
pub(crate) fn push_behind(
    out: &mut String,
    keyword: &str,
    date: &CalendarDate,
) -> Result<(), AllocError>
    ensures { OnOk result (Appends (string_bytes out.old) (string_bytes out.new)
        (after_text keyword.now (told date.now))) }
{
    write!(out, "{keyword} ")?;
    push_date(out, date)
}

/// Appends a keyword, a date, a second keyword and a date.
fn push_period(
    out: &mut String,
    opening: &str,
    joining: &str,
    period: &Period,
) -> Result<(), AllocError>
    ensures { OnOk result (Appends (string_bytes out.old) (string_bytes out.new)
        (two_text opening.now joining.now (told period.now.first) (told period.now.last))) }
{
    push_behind(out, opening, &period.first)?;
    out.push_str(" ")?;
    push_behind(out, joining, &period.last)
}

/// Appends `INT`, a date and a phrase.
fn push_interpreted(out: &mut String, interpreted: &Interpreted) -> Result<(), AllocError>
    ensures { OnOk result (Appends (string_bytes out.old) (string_bytes out.new)
        (after_text (codes "INT") (told interpreted.now.date)
        ++ 32 ∷ phrase_text (string_bytes interpreted.now.phrase))) }
{
    push_behind(out, "INT", &interpreted.date)?;
    out.push_str(" ")?;
    push_phrase(out, &interpreted.phrase)
}

/// Appends a phrase between its brackets.
fn push_phrase(out: &mut String, phrase: &str) -> Result<(), AllocError>
    ensures { OnOk result (Appends (string_bytes out.old) (string_bytes out.new)
        (phrase_text phrase.now)) }
{
    write!(out, "({phrase})")
}

/// Appends a date after its escape.
fn push_date(out: &mut String, date: &CalendarDate) -> Result<(), AllocError>
    ensures { OnOk result (Appends (string_bytes out.old) (string_bytes out.new)
        (told_text (told date.now))) }
{
    match date.calendar {
        Calendar::Gregorian => push_extent(out, Calendar::Gregorian, date.extent),
        Calendar::Julian => push_escaped(out, "@#DJULIAN@", Calendar::Julian, date.extent),
        Calendar::Republican => {
            push_escaped(out, "@#DFRENCH R@", Calendar::Republican, date.extent)
        }
    }
}

/// Appends an escape and how much of a date is known.
fn push_escaped(
    out: &mut String,
    escape: &str,
    calendar: Calendar,
    extent: Extent,
) -> Result<(), AllocError>
    requires { IsExtent calendar extent }
    ensures { OnOk result (Appends (string_bytes out.old) (string_bytes out.new)
        (escape.now ++ 32 ∷ extent_text calendar extent)) }
{
    write!(out, "{escape} ")?;
    push_extent(out, calendar, extent)
}

/// Appends how much of a date is known.
fn push_extent(out: &mut String, calendar: Calendar, extent: Extent) -> Result<(), AllocError>
    requires { IsExtent calendar extent }
    ensures { OnOk result (Appends (string_bytes out.old) (string_bytes out.new)
        (extent_text calendar extent)) }
{
    match extent {
        Extent::BeforeChrist(year) => write!(out, "{year} B.C."),
        Extent::Whole(year) => push_year(out, year),
        Extent::Month(month, year) => {
            let name = month_word(calendar, month);
            write!(out, "{name} ")?;
            push_year(out, year)
        }
        Extent::Day(day, month, year) => {
            let name = month_word(calendar, month);
            write!(out, "{day} {name} ")?;
            push_year(out, year)
        }
    }
}

/// Appends a year, or a double year with the last two digits of the later.
fn push_year(out: &mut String, year: Year) -> Result<(), AllocError>
    requires { IsCounted year }
    ensures { OnOk result (Appends (string_bytes out.old) (string_bytes out.new)
        (year_text year)) }
{
    match year {
        Year::Single(year) => write!(out, "{year}"),
        Year::Double(year) => {
            let tens = (year + 1) / 10 % 10;
            let ones = (year + 1) % 10;
            write!(out, "{year}/{tens}{ones}")
        }
    }
}

/// The name of a month, from 1.
fn month_word(calendar: Calendar, month: u8) -> &'static str
    ensures { result.now ≡ month_name calendar month }
{
    match calendar {
        Calendar::Gregorian | Calendar::Julian => roman_month(month),
        Calendar::Republican => republican_month(month),
    }
}

/// The name of a month of the Gregorian and the Julian year, from 1.
fn roman_month(month: u8) -> &'static str
    ensures { result.now ≡ roman_name month }
{
    match month {
        1 => "JAN",
        2 => "FEB",
        3 => "MAR",
        4 => "APR",
        5 => "MAY",
        6 => "JUN",
        7 => "JUL",
        8 => "AUG",
        9 => "SEP",
        10 => "OCT",
        11 => "NOV",
        _ => "DEC",
    }
}

/// The name of a month of the French Republican year, from 1.
fn republican_month(month: u8) -> &'static str
    ensures { result.now ≡ republican_name month }
{
    match month {
        1 => "VEND",
        2 => "BRUM",
        3 => "FRIM",
        4 => "NIVO",
        5 => "PLUV",
        6 => "VENT",
        7 => "GERM",
        8 => "FLOR",
        9 => "PRAI",
        10 => "MESS",
        11 => "THER",
        12 => "FRUC",
        _ => "COMP",
    }
}
