//! Which days, months and years a calendar has.

ghost use Rattle.std.specs.Prelude.{◌↔◌, ◌≤ℤ◌, IsTrue, pos, negsuc};
ghost use Rattle.calendar_days.specs.Calendars.{
  HasDay,
  HasYearsBefore,
  IsCounted,
  IsExtent,
  IsYearOf,
};

use crate::calendar::{Calendar, Extent, Year};
use crate::days::{counted_year, last_month, last_of_month};
use jiff::civil::Date;

/// Whether the calendar has that day, month or year.
pub(crate) fn has_extent(calendar: Calendar, extent: Extent) -> bool
    ensures { IsTrue result ↔ IsExtent calendar extent }
{
    match extent {
        Extent::BeforeChrist(year) => 1 <= year && year <= 9999 && has_years_before(calendar),
        Extent::Whole(year) => has_year(year) && is_year_of(calendar, year),
        Extent::Month(month, year) => {
            has_year(year)
                && 1 <= month
                && month <= last_month(calendar)
                && is_year_of(calendar, year)
        }
        Extent::Day(day, month, year) => {
            has_year(year)
                && has_day(calendar, counted_year(year), month, day)
                && is_year_of(calendar, year)
        }
    }
}

/// Whether the calendar has years before Christ.
fn has_years_before(calendar: Calendar) -> bool
    ensures { IsTrue result ↔ HasYearsBefore calendar }
{
    match calendar {
        Calendar::Gregorian | Calendar::Julian => true,
        Calendar::Republican => false,
    }
}

/// Whether the calendar has such a year.
fn is_year_of(calendar: Calendar, year: Year) -> bool
    ensures { IsTrue result ↔ IsYearOf calendar year }
{
    match calendar {
        Calendar::Gregorian | Calendar::Julian => true,
        Calendar::Republican => match year {
            Year::Single(year) => year <= 14,
            Year::Double(_) => false,
        },
    }
}

/// Whether it is a year from 1 to 9999, the later one too.
fn has_year(year: Year) -> bool
    ensures { IsTrue result ↔ IsCounted year }
{
    match year {
        Year::Single(year) => 1 <= year && year <= 9999,
        Year::Double(year) => 1 <= year && year <= 9998,
    }
}

/// Whether the calendar has the day.
fn has_day(calendar: Calendar, year: i16, month: u8, day: u8) -> bool
    requires low { negsuc 9998 ≤ℤ year }
    requires high { year ≤ℤ pos 9999 }
    ensures { IsTrue result ↔ HasDay calendar year month day }
{
    match calendar {
        Calendar::Gregorian => {
            month <= 12 && day <= 31 && Date::new(year, month as i8, day as i8).is_ok()
        }
        Calendar::Julian => {
            1 <= month && month <= 12 && 1 <= day && day <= last_of_month(calendar, year, month)
        }
        Calendar::Republican => {
            1 <= month && month <= 13 && 1 <= day && day <= last_of_month(calendar, year, month)
        }
    }
}
