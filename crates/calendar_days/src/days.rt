//! The first and the last day of a date, and the number of a day.

ghost use Rattle.std.specs.Prelude.{
  ◌≡◌,
  ◌≤◌,
  ◌<◌,
  ◌-◌,
  ◌≤ℤ◌,
  ◌+ℤ◌,
  ◌-ℤ◌,
  ◌+◌,
  ◌%◌,
  ◌==◌,
  ◌&&◌,
  nat_lt,
  if◌then◌else◌,
  pos,
  negsuc,
  ℤ,
  ℕ,
};
ghost use Rattle.jiff_core.specs.Calendar.{days_from_civil};
ghost use Rattle.calendar_days.specs.Bounds.{IsLeast, IsGreatest};
ghost use Rattle.calendar_days.specs.Calendars.{
  HasDay,
  last_month,
  IsCounted,
  leap,
  day_number,
  month_days,
  days_of_months,
  counted,
  opening,
  days_before_month,
  roman_days,
  republican_days,
  sextile_years,
};
ghost use Rattle.calendar_days.specs.Laws.{julian_formula, republican_formula};
ghost use Rattle.std.specs.Int.{IsInRange};
ghost use Rattle.calendar_days.specs.Told.{told};
ghost use Rattle.calendar_days.specs.Within.{IsIn};

use crate::calendar::{Calendar, CalendarDate, Extent, Year};
use jiff::civil::Date;

/// The first day of a date, as a number of days from 1970-01-01, day 0, which lies within 5,000,000
/// of it. Of a double year without a month it is the first of the earlier year. Takes no memory.
///
/// Day numbers and double years: docs/FORMATS.md, Dates.
pub fn first_day(date: &CalendarDate) -> i32
    ensures least { IsLeast (IsIn (told date.now)) (Some result) }
    ensures low { negsuc 4999999 ≤ℤ result }
    ensures high { result ≤ℤ pos 5000000 }
{
    let calendar = date.calendar;
    match date.extent {
        Extent::BeforeChrist(year) => number(calendar, before_christ(year), 1, 1),
        Extent::Whole(year) => number(calendar, first_year(year), 1, 1),
        Extent::Month(month, year) => number(calendar, counted_year(year), month, 1),
        Extent::Day(day, month, year) => number(calendar, counted_year(year), month, day),
    }
}

/// The last day of a date, as a number of days from 1970-01-01, day 0, which lies within 5,000,000
/// of it. Of a double year without a month it is the last of the later year. Takes no memory.
///
/// Day numbers and double years: docs/FORMATS.md, Dates.
pub fn last_day(date: &CalendarDate) -> i32
    ensures greatest { IsGreatest (IsIn (told date.now)) (Some result) }
    ensures low { negsuc 4999999 ≤ℤ result }
    ensures high { result ≤ℤ pos 5000000 }
{
    let calendar = date.calendar;
    match date.extent {
        Extent::BeforeChrist(year) => year_end(calendar, before_christ(year)),
        Extent::Whole(year) => year_end(calendar, counted_year(year)),
        Extent::Month(month, year) => {
            let year = counted_year(year);
            number(calendar, year, month, last_of_month(calendar, year, month))
        }
        Extent::Day(day, month, year) => number(calendar, counted_year(year), month, day),
    }
}

/// The year in which a date of that year is counted.
pub(crate) fn counted_year(year: Year) -> i16
    requires { IsCounted year }
    ensures value { result ≡ counted year }
    ensures low { negsuc 9998 ≤ℤ result }
    ensures high { result ≤ℤ pos 9999 }
{
    match year {
        Year::Single(year) => year as i16,
        Year::Double(year) => year as i16 + 1,
    }
}

/// The year n before Christ, which is 1 - n.
fn before_christ(year: u16) -> i16
    requires low { 1 ≤ year }
    requires high { year ≤ 9999 }
    ensures value { result ≡ pos 1 -ℤ pos year }
    ensures low { negsuc 9998 ≤ℤ result }
    ensures high { result ≤ℤ pos 9999 }
{
    1 - year as i16
}

/// The earlier of the years.
fn first_year(year: Year) -> i16
    requires { IsCounted year }
    ensures value { result ≡ opening year }
    ensures low { negsuc 9998 ≤ℤ result }
    ensures high { result ≤ℤ pos 9999 }
{
    match year {
        Year::Single(year) | Year::Double(year) => year as i16,
    }
}

/// Whether the year is leap.
fn is_leap(calendar: Calendar, year: i16) -> bool
    requires low { negsuc 9998 ≤ℤ year }
    requires high { year ≤ℤ pos 9999 }
    ensures { result ≡ leap calendar year }
{
    match calendar {
        Calendar::Gregorian => year % 4 == 0 && (year % 100 != 0 || year % 400 == 0),
        Calendar::Julian => year % 4 == 0,
        Calendar::Republican => year == 3 || year == 7 || year == 11,
    }
}

/// The number of days of the month.
pub(crate) fn last_of_month(calendar: Calendar, year: i16, month: u8) -> u8
    requires low { negsuc 9998 ≤ℤ year }
    requires high { year ≤ℤ pos 9999 }
    ensures { result ≡ month_days calendar year month }
{
    let leap = is_leap(calendar, year);
    match calendar {
        Calendar::Gregorian | Calendar::Julian => roman_days(leap, month),
        Calendar::Republican => republican_days(leap, month),
    }
}

/// The number of days of a month of the Roman year.
fn roman_days(leap: bool, month: u8) -> u8
    ensures { result ≡ roman_days leap month }
{
    match month {
        2 if leap => 29,
        2 => 28,
        4 | 6 | 9 | 11 => 30,
        _ => 31,
    }
}

/// The number of days of a month of the Republican year: the thirteenth is the complementary days.
fn republican_days(leap: bool, month: u8) -> u8
    ensures { result ≡ republican_days leap month }
{
    match month {
        13 if leap => 6,
        13 => 5,
        _ => 30,
    }
}

/// How many months a year has.
pub(crate) fn last_month(calendar: Calendar) -> u8
    ensures { result ≡ last_month calendar }
{
    match calendar {
        Calendar::Gregorian | Calendar::Julian => 12,
        Calendar::Republican => 13,
    }
}

/// The number of the last day of a year.
fn year_end(calendar: Calendar, year: i16) -> i32
    requires low { negsuc 9998 ≤ℤ year }
    requires high { year ≤ℤ pos 9999 }
    ensures value { result ≡ day_number calendar year (last_month calendar)
        (month_days calendar year (last_month calendar)) }
    ensures low { negsuc 4999999 ≤ℤ result }
    ensures high { result ≤ℤ pos 5000000 }
{
    let month = last_month(calendar);
    number(calendar, year, month, last_of_month(calendar, year, month))
}

/// The number of a day that the calendar has.
fn number(calendar: Calendar, year: i16, month: u8, day: u8) -> i32
    requires low { negsuc 9998 ≤ℤ year }
    requires high { year ≤ℤ pos 9999 }
    requires day { HasDay calendar year month day }
    ensures value { result ≡ day_number calendar year month day }
    ensures low { negsuc 4999999 ≤ℤ result }
    ensures high { result ≤ℤ pos 5000000 }
{
    match calendar {
        Calendar::Gregorian => gregorian_number(year, month, day),
        Calendar::Julian => julian_number(year, month, day),
        Calendar::Republican => republican_number(year, month, day),
    }
}

/// The number of a day of the Gregorian calendar.
fn gregorian_number(year: i16, month: u8, day: u8) -> i32
    requires low { negsuc 9998 ≤ℤ year }
    requires high { year ≤ℤ pos 9999 }
    requires day { HasDay Calendar.Gregorian year month day }
    ensures value { result ≡ days_from_civil year month day }
    ensures low { negsuc 4999999 ≤ℤ result }
    ensures high { result ≤ℤ pos 5000000 }
{
    match Date::new(year, month as i8, day as i8) {
        Ok(date) => date.to_plain().to_unix_epoch_day(),
        Err(_) => 0,
    }
}

/// The number of a day of the Julian calendar.
fn julian_number(year: i16, month: u8, day: u8) -> i32
    requires low { negsuc 9998 ≤ℤ year }
    requires high { year ≤ℤ pos 9999 }
    requires day { HasDay Calendar.Julian year month day }
    ensures value { result ≡ day_number Calendar.Julian year month day }
    ensures formula { result
        ≡ julian_formula year (days_of_months Calendar.Julian year (month - 1) + day) }
    ensures low { negsuc 4999999 ≤ℤ result }
    ensures high { result ≤ℤ pos 5000000 }
{
    let years = years_before(year);
    let days = 365 * years + (years + 3) / 4;
    let days = days + days_before(month) + leap_day_before(years, month) + day as u32 - 1;
    days as i32 - 4_372_030
}

/// The number of a day of the French Republican calendar.
fn republican_number(year: i16, month: u8, day: u8) -> i32
    requires low { negsuc 9998 ≤ℤ year }
    requires high { year ≤ℤ pos 9999 }
    requires day { HasDay Calendar.Republican year month day }
    ensures value { result ≡ day_number Calendar.Republican year month day }
    ensures formula { (n : ℕ) → year ≡ pos n → IsInRange 1 14 n
        → result ≡ republican_formula n month day }
    ensures low { negsuc 4999999 ≤ℤ result }
    ensures high { result ≤ℤ pos 5000000 }
{
    let days = 365 * years_before(year) + sextile_years(year);
    let days = days + 30 * (month as u32 - 1) + day as u32 - 1;
    days as i32 - 3_715_113
}

/// How many sextile years of the French Republican calendar lie before the year.
fn sextile_years(year: i16) -> u32
    ensures value { result ≡ sextile_years year }
    ensures high { result ≤ 3 }
{
    if year <= 3 {
        0
    } else if year <= 7 {
        1
    } else if year <= 11 {
        2
    } else {
        3
    }
}

/// The years from the year -10000 on.
fn years_before(year: i16) -> u32
    requires low { negsuc 9998 ≤ℤ year }
    requires high { year ≤ℤ pos 9999 }
    ensures value { year +ℤ pos 10000 ≡ pos result }
    ensures high { result < 20000 }
{
    (year as i32 + 10_000) as u32
}

/// The days before the month, in a year that is not leap.
#[tactic(auto, unfolding(crate::specs::Calendars::days_before_month))]
fn days_before(month: u8) -> u32
    requires low { 1 ≤ month }
    requires high { month ≤ 12 }
    ensures value { result ≡ days_before_month (month - 1) }
    ensures high { result ≤ 334 }
{
    match month {
        1 => 0,
        2 => 31,
        3 => 59,
        4 => 90,
        5 => 120,
        6 => 151,
        7 => 181,
        8 => 212,
        9 => 243,
        10 => 273,
        11 => 304,
        _ => 334,
    }
}

/// The leap days before the month.
fn leap_day_before(years: u32, month: u8) -> u32
    ensures value { result ≡ (if nat_lt 2 month && (years % 4 == 0) then 1 else 0) }
    ensures high { result ≤ 1 }
{
    if month > 2 && years % 4 == 0 { 1 } else { 0 }
}
