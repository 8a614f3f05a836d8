//! Dates of a calendar, as far as they are known.

ghost use Rattle.std.specs.Prelude.{◌≡◌, IfSome, IsSome};
ghost use Rattle.calendar_days.specs.Calendars.{IsExtent};
ghost use Rattle.calendar_days.specs.Props.{IsExtent-prop};

use crate::existing::has_extent;

/// How days are counted.
#[derive(Clone, Copy, Debug, PartialEq, Eq)]
pub enum Calendar {
    /// The civil calendar, reckoned back without end.
    Gregorian,
    /// Each fourth year is leap.
    Julian,
    /// The French Republican calendar: the years 1 to 14, of twelve months of thirty days and five
    /// or six days more.
    Republican,
}

/// A year of our era, as it is written.
#[derive(Clone, Copy, Debug, PartialEq, Eq)]
pub enum Year {
    /// `1731`.
    Single(u16),
    /// `1731/32`, by its earlier year.
    Double(u16),
}

/// How much of a date is known.
#[derive(Clone, Copy, Debug, PartialEq, Eq)]
pub enum Extent {
    /// `44 B.C.`.
    BeforeChrist(u16),
    /// `1731`.
    Whole(Year),
    /// `FEB 1731`: the month, from 1, and the year.
    Month(u8, Year),
    /// `11 FEB 1731`: the day, the month and the year.
    Day(u8, u8, Year),
}

/// A date of a calendar, which has that day, month or year.
#[derive(Clone, Copy, Debug, PartialEq, Eq)]
pub struct CalendarDate {
    /// The calendar in which it is given.
    pub calendar: Calendar,
    /// What is known.
    pub extent: Extent,
    ghost exists: { IsExtent calendar extent } by { IsExtent-prop calendar extent },
}

impl CalendarDate {
    /// The date of a calendar; none where the calendar does not have that day, month or year.
    pub fn new(calendar: Calendar, extent: Extent) -> Option<CalendarDate>
        ensures found { IfSome result (λ date.
            (date.calendar ≡ calendar) × (date.extent ≡ extent)) }
        ensures every { IsExtent calendar extent → IsSome result }
    {
        if has_extent(calendar, extent) {
            Some(CalendarDate { calendar, extent })
        } else {
            None
        }
    }
}
