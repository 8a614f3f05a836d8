//! Calendars, the dates that they have, and the days of a date.
//!
//! It uses `jiff`, by whose calls Gregorian dates are checked and counted, and no crate of
//! this repository.
//!
//! Callers may rely on: a date that is there exists in its calendar, so that `first_day` and
//! `last_day` ask for nothing and take no memory; days are numbered from 1970-01-01, day 0; in each
//! calendar the next day has the next number. How a date is spelt has no place here. Our rules
//! beside the calendars' own are in docs/FORMATS.md.
//!
//! A further calendar is one more variant of `Calendar` and one more clause where a definition goes
//! by calendars: `leap`, `month_days`, `last_month`, `day_zero`, `IsYearOf`, `HasYearsBefore`. The laws
//! hold for each calendar, so the check asks for its proof.
#![tactic(auto)]

mod calendar;
mod days;
mod existing;
pub mod laws;

pub use calendar::{Calendar, CalendarDate, Extent, Year};
pub use days::{first_day, last_day};
