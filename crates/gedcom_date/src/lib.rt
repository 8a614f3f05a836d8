//! Dates of GEDCOM 5.5.1, chapter 2, DATE_VALUE: read, written, and the days that they may mean.
//!
//! It uses `calendar_days` for calendars and their dates.
//!
//! Callers may rely on: each text has one value, and one that fits no form is kept as it stands;
//! what is written is read as the same value; a value that is there is a good one, so that `span`
//! and `write_date` ask for nothing; `span` takes no memory. Days are numbered from 1970-01-01,
//! day 0. Our rules beside the standard's are in docs/FORMATS.md.
#![tactic(auto)]

mod approximation;
mod before;
mod days;
mod fault;
mod forms;
mod keyword;
pub mod laws;
mod period;
mod phrase;
mod reading;
mod refusals;
mod texts;
mod value;
mod words;
mod writing;

pub use approximation::Approximation;
pub use before::read_date_before;
pub use days::span;
pub use fault::{DateFault, DateKind};
pub use forms::read_date;
pub use period::Period;
pub use texts::{Interpreted, Phrase, Verbatim};
pub use value::{DateValue, Span};
pub use writing::write_date;
