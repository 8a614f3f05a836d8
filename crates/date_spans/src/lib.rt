//! The spans of the dates of records: the first and the last day that the date of an event or a register entry may
//! mean, and which of them meet the days from one to another.
//!
//! It uses `archive_state`, and of `gedcom_date` the value of a date and its span. Days are counted from 1970-01-01,
//! day 0.
//!
//! Callers may rely on: `between_days` answers what its definition says for any two days, also where the first is
//! after the second.
#![tactic(auto)]

mod between;
pub mod laws;
mod meeting;
mod record_spans;

pub use between::between_days;
pub use meeting::meets;
pub use record_spans::{span_of, spans};
