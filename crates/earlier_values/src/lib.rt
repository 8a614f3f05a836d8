//! The values that records had before: which of them a request overwrites, and the text that is stored of each.
//!
//! It uses `records` and `packed_rows` for the lines of a record and their text, and `archive_state` for the view of an
//! archive and for what changes.
//!
//! Callers may rely on: a text is that of one record at the most, and `record_of_past` answers it or refuses with 40;
//! `overwritten` answers the records that stand at the numbers that changes touch, in the order of the changes, and
//! changes nothing itself; and the laws of `laws`.
#![tactic(auto)]

pub mod laws;
mod overwriting;
mod texts;

pub use overwriting::overwritten;
pub use texts::{past_text, record_of_past};
