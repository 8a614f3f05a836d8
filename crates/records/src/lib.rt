//! How a record is kept as lines, and read again. What a record is, `record_kinds` says; texts, tags, refusals
//! and names are those of `record_text`, dates and words those of `record_fields`, carried and stored lines those
//! of `stored_lines`; all are handed on from here.
//!
//! It uses only these four.
//!
//! Callers may rely on: `record_of` gives back the record whose lines `lines_of` gave, and refuses the lines of no
//! record; `copy_record` gives the same record in memory of its own.
#![tactic(auto)]

mod entry_keys;
mod entry_parts;
mod event_parts;
mod field;
mod keeping;
mod kinds;
pub mod laws;
mod other_parts;
mod part;
mod person_parts;
mod reading;
mod source_parts;
mod writing;

pub use entry_keys::entry_key;
pub use keeping::{copy_record, lines_of, record_of};
