//! Commands as a request gives them: the verbs and their fields, and the bytes of a command, of which a digest is
//! kept under the request's token. This is the one home of the verbs and of the order of their fields.
//!
//! It uses `record_text` and `record_fields` for texts and dates, `gedcom_date` for the spelling of dates,
//! `corrections` for the words of the fields that a correction names, and `csv` and `sha2` of the kit. What a command
//! does to an archive is for `archive_core` to say.
//!
//! Callers may rely on: a row is read as one command, or refused for one reason, and the row of a command is read as
//! that command; the bytes of a command are its verb and its fields as one row of CSV, and its digest is their
//! SHA-256; no row, batch of entries or import has the bytes of another; a date is kept in canonical spelling, so that
//! two spellings of one date are one command.
#![tactic(auto)]

mod batch;
mod command;
mod correction;
mod correction_bytes;
mod correction_reading;
mod digest;
mod entry_bytes;
mod entry_reading;
mod entry_row;
mod field;
mod forest_bytes;
mod given;
pub mod laws;
mod member_bytes;
mod member_reading;
mod reading;
mod row_command;
mod rows;
mod verb;

pub use batch::{batch_bytes, import_bytes};
pub use command::Command;
pub use correction::{GivenCorrection, GivenValue};
pub use digest::{command_bytes, command_digest};
pub use entry_row::{EntryRow, EntryRows, GivenMention, GivenMentions};
pub use field::{Field, FieldRow};
pub use forest_bytes::forest_digest;
pub use given::GivenDate;
pub use row_command::RowCommand;
pub use verb::Verb;
