//! A correction of an archive: one field of a record put right, and what a new name of a place does to paths.
//!
//! It uses `field_changes` for what becomes of the record, `command_checks` for looks, `field_rows` and `entry_reading`
//! for how lines are read, and `record_changes` for the change of one record.
//!
//! Callers may rely on: `correct` over any view answers the changes that, made, are the step of the definition, or its
//! refusal, and changes nothing itself; the changes are only of what differs; `path_at` over any view answers the path
//! of a place; and the laws of `laws`.
#![tactic(auto)]

mod correcting;
mod entries;
mod known;
pub mod laws;
mod parents;
mod passing;
mod paths;
mod reading;
mod within;

pub use correcting::correct;
pub use paths::path_at;
