//! One field of a record of an archive, put right: what the record becomes, how that is refused by what else is in the
//! archive, and the changes.
//!
//! It uses `corrections` for what becomes of the record by itself, `command_checks` for looks at other records,
//! `field_rows` for what carried lines are, and `record_changes` for the change of one record.
//!
//! Callers may rely on: each call over any view answers what its definition says, or its refusal, and changes nothing
//! itself; the changes are only of what differs. What a new name of a place does to paths is for callers to judge.
#![tactic(auto)]

mod carrying;
mod changing;
mod given;
mod keys;
pub mod laws;
mod tags;

pub use changing::{changed_record, put_changed};
pub use tags::correct_tag;
