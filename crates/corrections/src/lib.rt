//! Corrections: a value put in place of one field of a record, and all else of it left as it is.
//!
//! It uses `record_kinds`, whose records are corrected, `record_fields` and `record_text` for the values of fields and
//! for refusals, `record_shapes` for the roles of register entries, and `field_rows` for what a normal name of a place
//! is.
//!
//! Callers may rely on: a word is that of one field at the most, which `Field::from_word` finds; `has_field` says
//! which fields a record has; `corrected` makes exactly the record of the definition, with all carried lines, or
//! refuses what the record by itself forbids. It knows no archive: whether a number names a place, which tags an
//! owner's events have, and what other records say, is for its callers to judge.
#![tactic(auto)]

mod correction;
mod entries;
mod events;
mod field;
pub mod laws;
mod persons;
mod places;
mod position;
mod sources;

pub use correction::{Correction, corrected};
pub use field::{Field, TextField, has_field};
pub use position::Position;
