//! The rows of `apply` that put back what a record had before.
//!
//! It uses `record_kinds`, whose records are compared field by field. It knows no archive.
//!
//! - `row`: a row, without its token.
//! - `persons`, `families`, `events`, `sources`, `entries`: what is put back of each kind of record.
//! - `back`: of a record. `laws`: one that is as it was needs no row.
//!
//! Callers may rely on: the rows are those of the definition. What came later stays, and some of what was there before
//! no row puts back: carried lines, the order of members, an empty name, that a title or the name of a repository was
//! missing.
#![tactic(auto)]

mod back;
mod entries;
mod events;
mod families;
pub mod laws;
mod persons;
mod row;
mod sources;

pub use back::rows_back;
pub use row::Row;
