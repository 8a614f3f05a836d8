//! A batch of register entries of one source: what it looks at over a view, in which order it is refused, and which
//! entries it makes.
//!
//! It uses `archive_steps` and `command_checks` for the entry of a row and its checks, `archive_state` and
//! `archive_state` for the view of an archive and for what changes, and `commands` for the rows.
//!
//! Callers may rely on: `decide_entries` over any view answers the changes that, made, are the step of the definitions,
//! or its refusal with the place of the row, and changes nothing itself; in a sound archive that step is the commands
//! of the rows one after the other. Its time grows with n log n, where n is how many rows there are.
#![tactic(auto)]

mod batch;
mod keys;
pub mod laws;
mod made;
mod row;
mod words;

pub use batch::decide_entries;
pub use words::tell_entries;
