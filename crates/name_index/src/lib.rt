//! The names of records as a search compares them, folded once for many searches.
//!
//! It uses `searching`, which says what a text is folded to and when words occur in it.
//!
//! - `index`: the records with their names, and which of them are found.
//!
//! Callers may rely on: the numbers that are found are those of the records in one of whose names all words occur, in
//! the order in which they were added. An `AllocError` comes only where memory was refused.
#![tactic(auto)]

mod index;

pub use index::NameIndex;
