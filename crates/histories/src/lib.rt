//! The history of a number: what its record was before each request that overwrote it, what it is now, and the rows of
//! `apply` that put it back.
//!
//! It uses `showing` for a value as it is shown, `past_values` for those of before, and `put_back` for the rows; it
//! looks at an archive by the `View` of `archive_state`, wherever that is.
//!
//! Callers may rely on: the text is that of the definition; nothing is changed.
#![tactic(auto)]

mod page;
mod remarks;
mod rows;

pub use page::history;
