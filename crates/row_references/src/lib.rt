//! References in rows of requests: `@` and a token in a field that names a record or a slip, for the first number of
//! the answer that is kept for that token.
//!
//! It uses `commands` for the verbs, and looks at receipts through the `View` of `archive_state`.
//!
//! Callers may rely on: a row's references are exactly replaced, or nothing is answered; all other fields stay as they
//! are; a row without references stays as it is.
#![tactic(auto)]

mod entries;
mod fields;
pub mod laws;
mod naming;
mod numbering;
mod words;

pub use entries::{has_place_reference, place_number, with_any_place, with_place};
pub use fields::{copied, token_in};
pub use naming::has_references;
pub use numbering::{numbered, with_any_numbers};
pub use words::{NumberWord, number_in};
