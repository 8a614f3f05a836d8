//! What the fields of records hold beside texts: dates in canonical spelling, the numbers of register entries,
//! and the values that have a word each, as the quality of a citation and the role of a mention.
//!
//! It uses `record_text` and `gedcom_date`. Which record has which field is for `records` to say, which
//! hands all of this on.
//!
//! Callers may rely on: a `Date` is a text in the canonical spelling of what it says, an `Item` is a number in
//! its range, and a word is that of one value at the most, which `from_word` finds.
#![tactic(auto)]

mod date;
mod entry_words;
mod item;
mod words;

pub use date::Date;
pub use entry_words::{EntryKind, Role};
pub use item::Item;
pub use words::{Partnership, Quality, Sex};
