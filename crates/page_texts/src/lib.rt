//! The text of a page in UTF-8, whatever character set its file is in.
//!
//! It uses `character_sets`. It knows no cells and no rows.
//!
//! Callers may rely on: a mark of UTF-16 goes before the set that is given, and without both the bytes stay as they
//! are; what is half a character of UTF-16 gives no text.
#![tactic(auto)]

mod text;

pub use text::page_text;
