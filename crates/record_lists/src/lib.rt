//! What is listed of an archive, as one text: lines, or rows of CSV.
//!
//! It uses `searching`, `showing` and `doubts` for the lines, and `list_rows` and `entry_tables` for rows; it looks at
//! an archive by the `View` of `archive_state`, wherever that is.
//!
//! Callers may rely on: the text is that of the definition over the whole archive; nothing is changed.
#![tactic(auto)]

mod lines;
mod listed;
mod rows;

pub use listed::{Chosen, Listed};
pub use rows::list_text;
