//! A page of register entries, looked over against an archive: what of it would be refused, and what is doubtful.
//!
//! It uses `table_pages` and `page_entries` for the page, `page_answers` for what an archive answers for its rows, and
//! `searching` for texts as they are printed.
//!
//! Callers may rely on: each row is looked at, whatever is wrong with those before it; the lines are those of the
//! definition, of the page and of what the archive has; the archive is only looked at, by a `View`, which no call
//! changes.
#![tactic(auto)]

mod cells;
mod findings;
pub mod laws;
mod lines;
mod page;
mod refusing;
mod rows;
mod unread;

pub use page::{PageCheck, check_page};
pub use refusing::{page_lines, refused_line};
pub use unread::fault_lines;
