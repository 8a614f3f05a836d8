//! Rows that are inserted several at a time: eight links, or four rows of `record`, by one statement.
//!
//! It uses `store_tables`, which inserts one row at a time, and `sqlite`. When a transaction begins and ends is for its
//! callers.
#![tactic(auto)]

mod links;
mod records;

pub use links::insert_links;
pub use records::{NewRecord, insert_records};
