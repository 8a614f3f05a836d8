//! Rows of CSV for whoever opens a list as a spreadsheet: a cell that would be taken for a formula gets an apostrophe
//! before it.
//!
//! It uses the writer of `csv`. It knows no archive.
//!
//! Callers may rely on: no cell begins a formula; a reader of CSV gets the cells back, and no row is missing.
#![tactic(auto)]

mod cells;
pub mod laws;

pub use cells::{Row, push_numbered, push_pair, push_row};
