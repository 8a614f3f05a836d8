//! The answers that are expected of rows: a file of answers as `apply` writes them, by the token of each.
//!
//! It uses `csv` and `request_csv` for how rows are read and written. It does no row: `expected_rows` does.
//!
//! Callers may rely on: of each token the answers are those of the file, in their order, as `apply` writes them; one
//! that is taken is expected no more; each row is looked at once, and a token is looked up in a map.
#![tactic(auto)]

mod expected;
mod reading;
mod stacks;

pub use expected::Expected;
