//! The values that records had before a request, read of their rows.
//!
//! It uses `store_tables` for the rows of a number, and `earlier_values` for the record of a text.
//!
//! Callers may rely on: there is one value for each row, in the order of the rows, each with the key and the token of
//! its row; 40 only where one of these rows cannot be read; nothing is written.
#![tactic(auto)]

mod reading;

pub use reading::{PastValue, Recalled, past_values, recall};
