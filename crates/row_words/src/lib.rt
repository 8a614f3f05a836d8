//! Rows of the programs for tests: words with tabs between, stored lines among them, and what is answered to a row.
//! No part of the product.
#![tactic(auto)]

mod answer;
mod lines;
mod rows;
mod states;

pub use answer::Answer;
pub use lines::line_of;
pub use rows::{number, optional_number, optional_text, text, word, words_of};
pub use states::{receipt_of, say_found, say_receipt, say_slip, slip_of, token_of};
