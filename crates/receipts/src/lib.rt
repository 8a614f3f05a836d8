//! What a request is known by and what it is answered: tokens, answers, and the receipts that are kept of
//! both; beside them the report of an import.
//!
//! It uses no other crate.
//!
//! Callers may rely on: a `Token` is 1 to 64 characters from `!` to `~`; a word of a report has one spelling.
#![tactic(auto)]

mod answer;
mod report;
mod token;

pub use answer::{Answer, Receipt};
pub use report::{Report, ReportLine, ReportWord};
pub use token::Token;
