//! Rows of requests that are performed as long as each is answered as another run has answered it.
//!
//! It is no reader of files of answers, which is `expected_answers`, and opens no archive.
//!
//! Callers may rely on: a row that would be answered otherwise is not done and not answered, and no row after it; what
//! is done, answered and reported of the rows before it is that of `apply`.
#![tactic(auto)]

mod expecting;
mod foreseeing;
mod meeting;

pub use expecting::{Ending, apply_as_expected};
