//! What a plain export leaves out, as the lines of a report.
//!
//! It uses `plain_export`, which finds the records. It writes nothing.
//!
//! - `lines`: the report. `laws`: what is counted is what a plain archive has not.
//!
//! Callers may rely on: a kind of which nothing is left out has no line.
#![tactic(auto)]

pub mod laws;
mod lines;

pub use lines::left_out_text;
