//! Looks at whole tables: whether the rows agree with the records, and which records lie between two days.
//!
//! - `beside`, `flaw`, `judging`, `linking`, `reading`, `seeking`, `spanning`: are the tables of an archive good? They
//!   are read whole, and what they mean is judged by the rule of a sound archive, and the spans, the links and the rows
//!   of what is looked for that they have by its records.
//! - `finding`: the events and register entries of an archive between two days, found by the spans of its tables.
//!
//! Callers may rely on:
//! - an answer only where the tables are good, 40 only where they are not, and nothing is written.
//! - nothing is written, and no record is read.
#![tactic(auto)]

mod beside;
mod finding;
mod flaw;
mod judging;
mod linking;
mod reading;
mod seeking;
mod spanning;

pub use finding::between_days;
pub use flaw::Flaw;
pub use reading::judge_tables;
