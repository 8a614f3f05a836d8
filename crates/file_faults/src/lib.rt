//! All faulty lines of a file: each with its first fault, and how it is displayed.
//!
//! It uses `gedcom_rules`, which judges a line by those before it, `gedcom_line` for the reading of a line,
//! `gedcom_tree` for the one fault of a file, and `devices`.
//!
//! Callers may rely on: the list depends only on the bytes of the file; its first line is the one fault that a file
//! has by `gedcom_tree`, and a file without one has an empty list; nothing is written before the list is whole.
#![tactic(auto)]

pub mod laws;
mod listing;
mod marks;
mod reading;
mod shown;
mod starts;
mod streams;
mod walking;

pub use starts::read_forest_from;
pub use streams::{Checked, write_faults};
pub use walking::list_faults;
