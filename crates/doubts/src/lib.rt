//! What is doubtful in an archive, a line each: for whoever keeps it, so nothing is masked.
//!
//! It uses `searching` for how lines are printed and `date_spans` for the days of dates, and looks at the records of an
//! archive one at a time.
//!
//! - `doubt`: what is doubtful of a record, and the lines of all that is.
//! - `fact`, `known`: what records say that others are compared with, and what that shows together.
//! - `single`, `compared`, `entries`: what is doubtful of a record.
//! - `review`: the lines of all doubts.
//!
//! Callers may rely on: the lines are those of the definition over the whole archive, by kind of doubt and number; no
//! line has a control character; nothing is changed. They do not show all that is wrong.
#![tactic(auto)]

mod compared;
mod doubt;
mod entries;
mod fact;
mod known;
mod review;
mod single;

pub use review::review_archive;
