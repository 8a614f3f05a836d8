//! The tasks of the program on an archive that is open, over any store and any streams.
//!
//! It uses `archive_input` for what is read, `archive_output` and `archive_tables` for what is written, and `store`,
//! whose archive all of them work on. It opens no file.
//!
//! Callers may rely on: `perform_task` ends as `Ends` says of the task, which has an arm for each: what was read, what
//! was written, the status, and what the archive holds then.
#![tactic(auto)]

mod auditing;
mod checking;
mod entering;
mod expecting;
mod faults;
mod hints;
mod importing;
pub mod laws;
mod libraries;
mod perform;
mod plain_exporting;
mod progress;
mod reporting;
mod status;
mod stopping;
mod tabling;
mod task;

pub use faults::FaultStream;
pub use hints::{advice, status_of_file};
pub use perform::perform_task;
pub use reporting::import_reported;
pub use status::{placeless, plain, refuse, status_of};
pub use task::{TableForm, Task};
