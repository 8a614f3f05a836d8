//! A task on the archive in a file, and what holds of the file over all runs of the program and all stops.
//!
//! - `laws`, `tasks_on_files`: tasks on the archive in a file and the log beside it.
//! - `laws`: what holds of an archive in a file over all runs of the program, and all stops: what a run keeps of its
//!   requests and tells of them, and a law over lists of runs.
//! - `hints`: why the file was not opened, made or written, as it is said.
//! - `closing`, `laws`: what a run of the program leaves of the archive in a file: laws, and the close of the file.
//!
//! Callers may rely on:
//! - what is left of the file is handed back in any case, so that a contract can say what its archive holds then; the
//!   caller closes it.
//! - what is found in the file after a run, or after a stop in it, is what the requests made of the archive that were
//!   kept of the run, so that runs compose by the law of `archive_runs`.
#![tactic(auto)]

mod closing;
mod hints;
pub mod laws;
mod tasks_on_files;

pub use closing::{close_file, stop_file};
pub use hints::{say_no_place, status_of_opening};
pub use tasks_on_files::{import_on_file, perform_on_file};
