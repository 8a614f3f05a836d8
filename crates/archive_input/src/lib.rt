//! What an open archive takes in: rows of requests, and files of lines.
//!
//! - `answers`, `applying`, `bad_request`, `entering`, `laws`, `request`, `serving`, `telling`: rows of requests, read
//!   and answered as CSV.
//! - `faults`, `import_telling`, `importing`, `laws`: A file of lines, imported into an archive.
//!
//! Callers may rely on:
//! - a row asks for one request, or is refused for one reason; each row is answered by one row, which is written and
//!   flushed before the next row is decided; what is wrong with a row is reported beside it.
//! - a file is read whole, and is imported by one request or not at all; the report is only that of the file, also
//!   where the request was done before.
#![tactic(auto)]

mod answers;
mod applying;
mod bad_request;
mod entering;
mod faults;
mod import_telling;
mod importing;
pub mod laws;
mod request;
mod serving;
mod telling;

pub use answers::{bad_text, outcome_text};
pub use applying::{apply, apply_until_refused, blamed, row_place, stop_at};
pub use bad_request::BadRequest;
pub use entering::perform_once;
pub use faults::refusal_of;
pub use import_telling::{import_text, push_lines};
pub use importing::{import_forest, read_file};
pub use request::{read_in_form, read_request};
pub use serving::{answer_outcome, answer_refused, has_failed, look_up, serve_row};
pub use telling::tell_fault;
