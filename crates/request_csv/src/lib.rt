//! Rows of CSV that are no requests yet: batches of register entries as they are read, and which field a refusal means.
//!
//! - `batch_rows`, `fields`, `laws`, `reading`: the rows of a batch of register entries, read as CSV, and their entries
//!   with the numbers that an archive has for their references.
//! - `columns`, `finding`, `forms`, `line`, `sentences`, `types`: what is wrong with a row that was refused, as one
//!   line for who wrote it.
//!
//! Callers may rely on:
//! - the entries are those of all rows, in their order, or the first row that is none is named with the reason; the
//!   reader is blamed only where its count of failures has risen.
//! - the line tells the number of the row, the number and the name of the refusal, and what is wrong; nothing of the
//!   row itself stands in it.
#![tactic(auto)]

mod batch_rows;
mod columns;
mod fields;
mod finding;
mod forms;
pub mod laws;
mod line;
mod reading;
mod sentences;
mod types;

pub use batch_rows::{BatchRow, BatchRows};
pub use fields::text_fields;
pub use line::fault_line;
pub use reading::{read_entries, reading_failed};
