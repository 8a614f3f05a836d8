//! What a report of an import says, before the import is done: the lines of the header, which make no record, under
//! which number each record of the file will be that has a cross reference, and what is not taken over as it stands.
//!
//! - `heads`, `numbered`: the texts. `reports`: the report over an archive as a view shows it. `writing`: the report
//!   over an archive that is open, written.
//!
//! Callers may rely on:
//! - a line for each line of the header but those of CHAR and GEDC and all below them; and one for each node that
//!   becomes a record and has a cross reference, in the order of the file, with the number of its position.
//! - the numbers are those that the import draws if nothing else changes the archive before; nothing is changed.
//! - nothing is written where the token has an answer, or where the archive would not take the file.
#![tactic(auto)]

mod heads;
mod numbered;
mod reports;
mod writing;

pub use writing::write_report;
