//! What an open archive gives: its export, what may be shown of it, sheets, and what lies between two days.
//!
//! - `exporting`, `reading`, `texts`: an archive that is open, wherever its tables are, written as a GEDCOM file.
//! - `laws`, `public_writing`: public exports: what is shown of an archive, written as a GEDCOM file.
//! - `plain_publishing`, `plain_writing`: the plain archive of an archive that is open, whole or of what is shown,
//!   written as a GEDCOM file that other programs take.
//! - `publishing`, `sheet`, `shelf`, `showing`, `shown_writing`: what is shown of an archive that is open, wherever its
//!   tables are: its sheets, its public export, and what a reading room has of it.
//! - `day_writing`, `finding`, `lines`, `paths`: the events and register entries of an archive that is open between two
//!   days, as lines.
//!
//! Callers may rely on:
//! - the archive is not changed; with `Ok` the writer has got the whole text, else a beginning of it; of an archive
//!   that can be read no refusal is 40.
//! - the text is that of an export of the masked records, and nothing that is hidden changes it.
//! - nothing is written that is not made of the masked state of the archive on that day, and the archive is not
//!   changed.
//! - the archive is not changed; nothing is written where the first day is after the last.
#![tactic(auto)]

mod day_writing;
mod exporting;
mod finding;
pub mod laws;
mod lines;
mod paths;
mod plain_publishing;
mod plain_writing;
mod public_writing;
mod publishing;
mod reading;
mod sheet;
mod shelf;
mod showing;
mod shown_writing;
mod texts;

pub use day_writing::write_days;
pub use exporting::write_archive;
pub use plain_publishing::write_public_plain;
pub use plain_writing::write_plain;
pub use publishing::write_public;
pub use sheet::{Sheet, sheet_of};
pub use shelf::Shelf;
pub use showing::{shelf_of, shown_of};
pub use shown_writing::write_sheet;
pub use texts::write_text;
