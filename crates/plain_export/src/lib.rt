//! An archive as GEDCOM that other programs read, without tags of our own.
//!
//! It stands on `gedcom_export`, which writes the plain archive as it writes any, on `archive_state` for what an
//! archive holds, and on `sheet_lines` for the name by which a person is displayed.
//!
//! - `kept`, `parts`: carried lines that are kept, and parts of records with them.
//! - `words`, `lines`: the texts of notes, and lines made of them.
//! - `firsts`: the event that a mention is of. `noted`: what cites an entry, and the notes of its mentions.
//! - `added`, `events`, `entries`, `gathering`: what events and register entries add to other records.
//! - `allowed`: what the standard allows in names, families and events. `one_line`, `pages`: the same in texts of one
//!   line. `kinds`, `making`: the plain archive.
//! - `writing`: its export. `laws`: what the plain archive has. `left_out`, `naming`: what it has not.
//!
//! Callers may rely on: the text that is written is that of the plain archive of `specs/Plain`; a record is looked at
//! a few times and found in maps and sorted lists, so that the whole is linear but for these.
#![tactic(auto)]

mod added;
mod allowed;
mod entries;
mod events;
mod firsts;
mod gathering;
mod kept;
mod kinds;
pub mod laws;
mod left_out;
mod lines;
mod making;
mod naming;
mod noted;
mod one_line;
mod pages;
mod parts;
mod words;
mod writing;

pub use left_out::{our_own_records, places_with_lines, second_sexes};
pub use naming::unnamed_places;
pub use writing::export_plain;
