//! An archive as a GEDCOM file: the forest that it is, the order of its lines, and the code that writes it.
//!
//! - `laws`: the forest that an archive is exported as: which records stand in it, in which order, and each line of it.
//! - `gathering`, `index`, `index_owned`, `laws`, `maps`, `membership`, `names`, `place_name`, `rank`: what the lines
//!   of an export show of other records, and what each record owns: gathered in one pass over all records.
//! - `output`, `owned`, `page`, `reading`, `writing`: the export of an archive: the text of its forest, written a
//!   record of level 0 at a time.
//!
//! Callers may rely on:
//! - an index made by `index_of` is that of the records of the state; what it answers of a number is found without a
//!   search through all.
//! - an `Ok` has written the whole text, and a refusal a beginning of it; each record is looked at once.
#![tactic(auto)]

mod gathering;
mod index;
mod index_owned;
pub mod laws;
mod maps;
mod membership;
mod names;
mod output;
mod owned;
mod page;
mod place_name;
mod rank;
mod reading;
mod writing;

pub use gathering::index_of;
pub use index::Index;
pub use index_owned::Owned;
pub use membership::Membership;
pub use rank::Rank;
pub use writing::{export, export_state};
