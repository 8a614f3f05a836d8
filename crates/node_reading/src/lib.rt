//! What a line of level 0 of a GEDCOM file is read as, with all below it: places, repositories, sources and citations;
//! persons, families and their events; drafts of all of them.
//!
//! - `fields`, `places`, `sources`: places, repositories, sources and citations read from their lines, which are taken
//!   apart: no text of them is copied.
//! - `dates`, `events`, `located`, `owners`, `participants`: persons, families and their events read from their lines,
//!   which are taken apart: no text is copied.
//! - `drafts`, `kinds`: what a line of level 0 with all below it is read as: a record with what it owns.
//!
//! Callers may rely on:
//! - each reader answers exactly the record of its definition, and is refused only where memory was.
//! - each reader answers exactly the record of its definition with what it owns, and is refused only where memory was.
//! - `draft_of` answers exactly the draft of its definition, and is refused only where memory was.
#![tactic(auto)]

mod dates;
mod drafts;
mod events;
mod fields;
mod kinds;
mod located;
mod owners;
mod participants;
mod places;
mod sources;

pub use drafts::{Draft, draft_of};
pub use events::{EventDraft, EventPart};
pub use owners::{FamilyDraft, Owned, PersonDraft};
pub use places::place_of;
