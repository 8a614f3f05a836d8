//! The lines of pages that people read, and the numbers of persons by the keys of their surnames.
//!
//! - `events`, `families`, `pages`, `persons`, `registers`, `words`: the lines of sheets, which people read: each
//!   function appends lines to what is written already.
//! - `index`: who has which surname, so that the persons of one are found without a walk over all.
//!
//! Callers may rely on:
//! - an `Ok` has appended the text that the contract names, and nothing else; an `AllocError` comes only where memory
//!   was refused.
//! - the persons of a surname are those that were added under one with the same key, in that order; who is added again
//!   right after is there once.
#![tactic(auto)]

mod events;
mod families;
mod index;
mod pages;
mod persons;
mod registers;
mod words;

pub use events::{push_citation, push_event_line, push_participant};
pub use families::{push_child, push_family_head, push_partner};
pub use index::SurnameIndex;
pub use pages::{push_ancestor, push_ancestor_words, push_index, push_surname};
pub use persons::{push_child_of, push_names, push_partner_in, push_person_head, push_sex};
pub use registers::{push_entry, push_register_head};
pub use words::{display_of, push_dated, push_printed};
