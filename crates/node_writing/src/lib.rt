//! The lines of records as nodes of a GEDCOM file: what they are, and the code that writes them.
//!
//! - `laws`: the lines of records as nodes of a file, with names for the numbers in their pointers, and the text that
//!   they have.
//! - `events`, `families`, `heads`, `laws`, `lines`, `named`, `persons`, `registers`, `side`, `sources`: the lines of
//!   records as text: each function appends the text of some lines to what is written already, and builds no node.
//!
//! Callers may rely on:
//! - an `Ok` has appended the text of the lines that the contract names, and nothing else; an `AllocError` comes only
//!   where memory was refused.
#![tactic(auto)]

mod events;
mod families;
mod heads;
pub mod laws;
mod lines;
mod named;
mod persons;
mod registers;
mod side;
mod sources;

pub use events::{push_citation, push_event};
pub use families::push_family;
pub use heads::{push_head, push_header, push_other_head};
pub use lines::push_carried;
pub use named::Named;
pub use persons::{push_person, push_side};
pub use registers::push_entry;
pub use side::Side;
pub use sources::{push_place, push_repo, push_source};
