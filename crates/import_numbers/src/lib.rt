//! The numbers that an import draws: places that are found or made, records with numbers for positions.
//!
//! - `drawing`, `finding`, `found`, `settling`: places that are found or made while a file is read into an archive, and
//!   the numbers that are drawn.
//! - `event_parts`, `lines`, `person_parts`, `record_parts`, `renumbering`, `source_parts`: records that were read from
//!   a file, whose pointers are positions, with numbers in their place.
//! - `finishing`, `laws`: records that were read from a file, with numbers for positions, with their owners and the
//!   places of events.
//!
//! Callers may rely on:
//! - the archive is looked at once for each path; a place is made within the one above it, which has its number first;
//!   it is refused with 63 only where there is no number left.
//! - no text is copied; a position that has no number becomes 0.
//! - a record is changed in place, and no text is copied.
#![tactic(auto)]

mod drawing;
mod event_parts;
mod finding;
mod finishing;
mod found;
pub mod laws;
mod lines;
mod person_parts;
mod record_parts;
mod renumbering;
mod settling;
mod source_parts;

pub use drawing::{Drawing, Drawn};
pub use finding::{FilePlaces, Looks};
pub use finishing::{finish, made_place};
pub use found::Found;
pub use settling::{Spot, settle};
