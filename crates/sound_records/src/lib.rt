//! The first record that breaks a part of the rule of a sound archive: what lines can know of places, and which links
//! name what they have to.
//!
//! - `paths`, `seen`, `survey`: what is known of the records of a state: the tag of each that is written at level 0,
//!   and the paths of places.
//! - `demand`, `link_searching`, `linked`: the numbers in a record that do not name what they have to name.
//! - `alone`, `beside`, `event_tags`, `keys`, `part`, `searching`: do records keep the rule of a sound archive? If not:
//!   which record breaks which part of it.
//!
//! Callers may rely on:
//! - `paths_of` looks at each place once, and finds its path by that of the place above it.
//! - `first_unmet` answers the first of them in the order of the record, with what was demanded of it, and none only
//!   where each number names what it has to name.
//! - `first_breach` answers none only where all records keep all parts, and each one that it names breaks the part that
//!   it names. Each record is looked at once for each part.
#![tactic(auto)]

mod alone;
mod beside;
mod demand;
mod event_tags;
mod keys;
mod link_searching;
mod linked;
mod part;
mod paths;
mod searching;
mod seen;
mod survey;

pub use demand::{Demand, Unmet};
pub use part::{Breach, Part};
pub use searching::first_breach;
pub use survey::Survey;
