//! The lines of a record in a file, and the record that lines are read as.
//!
//! It uses `record_kinds`, whose records these are, and `record_fields` and `stored_lines` for the words of its
//! definitions. Its code is `Field`, the tags of events and the roles of entries; reading and writing are for the
//! crates above, which cite it.
//!
//! Callers may rely on its laws.
#![tactic(auto)]

mod field;
pub mod laws;
mod roles;
mod tags;

pub use field::Field;
pub use roles::is_role_of;
pub use tags::{is_family_tag, is_person_tag};
