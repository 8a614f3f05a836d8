//! Who belongs to a family or took part in an event: a partner added, and partners, children and participants taken
//! out, with the carried lines of both sides of a membership.
//!
//! It uses `record_kinds`, whose families and events these are, `record_fields` for what a partner is, and
//! `record_text` for refusals.
//!
//! Callers may rely on: each call answers exactly the record of its definition, or refuses what the record by itself
//! forbids. It knows no archive: that a number names a person is for its callers to judge.
#![tactic(auto)]

mod families;
pub mod laws;
mod participants;

pub use families::{with_partner, without_child, without_partner};
pub use participants::without_participant;
