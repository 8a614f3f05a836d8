//! Who belongs to a family or took part in an event, changed in an archive: a partner added, and partners, children and
//! participants removed.
//!
//! It uses `memberships` for what becomes of a family or an event, `command_checks` for the looks before it, and
//! `record_changes` for the change of one record and its refusals.
//!
//! Callers may rely on: each call over any view answers the changes that, made, are the step of the definitions, or its
//! refusal, and changes nothing itself; the changes are only of what differs; and the laws of `laws`.
#![tactic(auto)]

mod families;
pub mod laws;
mod participants;

pub use families::{partner, unchild, unpartner};
pub use participants::unparticipant;
