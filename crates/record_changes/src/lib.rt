//! The change of one record of an archive: what it leaves, and that it keeps an archive sound.
//!
//! It uses `archive_state` for the view of an archive and for what changes, and `command_checks` for what changes
//! leave and how little they are.
//!
//! Callers may rely on: `replaces` answers the changes that put one record in place of another, and `unchanged` those
//! that put none; both change nothing themselves.
#![tactic(auto)]

mod changing;
pub mod laws;

pub use changing::{kept_if, replaces, unchanged};
