//! What holds of an export that is read again: it is a forest, its records stand in order, and an empty archive that
//! imports it has the same records, up to their numbers. It has definitions and laws, and no code.
//!
//! - `laws`: what holds between the export of an archive and the forest that is read again: each record has its place
//!   in the file, and its nodes are found again.
//! - `laws`: the records that a file with an export is read as: those of the archive, with positions of nodes in place
//!   of their numbers.
//! - `laws`: the export of a sound archive is a forest, so that its text is read as that forest.
//! - `laws`: what an archive's export gives when it is read into an empty archive: the same records, up to their
//!   numbers.
//!
//! Callers may rely on:
//! - its law.
#![tactic(auto)]

pub mod laws;
