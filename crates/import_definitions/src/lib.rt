//! What a file of lines makes of an archive, in definitions, and the nodes of a file that become records.
//!
//! - `kinds`, `laws`, `lines`, `roots`, `steps`: the nodes of level 0 of a file that become records, and the lines
//!   below them with positions for pointers.
//! - `laws`: what a forest makes of an archive: the records that its nodes are read as, with their numbers, and the
//!   report.
//!
//! Callers may rely on:
//! - which nodes become records depends only on the forest; a node that points at another at level 0 is kept exactly
//!   where that one is; no line is left out without a line of the report.
#![tactic(auto)]

mod kinds;
pub mod laws;
mod lines;
mod roots;
mod steps;

pub use kinds::{RootKind, kind_of};
pub use lines::lines_of;
pub use roots::{Roots, roots_of};
