//! Looks at an archive for the numbers of the records of some kinds, of which none is read.
//!
//! It uses `archive_state`, whose `View` has all other looks. Whether there is an index of kinds is for whoever keeps
//! the archive.
//!
//! Callers may rely on: the numbers are those of the records of these kinds, and no others, ascending.
#![tactic(auto)]

mod kinds;
mod looks;

pub use kinds::Kinds;
pub use looks::KindView;
