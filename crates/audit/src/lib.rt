//! The first fault of an archive: of its slips, and of all that it holds.
//!
//! - `judging`, `numbered`, `numbers`, `olds`, `part`, `persons`: is the slip of a merge sound? If not: which part of
//!   the rule it breaks.
//! - `fault`, `searching`, `slips`, `words`: is this archive sound? If not: the record or the slip that breaks the
//!   rule, and the part of it.
//!
//! Callers may rely on:
//! - `broken_slip` answers none only where the slip keeps all parts, and one that it names is broken.
//! - what is named breaks the rule as it says; where nothing is named the state is sound. Each record and each slip is
//!   looked at once for each part.
#![tactic(auto)]

mod fault;
mod judging;
mod numbered;
mod numbers;
mod olds;
mod part;
mod persons;
mod searching;
mod slips;
mod words;

pub use fault::Fault;
pub use searching::{first_fault, sound};
