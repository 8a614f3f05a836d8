//! What an archive holds, in memory, what a sound archive is, which numbers a record names, and how the layers above
//! look at an archive, wherever it is.
//!
//! - `laws`, `naming`: the numbers in a record, and whether it names one.
//! - `changes`, `keys`, `laws`, `paths`, `slip`, `state`: the state of an archive: records by their numbers, the next
//!   number, the receipts that are kept under tokens, and the slips of merges. Here, too, is what a request or an
//!   import changes. Tokens, answers, receipts and reports are those of `receipts`, and are handed on from here.
//! - specs and proofs: A record in which each number is changed to another: what stays of it, and what it names then.
//! - `view`: the view through which the layers above look at what an archive holds, wherever that is.
//!
//! Callers may rely on:
//! - all fields of a record are looked at, and all its carried lines at any depth.
//! - a call of `State` answers what the maps have, and one that changes them makes that one change and no other.
//! - the laws below `proofs`.
//! - a `View` that is honest at a call's end was honest at its start, what it showed then it shows still, and what the
//!   call answered is in the content of that; else it answers a refusal, and one that is a failure of its own reads
//!   only where its count of failures rose. A reference to a `State` is such a view: honest always, and without
//!   failures.
#![tactic(auto)]

mod changes;
mod keys;
pub mod laws;
mod naming;
mod paths;
mod slip;
mod state;
mod view;

pub use changes::{Batch, Changes, Kept, Numbered, SlipChange};
pub use keys::is_entry_of;
pub use naming::is_naming;
pub use slip::{Change, Slip};
pub use state::State;
pub use view::View;
