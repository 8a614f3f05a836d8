//! Two persons merged into one, and the merge undone.
//!
//! - `children_once`, `comparing`, `event_parts`, `merging`, `new_records`, `person_parts`, `record_parts`,
//!   `redirecting`, `source_parts`, `two_persons`: what a merge of two persons makes of each record, and whether two
//!   records are the same.
//! - `decide_merge`, `decide_undo`, `finding`, `laws`: merging two persons into one, and undoing it: what a merge
//!   changes, the slip that is kept of it, and that both leave a sound archive sound.
//!
//! Callers may rely on:
//! - `merged_at` answers what stands at a number after the merge, as the definition has it.
//! - the laws of `laws`.
#![tactic(auto)]

mod children_once;
mod comparing;
pub mod decide_merge;
pub mod decide_undo;
mod event_parts;
pub mod finding;
pub mod laws;
mod merging;
mod new_records;
mod person_parts;
mod record_parts;
mod redirecting;
mod source_parts;
mod two_persons;

pub use comparing::is_same;
pub use merging::merged_at;
