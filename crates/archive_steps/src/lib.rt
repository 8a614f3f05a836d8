//! What each command of one row makes of an archive: what it looks at over a view, in which order it is refused, and
//! which records it puts.
//!
//! It uses `archive_state` for the view of an archive and for what changes, `commands` for the commands, and
//! `member_changes`, `place_names` and `merging` for some of them.
//!
//! Callers may rely on: `decide_row` over any view answers the changes that, made, are the step of the definitions, or
//! its refusal, and changes nothing itself; and the changes are only of what differs.
#![tactic(auto)]

mod entries;
mod events;
mod families;
mod making;
mod persons;
mod places;
mod removal;
mod rows;
mod sources;
mod words;

pub use entries::entry_of;
pub use making::kept_if;
pub use rows::decide_row;
pub use words::{tell_entry, tell_row};
