//! A record shown whole to whoever keeps the archive: its fields, its carried lines as GEDCOM, what it names and what
//! names it. Nothing is masked.
//!
//! It uses `searching` for the line of a record, `node_writing` for carried lines, and `archive_state` to look at
//! records, wherever they are.
//!
//! Callers may rely on: the text is that of the definition over the whole archive; no control character but line ends
//! is in it; nothing is changed.
#![tactic(auto)]

mod carrying;
mod details;
mod entries;
mod events;
mod fields;
mod named;
mod numbers;
mod persons;
mod showing;
mod slip_lists;
mod slips;
mod sources;
mod values;

pub use carrying::carried_text;
pub use showing::show;
pub use slip_lists::slip_page;
pub use values::show_value;
