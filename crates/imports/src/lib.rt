//! An import, from the forest of a file to the changes of an archive and the report.
//!
//! - `checking`, `keys`, `seconds`: the second of two entries of a file that have one source, kind, page and item: such
//!   a file is refused.
//! - `laws`: what holds of an archive that a forest was imported into.
//! - `below`, `drawn_batch`, `first`, `laws`, `lists`, `roots`: numbers drawn for what the nodes of a file are read as,
//!   and the records with their numbers.
//! - `batch`, `reading`, `reports`: what a forest makes of an archive: the batch of its records, and the report.
//! - `import`, `laws`: the import of a forest: what it looks at over a view, how it is refused, and which records it
//!   makes.
//! - `numbers`: the numbers that an import would give the nodes that become records.
//!
//! Callers may rely on:
//! - each entry is looked for once among the keys of those before it.
//! - numbers are drawn in the order of the lines; a draft is moved, and no text of it is copied but the paths of
//!   places; of a view only `place_at` is called.
//! - the batch is that of `made` of `import_definitions`, and the report that of `report`.
//! - `decide_import` over any view answers the changes that, made, are the step of the definitions, or its refusal, and
//!   changes nothing itself. An accepted import leaves a sound archive sound, uses no number again, and is answered
//!   with the numbers that it draws.
#![tactic(auto)]

mod batch;
mod below;
mod checking;
mod drawn_batch;
mod first;
mod import;
mod keys;
pub mod laws;
mod lists;
mod numbers;
mod reading;
mod reports;
mod roots;
mod seconds;

pub use batch::{batch_of, report_of};
pub use import::{decide_import, tell_forest};
pub use numbers::root_numbers;
pub use roots::{draw_drafts, draw_root};
