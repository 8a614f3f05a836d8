//! An import that is staged: its rows are written in commits of 256, it is published, or removed again.
#![tactic(auto)]

pub mod clearing;
mod cursor;
mod dated;
mod finding;
mod later;
mod linked;
mod looked_for;
mod opened;
mod progress;
mod removing;
mod writing;

pub use opened::OpenImport;
pub use progress::{Progress, RowCount, Silent};
pub use removing::{remove_batch, remove_open};
pub use writing::{publish_rows, stage_rows};
