//! The commits of an import that is staged: its batch is opened, its rows are written 256 at a time, and it is
//! published, each in one commit; and what an archive means after each of them.
//!
//! It uses `staging` for the rows inside a transaction, `staged_rows`, `store_rows` and `store_tables` for what rows
//! mean and what is written, and `sqlite`.
//!
//! Callers may rely on: where the disk is clean, each call leaves settled tables settled, with the rows that the
//! definitions say, and a stop within it leaves those or the rows of before; the laws say what such rows mean.
#![tactic(auto)]

mod beginning;
pub mod laws;
mod publishing;
mod stages;

pub use beginning::begin;
pub use publishing::publish;
pub use stages::stage;
