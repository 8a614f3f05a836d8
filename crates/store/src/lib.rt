//! A society's archive in one SQLite file: made, opened, asked and changed by requests, each of which is done before it
//! is answered: an import in steps, and any other in one commit.
#![tactic(auto)]

mod adopting;
mod archive;
mod auditing;
mod beginning;
mod committing;
mod days;
mod deciding;
mod failing;
mod given;
mod importing;
pub mod laws;
mod looking;
mod open_imports;
mod overwriting;
mod performing;
mod reading;
mod recalling;
mod staged;
mod viewing;
mod whole_imports;

pub use archive::{Archive, society_named};
