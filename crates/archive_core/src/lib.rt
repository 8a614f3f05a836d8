//! What a request does to an archive: its command is looked at, and either refused or done once, with its answer
//! kept under the request's token for good.
//!
//! It uses `archive_steps` for what each command of one row makes, `entry_batches` for what a batch of register entries
//! does and `imports` for an import, `archive_state` and `archive_state` for the view of an archive and for what
//! changes, `records` for what is in it, and `commands` for the commands and their digests.
//!
//! Callers may rely on: `decide` over any view answers the changes that, made, are the step of the definitions, or
//! its refusal, and changes nothing itself; `decide_import` does the same of a forest that no request has. `apply`
//! makes changes on a state, all of them or none, and `step` does both.
#![tactic(auto)]

mod applying;
mod importing;
pub mod laws;
mod machine;
mod request;

pub use applying::apply;
pub use importing::decide_import;
pub use machine::{decide, step};
pub use request::Request;
