//! The rows of an import that is staged, and what an archive means while it is open: definitions and laws, no code.
#![tactic(auto)]

pub mod laws;
