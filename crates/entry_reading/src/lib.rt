//! Register entries read from their lines: the entry is guessed, field by field, and its lines are compared.
//!
//! It uses `field_rows`, for what a line is, and the definitions of `record_shapes`.
//!
//! Callers may rely on: `entry_of` answers exactly the entry of its definition, and is refused only where memory was.
#![tactic(auto)]

mod comparing;
mod guessing;
mod lines;
mod reading;
mod rules;

pub use reading::entry_of;
