//! Trees of lines, and the lines as they are stored: a branch is a line with those below it, and a stored
//! line has its depth. Carried lines, which a record keeps beside its fields, are branches too.
//!
//! It uses `record_text`, whose texts and tags are on the lines. What the words on lines mean is for
//! `records` to say.
//!
//! Callers may rely on: lines are those of one branch at the most, and `branch_of_lines` finds it where it has at most
//! 128 levels; carried lines, which have at most 99, are read again from the branches that they are made.
#![tactic(auto)]

mod branch;
mod carried;
mod comparing;
pub mod laws;
mod stored;

pub use branch::{Branch, branches_of, carried_of, copied, value_of};
pub use carried::{Carried, Value};
pub use comparing::{are_same, are_same_branches};
pub use stored::{StoredLine, branch_of_lines, lines_of_branch};
