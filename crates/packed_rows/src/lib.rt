//! What the database keeps of a record in few bytes: its lines as one text, and back, and a link as one number.
//!
//! - `cutting`, `laws`, `numbers`, `reading`, `typing`, `words`, `writing`: the lines of a record, packed: one text
//!   that tells them, and the lines of such a text.
//! - `keys`, `laws`: the key of a link in a table: which number is named, and which record names it, in one number of
//!   64 bits.
//!
//! Callers may rely on:
//! - one text has one list of lines, and `unpack` answers it; it refuses a text that no lines have, with 40. Both go
//!   once over what they are given.
//! - two links never have one key, each number of 64 bits is the key of a link, and the keys of the links to one number
//!   are those from the first of them to the last.
#![tactic(auto)]

mod cutting;
mod keys;
pub mod laws;
mod numbers;
mod reading;
mod typing;
mod words;
mod writing;

pub use reading::{unpack, unpack_whole};
pub use writing::{pack, pack_whole};
