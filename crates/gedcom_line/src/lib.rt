//! One line of a GEDCOM file: read from its bytes without a copy, and written; values, escapes, and the
//! split of long texts.
//!
//! It uses no other crate.
//!
//! Callers may rely on: a line is read exactly where the grammar has one, and each fault is the first of
//! the table; what is written of a line is read as that line; what is escaped is unescaped to itself; the
//! parts of a text joined give the text, and each stands on one line.
#![tactic(auto)]

mod class;
mod escapes;
mod fault;
pub mod laws;
mod line;
mod splitting;
mod values;

pub use escapes::{escape, unescape};
pub use fault::{LineFault, LineKind};
pub use line::{LineRef, read_line, write_line};
pub use splitting::{Mark, TextPart, split_text};
pub use values::Value;
