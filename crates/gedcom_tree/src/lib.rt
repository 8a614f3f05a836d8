//! Forests of GEDCOM lines: read from a stream in any pieces, and written.
//!
//! It uses `gedcom_rules`, which judges the lines, of `gedcom_line` the writing of one line, values, escapes and the
//! split of texts, and `devices`.
//!
//! Callers may rely on: the forest, or the fault and its line, depends on the bytes and not on how they
//! were cut; a reader that has met a fault answers it from then on; what is written is read as the same
//! forest. Tags have no meaning here, but for HEAD, TRLR, CONC, CONT and the lines of the header that name
//! the character set and the version.
#![tactic(auto)]

mod comparing;
mod ended;
mod forest;
mod growing;
pub mod laws;
mod node;
mod normal;
mod reader;
mod tag;
mod writing;

pub use forest::Forest;
pub use node::{Node, NodeValue};
pub use normal::{normalise, read_forest};
pub use reader::TreeReader;
pub use tag::Tag;
pub use writing::{push_node, push_text, write_forest};
