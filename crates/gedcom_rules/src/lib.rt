//! The rules of a GEDCOM file, judged one line after another: what lines leave for the next one, and which
//! rule it breaks first.
//!
//! Of `gedcom_line` it uses the reading of a line.
//!
//! Callers may rely on: each line is judged only by the lines before it; the first faulty line decides; what
//! the bytes so far decide they decide however they go on. Tags have no meaning here, but for HEAD, TRLR,
//! CONC, CONT and the lines of the header that name the character set and the version.
#![tactic(auto)]

mod cutting;
mod deciding;
mod fault;
mod header;
mod judging;
pub mod laws;
mod seen;
mod standing;

pub use cutting::cut;
pub use deciding::{MAX_FILE, judge_end, judge_open, too_long};
pub use fault::{TreeFault, TreeKind};
pub use judging::{MAX_LINE, first_broken, judge_piece, of_line};
pub use seen::{Seen, is_continuation, is_trailer};
