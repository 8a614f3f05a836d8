//! Files in other character sets converted aloud: what standard error says of a file that was converted, and the hint
//! of a file whose set is not known, or that should be converted first.
//!
//! It uses `file_conversion` for the set and the text of a file, `character_sets` and `character_sets` for its lines
//! and their characters, and `devices`. It knows no command and no number of a refusal.
//!
//! Callers may rely on: all that `file_conversion` promises of the reader and the writer; what is reported depends on
//! the bytes and on the set that is asked for only; nothing is reported before the whole text is written.
#![tactic(auto)]

mod aloud;
mod hints;
mod kinds;
mod pushes;
mod reading;
mod report;
mod tallies;
mod written;

pub use aloud::{Unconverted, convert_aloud};
pub use hints::char_hint;
