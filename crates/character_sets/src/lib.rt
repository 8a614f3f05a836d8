//! Files in other character sets: the characters of ANSEL, UTF-16, Windows-1252, two code pages of DOS and MacRoman,
//! and a file in any of them as lines.
//!
//! - `ansel`, `code_pages`, `counts`, `cuts`, `laws`, `set`, `tables`, `texts`, `units`, `utf8`: the characters of
//!   files that are not in UTF-8: ANSEL, UTF-16, and the code pages of Windows, DOS and the Macintosh.
//! - `heads`, `laws`, `lines`, `moves`: A file in any character set as lines: where they end, their level and tag, and
//!   what a CONC was cut in.
//!
//! Callers may rely on:
//! - nothing is refused except out of memory, since U+FFFD stands for what the set has not; ASCII stays as it is in
//!   each set; each call goes once over what it is given.
//! - nothing is refused except out of memory; each unit is looked at a fixed number of times.
#![tactic(auto)]

mod ansel;
mod code_pages;
mod counts;
mod cuts;
mod heads;
pub mod laws;
mod lines;
mod moves;
mod set;
mod tables;
mod texts;
mod units;
mod utf8;

pub use code_pages::is_read_alike;
pub use counts::{marked_others, stray_bytes};
pub use heads::{KnownTag, LineHead, line_head, past_white};
pub use lines::{Cut, first_line, is_blank};
pub use moves::{Moved, moved_line};
pub use set::CharacterSet;
pub use texts::push_text;
pub use units::units_of;
pub use utf8::is_utf8;
