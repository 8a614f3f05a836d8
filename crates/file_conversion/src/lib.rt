//! Files of lines in the character sets that societies have them in, written in UTF-8.
//!
//! It uses `character_sets` for the characters, `character_sets` for the lines, and `devices`. It knows HEAD and CHAR.
//!
//! Callers may rely on: what is written depends only on the bytes; nothing is written before the whole file was read,
//! its set is known and its text is made; each line and each line end stays, but for the value of CHAR, a line CHAR
//! where there is none, and what a CONC was cut in.
#![tactic(auto)]

mod ascii;
mod char_values;
mod charsets;
mod converting;
mod deciding;
mod fault;
mod naming;
mod units;

pub use ascii::is_plain;
pub use char_values::{CharLines, char_lines};
pub use charsets::{NamedSet, set_number};
pub use converting::{convert, read_file, text_of_file, text_of_units, write_text};
pub use deciding::{Reason, next_number, set_and_reason, set_of_file};
pub use fault::ConversionError;
pub use naming::{named_by, said};
pub use units::{LeftOut, file_units, file_units_and_left_out};
