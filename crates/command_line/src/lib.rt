//! The words of the command line, read in one place and turned into a value of our own.
//!
//! It uses `clap`, of which the crates above know nothing, and `jiff` for the day of `--today`.
//!
//! Callers may rely on: nothing is printed and nothing ends here. The texts that come back are
//! whole, with their last LF: those that were asked for are for standard output, those of refused
//! words for standard error.
#![tactic(auto)]

mod arguments;
mod choosing;
mod days;
mod entering;
pub mod laws;
mod reading;
mod refusing;
mod shells;
mod showing;
mod subcommands;
mod tasks;
mod texts_finding;
mod texts_in;
mod texts_out;
mod words;

pub use reading::read_words;
pub use tasks::{
    Asked, ListKind, OrderName, RecordKind, Refused, RoomPages, SetName, SheetKind, TableWords,
};
