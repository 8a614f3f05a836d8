//! Archives of an older version: their records read as what they are today, and their rows written anew.
//!
//! - `dates`, `laws`, `lines`, `reading`: records of tables that were written before the grammar had French Republican
//!   dates, read anew: a date that fitted no form of the grammar of that time, and fits one now, is written in its
//!   canonical spelling; all else stays.
//! - `anew`, `laws`, `renewal`, `renewing`, `sides`, `writing`: rows of the first version, read anew: an archive whose
//!   dates were read by the grammar before French Republican dates becomes one of the second version, in one
//!   transaction, with the spans of its records.
//!
//! Callers may rely on:
//! - `read_anew` answers what a record that was kept as the lines is today, and refuses only lines that no record was
//!   kept as.
//! - `renew` leaves settled tables with rows of the second version that mean today what the rows meant, or refuses; a
//!   stop within it leaves those or the rows of before.
#![tactic(auto)]

mod anew;
mod dates;
pub mod laws;
mod lines;
mod reading;
mod renewal;
mod renewing;
mod sides;
mod writing;

pub use anew::{Anew, RecordAnew, Renewal, SlipAnew};
pub use renewal::renewal_of;
pub use renewing::renew;
pub use writing::write_renewal;
