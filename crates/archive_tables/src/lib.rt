//! What goes into an archive, and comes out of it, as tables: pages of a register, looked over and entered; lists and
//! records, written as lines or as CSV.
//!
//! - `checking`, `remembering`, `whole`, `writing`: which records an archive that is open has, a line each, its records
//!   whole, what a record was before, and what is wrong with a page that would be entered on it, written as texts: for
//!   whoever keeps the archive, so nothing is masked.
//! - `entering`, `looking`, `request`, `row_batches`: pages and rows of register entries, entered on an archive that is
//!   open.
//! - `making`, `trying`: the places that a page lacks, made before it is entered.
//!
//! Callers may rely on:
//! - to write a list, records, a history or a check changes nothing in the archive; nothing is written unless all that
//!   is asked for was read.
//! - a page is read, its places are looked for, and one request makes all its entries or none. What it makes is a
//!   function of the cells, the order of dates, the source and the places of the archive; if the page, a place or a row
//!   is refused the archive stays as it was.
//! - places are made for a page only where the archive would take it with them; those that were made stay, whatever
//!   comes after.
#![tactic(auto)]

mod checking;
mod entering;
mod looking;
mod making;
mod remembering;
mod request;
mod row_batches;
mod sources;
mod trying;
mod whole;
mod writing;

pub use checking::{PageFound, write_check};
pub use entering::{PageEnd, enter_page};
pub use making::{MadePlace, enter_with_places};
pub use remembering::write_history;
pub use row_batches::enter;
pub use writing::{write_list, write_shown};
