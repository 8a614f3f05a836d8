//! The register entries of a page as a batch: with the numbers of the places that an archive has.
//!
//! It uses `page_entries` for the page, `commands` for the rows of a batch, `command_checks` and `archive_state` for
//! what an archive has, and `page_checks` for the line of a cell.
//!
//! Callers may rely on: the rows are those of the entries, in their order, each with the number of the place that its
//! cell names; where the archive has none, no row is answered but the number of the first such row, with its cell. The
//! digest is of the entries as the page has them, so that it does not change with the numbers of places.
#![tactic(auto)]

mod digest;
mod looks;
mod making;
mod places;
mod placing;
mod rows;
mod words;

pub use digest::page_digest;
pub use looks::places_on;
pub use making::{PageNews, news_on};
pub use places::Places;
pub use placing::{parent_on, place_token};
pub use rows::{BatchRefusal, row_place, rows_with, unplaced};
pub use words::{count_words, numbers_of};
