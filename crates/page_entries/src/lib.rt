//! The register entries of a page: what the rows of a sheet say.
//!
//! It uses `table_pages` for the cells of the sheet, `commands`, `record_fields` and `record_text` for what a row of a
//! batch has, `gedcom_date` for dates, `record_shapes` for the roles of a kind, `field_rows` for paths and `receipts`
//! for tokens.
//!
//! Callers may rely on: the entries are those of all rows, in their order, or the first fault is named with its row,
//! its column and its cell. A place is a number, a token or a path; whether there is one is not asked. What a cell
//! means, and what is wrong with it, can be asked of each cell.
#![tactic(auto)]

mod checks;
mod dates;
mod digits;
mod entries;
mod months;
mod pages;
mod places;
mod under;

pub use checks::{role_fault, text_fault};
pub use dates::{DateOrder, PageDate, date_in};
pub use digits::item_in;
pub use entries::{PageEntry, cell_under, kind_in, read_page};
pub use pages::is_doubtful_page;
pub use places::{PagePlace, place_in};
pub use under::{cell_at, mentions_in};
