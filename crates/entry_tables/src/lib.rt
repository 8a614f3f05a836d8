//! The register entries of a source as a table, with the columns that a page of a spreadsheet has: so that a page can
//! come out of an archive, be looked over, and be compared.
//!
//! It uses `list_rows` for cells and rows. It looks at no archive.
//!
//! Callers may rely on: each entry has a row, and each of its mentions a cell in a column of its role.
#![tactic(auto)]

mod columns;
mod rows;
mod written;

pub use written::{Numbered, table};
