//! Pages of register entries as spreadsheets write them: the cells of a sheet, and what its columns are.
//!
//! It uses `commands` for texts of cells and `record_fields` for the roles.
//!
//! Callers may rely on: what is read is a function of the bytes, and rows have the numbers that the sheet shows; a
//! sheet that cannot be read is refused with its first fault, with the row, the column and the cell.
#![tactic(auto)]

mod blanks;
mod cells;
mod columns;
mod fault;
mod headers;
mod line_ends;
mod separators;
mod sheet;
mod texts;

pub use columns::Column;
pub use fault::{FaultKind, PageFault};
pub use sheet::{Sheet, SheetRow, read_sheet};
