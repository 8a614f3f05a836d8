//! Sheets: pages of the masked records to read, to print and to take home.
//!
//! It uses `masking`, whose masked state is all that it can see, `gedcom_export` for what belongs to a record,
//! `sheet_lines` for who has which surname, and `sheet_lines` for the lines.
//!
//! Callers may rely on: a sheet is the text of its definition over the masked records; it is refused where no record
//! has the number (50), where it is of another kind (51), and if out of memory.
#![tactic(auto)]

mod ancestors;
mod events;
mod families;
mod gathering;
mod generations;
mod known;
pub mod laws;
mod library;
mod looks;
mod pages;
mod pedigrees;
mod persons;
mod registers;
mod surnames;

pub use ancestors::parent_of;
pub use families::family_sheet;
pub use generations::Generations;
pub use known::ancestor_words;
pub use library::Library;
pub use pages::{index_page, surname_page};
pub use pedigrees::pedigree;
pub use persons::person_sheet;
pub use registers::register_sheet;
pub use surnames::surnames_of;
