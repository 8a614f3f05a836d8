//! Pages of HTML that list records of an archive: the first page, and the pages of a register, of a
//! surname and of a search.
//!
//! It uses `html_pages`, whose `HtmlLibrary` of the masked records is all that it can see, and its lists and links.
//!
//! - `label`, `paging`: the words of these pages, and pages of 50 items.
//! - `lists`, `naming`: the records with their first page and with all names folded for searches, made once.
//! - `first_page`, `letters`, `registers`, `searches`, `surnames`: the pages, each as parts that are appended.
//! - `laws`: what holds of the pages, whoever makes them.
//!
//! Callers may rely on: a page is that of its definition over the masked records, the name of the society and what is
//! asked for. An `AllocError` comes only where memory was refused.
#![tactic(auto)]

mod first_page;
mod label;
pub mod laws;
mod letters;
mod lists;
mod naming;
mod paging;
mod registers;
mod searches;
mod surnames;

pub use lists::HtmlLists;
pub use registers::register;
pub use surnames::surname;
