//! Pages of HTML of the masked records, for the reading room in a browser.
//!
//! It uses `masking`, whose masked state is all that it can see, `gedcom_export` for what belongs to a record, and
//! `html_parts` for what a page is made of.
//!
//! - `library`, `called`: a masked state with its index, what belongs to each record of it, and the pages of it; the
//!   persons without a surname.
//! - `framing`, `label`, `links`, `listing`: what all pages have: their frame, words, links, and sections with lists.
//! - `events`, `families`, `mentions`, `pedigrees`, `persons`: the pages, and what their lists show, each as parts that
//!   are appended.
//! - `laws`: what holds of the pages, whoever makes them.
//!
//! Callers may rely on: a page is that of its definition over the masked records and the name of the society. An
//! `AllocError` comes only where memory was refused.
#![tactic(auto)]

mod called;
mod events;
mod families;
mod framing;
mod label;
pub mod laws;
mod library;
mod links;
mod listing;
mod mentions;
mod pedigrees;
mod persons;

pub use events::in_brackets;
pub use framing::page_with;
pub use library::HtmlLibrary;
pub use links::{push_person_link, push_register_link};
pub use listing::{Listing, push_items, push_section};
pub use mentions::entry_words;
