//! What the fields of the archive's records are written with: texts and tags; refusals, with the table of
//! their numbers and names; and the names of persons, as they are displayed and compared.
//!
//! It uses `caseless` of the kit, and no other crate of the repository. What a record is, is for
//! `records` to say, which hands all of this on.
//!
//! Callers may rely on: a `Text` and a `Tag` are made only where the string is one, so what holds one need
//! not look again; the number and the name of each refusal stand only in `RefusalKind`; `display`,
//! `surname` and `surname_key` are functions of the bytes of a name.
#![tactic(auto)]

mod cutting;
mod naming;
mod refusal;
mod tag;
mod text;

pub use naming::{display, surname, surname_key};
pub use refusal::{Refusal, RefusalKind, RefusalText, Unit};
pub use tag::Tag;
pub use text::Text;
