//! What an archive answers for the rows of a page: why it would refuse their places, which places are to be made and
//! what those are like, and whether it has their keys.
//!
//! It uses `page_entries` for what a cell means, `command_checks` for what an archive refuses, `page_places` for what
//! is to be made for a path, and `searching` and `place_names` for the keys by which a search looks paths up.
//!
//! Callers may rely on: the archive is only looked at, by a `View`; a place that an earlier row has to have made is
//! there for those after it; a path is like another if a search compares both alike.
#![tactic(auto)]

mod answers;
mod index;
mod keys;
mod likes;
mod listing;
mod news;

pub use answers::{RowAnswer, answers_of};
pub use index::PlaceIndex;
pub use keys::{Key, key_of, see};
pub use likes::likes_for;
