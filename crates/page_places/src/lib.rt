//! The places that a page names by a path and an archive does not have: which are to be made, and in which order.
//!
//! It uses `archive_state` for what an archive has, and `commands` for fields. It makes nothing.
//!
//! Callers may rely on: what is to be made for a path are the paths of its place and of those above it that are not
//! there, the largest first; a place without a name, and what is below it, is never among them; a path that an earlier
//! row of the page has to have made counts as there.
#![tactic(auto)]

pub mod laws;
mod news;
mod ways;

pub use news::{News, news_for};
pub use ways::{above, place_name};
