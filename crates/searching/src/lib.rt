//! Which records are listed or found, a line for each: the words of a text as a search compares them.
//!
//! - `folding`, `laws`, `search`: the words of a text as a search compares them: without regard to case, to marks and
//!   to how letters are composed.
//! - `choosing`, `counting`, `lines`, `printing`, `walking`, `wanted`: which records are listed and found, and the line
//!   of each: for whoever keeps the archive, so nothing is masked.
//!
//! Callers may rely on:
//! - what a text is folded to depends only on its NFKD, so a name is found composed or not; the words of a search
//!   occur in a text where each of them begins a word of it, and nowhere else.
//! - the lines are those of the records that are wanted, by number, so many after a number as are asked for; no line
//!   has a control character; nothing is changed.
#![tactic(auto)]

mod choosing;
mod counting;
mod folding;
pub mod laws;
mod lines;
mod printing;
mod search;
mod walking;
mod wanted;

pub use counting::{Found, page_and_others};
pub use lines::{Line, line_of};
pub use printing::{shown, shown_character};
pub use search::{SearchText, SearchWords};
pub use walking::page;
pub use wanted::{Kind, Listing, Wanted};
