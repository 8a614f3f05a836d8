//! The rules of a sound archive on one record, a function for each, and small archives by hand, of which each rule is
//! broken by one and kept by its neighbour.
//!
//! - `entries`, `families`, `levels`, `lines`, `places`, `shapes`, `tags`, `texts`, `untaken`: the rules of a sound
//!   archive on one record: a function for each part of the rule.
//! - specs and proofs: small archives written by hand, judged by the definition of a sound archive: each breaks one
//!   rule, and its neighbour none.
//!
//! Callers may rely on:
//! - each function answers whether the record keeps its part of the rule, exactly. Where a part asks for other records,
//!   what is known of them is given.
#![tactic(auto)]

mod entries;
mod families;
mod levels;
mod lines;
mod places;
mod shapes;
mod tags;
mod texts;
mod untaken;

pub use entries::has_sound_mentions;
pub use families::has_members_once;
pub use levels::has_room;
pub use places::{has_normal_name, has_smaller_parent};
pub use shapes::{has_own_shape, is_no_trailer};
pub use tags::has_tags;
pub use texts::has_texts;
pub use untaken::has_untaken;
