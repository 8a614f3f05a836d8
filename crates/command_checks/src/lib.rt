//! What a command looks at, each look with its refusal, and the names and paths of places.
//!
//! - `normal`, `paths`: names and paths of places: whether a name is normal, and whether the path of a new place is
//!   within the limits.
//! - `entries`, `kinds`, `looks`, `names`, `next`, `places`, `tags`: what a command looks at before it makes anything:
//!   the texts that its words are, and the records that its numbers name.
//!
//! Callers may rely on:
//! - a name is normal exactly where its definition says so; a path is measured with all places that it is within, of
//!   which no more are read than the limits allow.
//! - each look answers what its definition says of what the view shows, or its refusal, and changes nothing.
#![tactic(auto)]

mod entries;
mod kinds;
mod looks;
mod names;
mod next;
mod normal;
mod paths;
mod places;
mod tags;

pub use entries::{check_key, check_texts, entry_at, push_mentions, reason_in};
pub use kinds::{Demand, check_demand, check_optional};
pub use looks::{Owner, date_in, event_at, family_at, maybe_text_in, owner_at, person_at, text_in};
pub use names::{check_path, place_name_in};
pub use next::next_free;
pub use places::check_place;
pub use tags::tag_of;
