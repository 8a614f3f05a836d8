//! The records that the nodes of a file are read as, in a file's own words: paths of places, both sides of memberships,
//! drafts.
//!
//! - `known`: what a file tells of its own records: of which kind the one at a position is, and the paths of places.
//! - `reading`: the paths of the places of a file, each by the places before it.
//! - `arranged`, `laws`, `members`, `nodes`, `sides`, `told`, `whole`: both sides of the memberships of a file, read
//!   only from its nodes.
//! - `carried`, `families`, `kept`: A family of a file with both sides of its memberships.
//! - `drafts`, `fitted`, `fitting`, `lines`, `sided`: what the nodes of a file are read as, each with all below it, a
//!   family with both sides of its memberships.
//!
//! Callers may rely on:
//! - what is known of a position depends only on the nodes and the paths.
//! - each node is read once.
//! - each line of a family or a person that names a membership counts or is reported.
//! - a family is changed in place; each of its sides is looked at once.
//! - each node is read once; each line that is left out below it is reported; a draft takes no more memory than it
//!   needs.
#![tactic(auto)]

mod arranged;
mod carried;
mod drafts;
mod families;
mod fitted;
mod fitting;
mod kept;
mod known;
pub mod laws;
mod lines;
mod members;
mod nodes;
mod reading;
mod sided;
mod sides;
mod told;
mod whole;

pub use arranged::arrange;
pub use drafts::drafts_of;
pub use reading::paths_of;
pub use whole::sides_of;
