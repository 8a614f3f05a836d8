//! What a line is in each part of a record: the field that it is, by what stands on it and below it.
//!
//! It uses `record_shapes`, whose tables it decides, and `stored_lines`, whose lines it looks at.
//!
//! Callers may rely on: each function answers exactly the row of its table, and takes no memory but where it passes on
//! a text of a place made normal.
#![tactic(auto)]

mod forms;
mod known;
mod normal;
mod places;
mod rows;
mod tags;
mod words;

pub use forms::{
    LineParts, into_below, into_text, is_bare, is_childless, is_text, number_of, take_apart,
    text_of,
};
pub use known::{Known, Named, names_a};
pub use normal::{has_part, is_below_within_limits, is_within_limits, made_normal, path_below};
pub use places::{EventRow, event_row, is_loc, parent_field, place_name};
pub use rows::{
    citation_field, family_field, holding_field, is_citation, participant_field, person_field,
    repo_field, source_field,
};
pub use words::{quality_of, sex_of};
