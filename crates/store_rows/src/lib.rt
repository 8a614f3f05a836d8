//! An archive as rows of tables: what the rows mean, the changes of a request written as rows, and the state read of
//! them.
#![tactic(auto)]

mod finding;
pub mod grouping;
pub mod laws;
pub mod looking;
mod reading;
pub mod sides;
mod sought_texts;
mod state;
mod tagged;
mod writing;

pub use reading::read_state;
pub use sought_texts::{SoughtText, sought_of};
pub use tagged::numbers_of;
pub use writing::{
    Unwritten, kind_of, kind_word, link_lines, remove_all_of, remove_lines, remove_links,
    remove_rows, write_changes, write_kept,
};
