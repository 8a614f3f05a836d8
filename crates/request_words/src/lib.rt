//! Rows of requests for the tests: what a row asks, what is shown of a state as rows of CSV, and a request over a view
//! of which each look fails in turn. No part of the product.
#![tactic(auto)]

mod failing;
mod looks;
mod pictures;
mod reading;
mod rows;
mod seeing;
mod wordings;

pub use pictures::{copy, picture};
pub use reading::{command_of, fields_of, parted, request_of, requests_of};
pub use rows::{outcome_row, refused, said, word};
pub use seeing::see;
pub use wordings::{batch_row, bytes_rows, import_row};
