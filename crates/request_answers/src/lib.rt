//! Answers to rows of requests for the tests, over two archives in memory and one in files that may fail. How such
//! files are opened is the caller's (`ArchiveFiles`). No part of the product.
#![tactic(auto)]

mod archives;
mod asked;
mod asking;
mod files;
mod kept;
mod steps;
mod stops;
mod storing;
mod words;

pub use archives::Archives;
pub use asked::{Asked, Outcome, Reply, Told};
pub use asking::answer;
pub use files::{ArchiveFiles, Fuses, Visits};
