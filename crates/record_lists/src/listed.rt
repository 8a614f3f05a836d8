//! What is listed of an archive.

use searching::Listing;

/// What is listed of an archive, and how.
#[derive(Debug, Drop)]
pub struct Listed {
    pub of: Chosen,
    /// As rows of CSV in place of lines.
    pub is_csv: bool,
}

/// What is listed of an archive.
#[derive(Debug, Drop)]
pub enum Chosen {
    /// Records.
    Records { listing: Listing },
    /// The slips of merges after a number, so many at most.
    Slips { after: u32, limit: usize },
    /// What is doubtful.
    Doubts,
}
