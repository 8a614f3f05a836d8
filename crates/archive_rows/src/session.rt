//! What the rows before have left.

use row_answers::Noted;
use sqlite::{Alter, Connection};
use staging::OpenImport;
use std::alloc::Global;

/// What rows change.
#[derive(Drop)]
pub(crate) struct Session<S: Alter + Drop> {
    /// The tables of an archive.
    pub(crate) conn: Connection<S>,
    pub(crate) noted: Noted,
    /// The import that is open.
    pub(crate) import: Option<OpenImport>,
}

impl<S: Alter + Drop> Session<S> {
    /// Before the first row.
    pub(crate) fn new(alloc: Global, conn: Connection<S>) -> Session<S> {
        Session {
            conn,
            noted: Noted::new(alloc),
            import: None,
        }
    }
}
