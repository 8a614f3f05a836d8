//! The files of an archive, which may fail, and the sessions over them.

use crate::asked::{Asked, Reply};
use record_text::RefusalKind;
use std::alloc::{AllocError, Global};

/// How many calls of each file go well before all fail, and whether the files are closed at the end or the power goes
/// off.
#[derive(Clone, Copy)]
pub struct Fuses {
    pub log: u64,
    pub db: u64,
    pub is_off: bool,
}

impl Fuses {
    /// Fuses that do not blow.
    pub fn none() -> Fuses {
        Fuses {
            log: u64::MAX,
            db: u64::MAX,
            is_off: false,
        }
    }

    /// A fuse of so many calls in the file `log` or `db`; with ` off` after it the power goes off at the end. `None`:
    /// there is no such file, or that is no number.
    pub fn of(file: &str, calls: &str) -> Option<Fuses> {
        let calls = calls.parse::<u64>().ok()?;
        let none = Fuses::none();
        match file {
            "log" => Some(Fuses { log: calls, ..none }),
            "db" => Some(Fuses { db: calls, ..none }),
            "log off" => Some(Fuses {
                log: calls,
                is_off: true,
                ..none
            }),
            "db off" => Some(Fuses {
                db: calls,
                is_off: true,
                ..none
            }),
            _ => None,
        }
    }
}

/// The two files of an archive as bytes. Each session is over copies of them, and answers what these have after it.
pub trait ArchiveFiles: Sized + Drop {
    /// Empty files.
    fn empty(alloc: Global) -> Self;

    /// A file of these bytes, and an empty log.
    fn of_database(alloc: Global, db: Vec<u8>) -> Self;

    /// Whether both files have the same bytes.
    fn is_same(&self, other: &Self) -> bool;

    /// A visit to the archive, and what the files have after it.
    fn visit_once(
        &self,
        alloc: Global,
        fuses: Fuses,
        asked: Asked<'_>,
    ) -> Result<(Reply, Self), AllocError>;

    /// Two visits to the archive over one connection.
    fn visit_twice(
        &self,
        alloc: Global,
        fuses: Fuses,
        asked: Asked<'_>,
        then: Asked<'_>,
    ) -> Result<Visits<Self>, AllocError>;

    /// Runs statements, and then visits the archive.
    fn visit_altered(
        &self,
        alloc: Global,
        sql: &str,
        asked: Asked<'_>,
    ) -> Result<Reply, AllocError>;

    /// Makes an archive, and answers what the files have then. `None`: they could not be opened.
    fn make(
        &self,
        alloc: Global,
        fuses: Fuses,
        society: &str,
    ) -> Result<(Option<Result<(), RefusalKind>>, Self), AllocError>;

    /// The text that the archive is exported as. 80: the files could not be opened.
    fn export_once(&self, alloc: Global) -> Result<Result<Vec<u8>, RefusalKind>, AllocError>;
}

/// Two visits over one connection, and what the files have after it.
#[derive(Drop)]
pub struct Visits<F: Drop> {
    pub first: Reply,
    pub second: Reply,
    pub left: F,
}

impl<F: Drop> Visits<F> {
    /// What both visits answered.
    pub(crate) fn into_replies(self) -> (Reply, Reply) {
        let Visits {
            first,
            second,
            left: _,
        } = self;
        (first, second)
    }
}
