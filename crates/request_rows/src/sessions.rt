//! Sessions over the files of an archive: opened, used and closed.

use crate::calls::{Task, work};
use crate::done::Done;
use crate::images::{Images, close};
use record_text::RefusalKind;
use request_answers::{ArchiveFiles, Asked, Fuses, Reply, Visits};
use std::alloc::{AllocError, Global};

impl Images {
    /// Does a task over copies of the files, and answers what these have after it. Only here a task meets real files.
    fn session(
        &self,
        alloc: Global,
        fuses: Fuses,
        task: Task<'_>,
    ) -> Result<(Done, Images), AllocError> {
        match self.open(alloc, fuses)? {
            Ok(conn) => {
                let (done, conn) = work(alloc, conn, task);
                Ok((done, close(alloc, conn, fuses)?))
            }
            Err(left) => Ok((Done::Unopened, left)),
        }
    }
}

impl ArchiveFiles for Images {
    fn empty(alloc: Global) -> Images {
        Images::of_bytes(alloc, Vec::new(alloc))
    }

    fn of_database(alloc: Global, db: Vec<u8>) -> Images {
        Images::of_bytes(alloc, db)
    }

    fn is_same(&self, other: &Images) -> bool {
        self.has_bytes_of(other)
    }

    fn visit_once(
        &self,
        alloc: Global,
        fuses: Fuses,
        asked: Asked<'_>,
    ) -> Result<(Reply, Images), AllocError> {
        let (done, left) = self.session(alloc, fuses, Task::Visit(asked))?;
        Ok((done.into_reply(), left))
    }

    fn visit_twice(
        &self,
        alloc: Global,
        fuses: Fuses,
        asked: Asked<'_>,
        then: Asked<'_>,
    ) -> Result<Visits<Images>, AllocError> {
        let (done, left) = self.session(alloc, fuses, Task::Visits(asked, then))?;
        let (first, second) = done.into_replies();
        Ok(Visits {
            first,
            second,
            left,
        })
    }

    fn visit_altered(
        &self,
        alloc: Global,
        sql: &str,
        asked: Asked<'_>,
    ) -> Result<Reply, AllocError> {
        let (done, _) = self.session(alloc, Fuses::none(), Task::Alter(sql, asked))?;
        Ok(done.into_reply())
    }

    fn make(
        &self,
        alloc: Global,
        fuses: Fuses,
        society: &str,
    ) -> Result<(Option<Result<(), RefusalKind>>, Images), AllocError> {
        let (done, left) = self.session(alloc, fuses, Task::Create(society))?;
        Ok((done.into_made(), left))
    }

    fn export_once(&self, alloc: Global) -> Result<Result<Vec<u8>, RefusalKind>, AllocError> {
        let (done, _) = self.session(alloc, Fuses::none(), Task::Export)?;
        Ok(done.into_text())
    }
}
