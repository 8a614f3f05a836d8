//! The two files of an archive as bytes: opened over copies in memory, and taken back.

ghost use Rattle.std.specs.Prelude.{◌≡◌, false, IsTrue, IfOk};
ghost use Rattle.sqlite_disk.specs.Fuse.{inner_of, IsFresh};
ghost use Rattle.sqlite_disk.specs.Memory.{memory_is_usable};

use request_answers::Fuses;
use sqlite::{Connection, FileStore, Files, Options};
use sqlite_disk::{Crash, Disk, Fuse, Memory};
use std::alloc::{AllocError, Global};

/// A connection over files in memory, each with a fuse.
pub(crate) type Opened = Connection<FileStore<Fuse<Memory>>>;

/// The bytes of the two files.
#[derive(Drop)]
pub(crate) struct Images {
    log: Vec<u8>,
    db: Vec<u8>,
}

impl Images {
    /// A file of these bytes, and an empty log.
    pub(crate) fn of_bytes(alloc: Global, db: Vec<u8>) -> Images {
        Images {
            log: Vec::new(alloc),
            db,
        }
    }

    /// Whether both files have the same bytes.
    pub(crate) fn has_bytes_of(&self, other: &Images) -> bool {
        self.log.as_slice() == other.log.as_slice() && self.db.as_slice() == other.db.as_slice()
    }

    /// A connection over copies of the files. Where they cannot be opened, what the opening left in them.
    pub(crate) fn open(
        &self,
        alloc: Global,
        fuses: Fuses,
    ) -> Result<Result<Opened, Images>, AllocError>
        ensures { IfOk result (λ opened. IfOk opened (λ conn. conn.in_transaction ≡ false)) }
    {
        let files = self.disks(alloc, fuses)?;
        match Connection::open_files(alloc, files, small()) {
            Ok(conn) => Ok(Ok(conn)),
            Err((_, left)) => Ok(Err(left_of(alloc, left.into_files(), fuses)?)),
        }
    }

    /// Copies of the files.
    fn disks(&self, alloc: Global, fuses: Fuses) -> Result<Files<Fuse<Memory>>, AllocError>
        ensures log { IfOk result (λ files. IsTrue (memory_is_usable (inner_of files.log)) × IsFresh files.log) }
        ensures db { IfOk result (λ files. IsTrue (memory_is_usable (inner_of files.db)) × IsFresh files.db) }
    {
        let log = disk(alloc, &self.log, fuses.log)?;
        let db = disk(alloc, &self.db, fuses.db)?;
        Ok(Files { log, db })
    }
}

/// What the files have after a connection over them was closed, as far as it could be, or the power went off.
pub(crate) fn close(alloc: Global, conn: Opened, fuses: Fuses) -> Result<Images, AllocError> {
    if fuses.is_off {
        return left_of(alloc, conn.into_store().close(), fuses);
    }
    match conn.close_files() {
        Ok(files) => left_of(alloc, files, fuses),
        Err((_, store)) => left_of(alloc, store.close(), fuses),
    }
}

/// The bytes of files. Where the power goes off, those that were synced.
fn left_of(
    alloc: Global,
    mut files: Files<Fuse<Memory>>,
    fuses: Fuses,
) -> Result<Images, AllocError> {
    if fuses.is_off {
        files.log.crash();
        files.db.crash();
    }
    images_of(alloc, &files)
}

fn images_of(alloc: Global, files: &Files<Fuse<Memory>>) -> Result<Images, AllocError> {
    Ok(Images {
        log: copied(alloc, files.log.inner().bytes())?,
        db: copied(alloc, files.db.inner().bytes())?,
    })
}

/// Few pages in memory, so that a file is opened fast.
fn small() -> Options {
    Options {
        cache_pages: 50,
        spill_pages: 50,
        checkpoint_frames: 1000,
        seed: 7,
    }
}

/// A file of these bytes, all synced, of which so many calls go well.
fn disk(alloc: Global, bytes: &[u8], calls: u64) -> Result<Fuse<Memory>, AllocError>
    ensures { IfOk result (λ f. IsTrue (memory_is_usable (inner_of f)) × IsFresh f) }
{
    let mut memory = Memory::new(alloc);
    if memory.write_at(0, bytes).is_err() {
        return Err(AllocError);
    }
    match memory.sync() {
        Ok(()) => Ok(Fuse::new(memory, calls)),
        Err(_) => Err(AllocError),
    }
}

fn copied(alloc: Global, bytes: &[u8]) -> Result<Vec<u8>, AllocError> {
    let mut copy = Vec::new(alloc);
    copy.extend_from_slice(bytes)?;
    Ok(copy)
}
