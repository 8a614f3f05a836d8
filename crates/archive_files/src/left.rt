//! What is left of the two files of a database, which are closed by it or given up as they stand.

ghost use Rattle.std.specs.Prelude.{◌≡◌};
ghost use Rattle.archive_files.specs.Closing.{IsClosedOver, IsClosing, IsStopping, found_no_room};

use sqlite::{Connection, FileFrom, FileStore, Files, Leftover};
use sqlite_disk::Disk;

/// The connection over a file and its log. `S` is what they held as they were opened.
pub type OpenFile<S> = Connection<FileStore<FileFrom<S>>>;

/// What is left of a file and its log. A value of `S` opens them.
pub enum Left<S, D: Disk> {
    /// They were not opened: what opens them is there yet.
    Untouched(S),
    /// They could not be opened.
    Unopened(Leftover<D>),
    /// They are open.
    Open(Connection<FileStore<D>>),
}

// It is written out, so that a caller does not prove again how each part is dropped.
impl<S: Drop, D: Disk + Drop> Drop for Left<S, D> {
    fn drop(self) {
        match self {
            Left::Untouched(_start) => {}
            Left::Unopened(_left) => {}
            Left::Open(_conn) => {}
        }
    }
}

/// The same of real files.
pub type LeftFile<S> = Left<S, FileFrom<S>>;

/// What a close leaves of a file and its log. A value of `S` opens them.
pub enum Closed<S, D: Disk> {
    /// They were not opened.
    Untouched(S),
    /// They could not be opened.
    Unopened(Leftover<D>),
    /// The log was copied into the file.
    Copied(Files<D>),
    /// It was not: the store over both.
    Uncopied(FileStore<D>),
}

// It is written out, so that a caller does not prove again how each part is dropped.
impl<S: Drop, D: Disk + Drop> Drop for Closed<S, D> {
    fn drop(self) {
        match self {
            Closed::Untouched(_start) => {}
            Closed::Unopened(_left) => {}
            Closed::Copied(_files) => {}
            Closed::Uncopied(_store) => {}
        }
    }
}

impl<S, D: Disk> Closed<S, D> {
    /// Whether a write to the file or to its log has found no room on the disk, since they were opened.
    pub fn found_no_room(&self) -> bool
        ensures { result ≡ found_no_room self.now }
    {
        match self {
            Closed::Untouched(_) => false,
            Closed::Unopened(_) => false,
            Closed::Copied(files) => files.tally().refused > 0,
            Closed::Uncopied(store) => store.tally().refused > 0,
        }
    }
}

/// The same of real files.
pub type ClosedFile<S> = Closed<S, FileFrom<S>>;

impl<S: Drop, D: Disk + Drop> Left<S, D> {
    /// Closes the connection over two files where they are open, which copies the log into the file, and hands back
    /// what is left. Nothing is lost where that fails: the log has what was committed.
    pub fn close(self) -> Closed<S, D>
        ensures { IsClosing self result }
    {
        match self {
            Left::Untouched(start) => Closed::Untouched(start),
            Left::Unopened(left) => Closed::Unopened(left),
            Left::Open(conn) => close_files(conn),
        }
    }

    /// Gives a connection up as it stands, as a stop does: a program that is stopped is one whose disk takes nothing
    /// more from then on. It is for what a contract says of a stop, and no program needs it.
    pub fn stop(self) -> Closed<S, D>
        ensures { IsStopping self result }
    {
        match self {
            Left::Untouched(start) => Closed::Untouched(start),
            Left::Unopened(left) => Closed::Unopened(left),
            Left::Open(conn) => Closed::Uncopied(conn.into_store()),
        }
    }
}

/// Closes a connection over two files.
fn close_files<S: Drop, D: Disk + Drop>(conn: Connection<FileStore<D>>) -> Closed<S, D>
    ensures { IsClosedOver conn result }
{
    match conn.close_files() {
        Ok(files) => Closed::Copied(files),
        Err((_, store)) => Closed::Uncopied(store),
    }
}
