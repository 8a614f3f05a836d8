//! The two files of a database, opened once.

ghost use Rattle.std.specs.Prelude.{◌≡◌, false, IfErr, IfOk, IfSome};
ghost use Rattle.sqlite_wal.specs.Files.{image_at};
ghost use Rattle.sqlite_wal.specs.Recovery.{Image};
ghost use Rattle.archive_files.specs.DatabaseOpening.{IsNotOpenOver, IsOpenOver, IsUnopenedOver};

use crate::left::{Left, LeftFile, OpenFile};
use sqlite::{Connection, Error, FileFrom, Leftover, Start, Unknown};
use sqlite_disk::Disk;
use std::rt::HostRuntime;

/// What two files hold, which no code can read, and what opens them. A function over any such type can open them only
/// by its value, and has none to hand back then.
pub trait Openable: Start {
    /// Opens the file at the path and the log beside it, or makes those that are missing. With an error, which is the
    /// database's, they are not open.
    fn opened(self, rt: &HostRuntime, file: &str) -> Result<OpenFile<Self>, (Error, LeftFile<Self>)>
        ensures opened { IfOk result (IsOpenOver (image_at Self.Start)) }
        ensures ended { IfOk result (λ conn. conn.in_transaction ≡ false) }
        ensures unopened { IfErr result (λ e. IsNotOpenOver (image_at Self.Start) e.1) };
}

impl Openable for Unknown {
    fn opened(
        self,
        rt: &HostRuntime,
        file: &str,
    ) -> Result<OpenFile<Unknown>, (Error, LeftFile<Unknown>)> {
        match tried(rt, file, self) {
            Ok(conn) => Ok(conn),
            Err((error, left)) => Err((error, left_of(left, Unknown))),
        }
    }
}

/// The kit's opening. Without what is left of the files it did not get them, and has written nothing.
fn tried<S: Start>(
    rt: &HostRuntime,
    file: &str,
    start: S,
) -> Result<OpenFile<S>, (Error, Option<Leftover<FileFrom<S>>>)>
    ensures opened { IfOk result (IsOpenOver (image_at S.Start)) }
    ensures ended { IfOk result (λ conn. conn.in_transaction ≡ false) }
    ensures unopened { IfErr result (λ e. IfSome e.1 (IsUnopenedOver (image_at S.Start))) }
{
    match Connection::open_from(rt, file, false, start) {
        Ok(conn) => Ok(conn),
        Err((error, left)) => Err((error, left)),
    }
}

/// What is left of files that could not be opened; what opens them, where the kit did not get them.
fn left_of<S: Drop, D: Disk + Drop>(left: Option<Leftover<D>>, untouched: S) -> Left<S, D>
    ensures { (image : Image) → IfSome left (IsUnopenedOver image) → IsNotOpenOver image result }
{
    match left {
        Some(left) => Left::Unopened(left),
        None => Left::Untouched(untouched),
    }
}
