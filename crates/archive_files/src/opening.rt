//! An archive in a file and the log beside it, taken up.

ghost use Rattle.std.specs.Prelude.{◌≡◌, false, IfErr, IfOk};
ghost use Rattle.sqlite_wal.specs.Files.{image_at};
ghost use Rattle.archive_files.specs.Opening.{IsTakenUp, Unopened};
ghost use Rattle.archive_files.specs.DatabaseOpening.{IsOpenOver};

use crate::beside::{holds_nothing, may_have_log, take_away_log};
use crate::causes::{Cause, cause_met, cause_of};
use crate::database_opening::Openable;
use crate::left::{Left, LeftFile, OpenFile};
use record_text::RefusalKind;
use sqlite::{FileFrom, FileStore};
use std::alloc::Global;
use std::io;
use std::rt::HostRuntime;
use store::Archive;

/// An archive in a file. `S` is what the file and its log held as they were opened.
pub type ArchiveFile<S> = Archive<FileStore<FileFrom<S>>>;

/// Why no archive was taken up or made, what caused 80 as far as that is known, and what is left of the file.
pub type Refused<S> = (RefusalKind, Option<Cause>, LeftFile<S>);

/// The archive in a file. The file is looked at first, since to open one that is not there would make it, and to open
/// one of no bytes would make a database of it. Imports that were left open are removed from it, and one of the first
/// version is made one of the second. What is left of the file is handed back with a refusal.
///
/// 82: there is no file, or it has no archive. 83: a later program made it; at both no log stays beside it that was not
/// there. 80: the file cannot be opened or is no database, or the database failed. 1: memory was refused.
pub fn open<S: Openable>(
    rt: &HostRuntime,
    file: &str,
    start: S,
) -> Result<ArchiveFile<S>, Refused<S>>
    ensures taken { IfOk result (λ archive. IsTakenUp (image_at S.Start) archive) }
    ensures refused { IfErr result (λ e. Unopened (image_at S.Start) e.0 e.2) }
{
    match holds_nothing(rt, file) {
        Ok(false) => open_beside(rt, file, start),
        Ok(true) => Err((RefusalKind::NotAnArchive, None, Left::Untouched(start))),
        Err(error) => Err(unseen(rt, file, &error, start)),
    }
}

/// The same of a file in which something was made. A log that its opening made beside it is taken away where it is
/// refused.
fn open_beside<S: Openable>(
    rt: &HostRuntime,
    file: &str,
    start: S,
) -> Result<ArchiveFile<S>, Refused<S>>
    ensures taken { IfOk result (λ archive. IsTakenUp (image_at S.Start) archive) }
    ensures refused { IfErr result (λ e. Unopened (image_at S.Start) e.0 e.2) }
{
    let had_log = match may_have_log(rt, file) {
        Ok(had_log) => had_log,
        Err(error) => return Err(unseen(rt, file, &error, start)),
    };
    match open_file(rt, file, start) {
        Ok(archive) => Ok(archive),
        Err((kind, cause, left)) => {
            take_away_log(rt, file, had_log, kind);
            Err((kind, cause, left))
        }
    }
}

/// 80 of a file that cannot be looked at, for this error.
fn unseen<S: Openable>(rt: &HostRuntime, file: &str, error: &io::Error, start: S) -> Refused<S>
    ensures { Unopened (image_at S.Start) result.0 result.2 }
{
    let cause = cause_met(rt, file, error);
    (RefusalKind::Storage, Some(cause), Left::Untouched(start))
}

/// The archive in a file, which is made where there is none. Refusals as of `Archive::adopt`; 80 also where the file
/// cannot be opened or is no database.
fn open_file<S: Openable>(
    rt: &HostRuntime,
    file: &str,
    start: S,
) -> Result<ArchiveFile<S>, Refused<S>>
    ensures taken { IfOk result (λ archive. IsTakenUp (image_at S.Start) archive) }
    ensures refused { IfErr result (λ e. Unopened (image_at S.Start) e.0 e.2) }
{
    match start.opened(rt, file) {
        Ok(conn) => adopted(rt.alloc(), conn),
        Err((error, left)) => {
            let cause = cause_of(rt, file, &error);
            Err((RefusalKind::Storage, Some(cause), left))
        }
    }
}

/// The archive in a file that is open. Refusals as of `Archive::adopt`.
fn adopted<S: Openable>(alloc: Global, conn: OpenFile<S>) -> Result<ArchiveFile<S>, Refused<S>>
    requires opened { IsOpenOver (image_at S.Start) conn }
    requires ended { conn.in_transaction ≡ false }
    ensures taken { IfOk result (λ archive. IsTakenUp (image_at S.Start) archive) }
    ensures refused { IfErr result (λ e. Unopened (image_at S.Start) e.0 e.2) }
{
    match Archive::adopt(alloc, conn) {
        Ok(archive) => Ok(archive),
        Err((kind, conn)) => Err((kind, None, Left::Open(conn))),
    }
}
