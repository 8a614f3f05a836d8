//! A new archive in a file.

ghost use Rattle.std.specs.Prelude.{◌≡◌, ◌⊎◌, IfErr, IfOk, OnOk};
ghost use Rattle.std.specs.String.{string_bytes};
ghost use Rattle.sqlite_wal.specs.Files.{image_at};
ghost use Rattle.record_text.specs.declared.refusal.RefusalKind.TheVariants.{BadText, OutOfMemory};
ghost use Rattle.store.specs.Creating.{IsSociety};
ghost use Rattle.archive_files.specs.Made.{IsMadeIn, Unmade};

use crate::beside::{may_have_log, take_away_log};
use crate::causes::{Cause, cause_met, cause_of};
use crate::database_opening::Openable;
use crate::left::{Left, LeftFile};
use record_text::RefusalKind;
use std::alloc::Global;
use std::rt::HostRuntime;
use store::{Archive, society_named};

/// Whether an archive was made, what caused 80 as far as that is known, and what is left of the file.
pub type Made<S> = (Result<(), RefusalKind>, Option<Cause>, LeftFile<S>);

/// `init`: a new archive of a society in a file, with what is left of the file.
///
/// 58: the society is empty or no text; no file is made. 82: something was made in the file before; it is not changed.
/// 80: the file cannot be opened or is no database, or the database failed. 1: memory was refused.
pub fn init<S: Openable>(rt: &HostRuntime, file: &str, society: &str, start: S) -> Made<S>
    ensures made { OnOk result.0 (IsMadeIn (image_at S.Start) society.now result.2) }
    ensures refused { IfErr result.0 (λ kind. Unmade (image_at S.Start) society.now kind result.2) }
{
    match society_given(rt.alloc(), society) {
        Ok(name) => init_named(rt, file, name, start),
        Err(kind) => (Err(kind), None, Left::Untouched(start)),
    }
}

/// The same for a society whose name is one. A log that its opening made beside a file that is refused is taken away.
fn init_named<S: Openable>(rt: &HostRuntime, file: &str, society: String, start: S) -> Made<S>
    requires named { IsSociety (string_bytes society) }
    ensures made { OnOk result.0 (IsMadeIn (image_at S.Start) (string_bytes society) result.2) }
    ensures refused { IfErr result.0 (λ kind. Unmade (image_at S.Start) (string_bytes society) kind result.2) }
{
    match may_have_log(rt, file) {
        Ok(had_log) => {
            let (outcome, cause, left) = create(rt, file, society, start);
            if let Err(kind) = &outcome {
                take_away_log(rt, file, had_log, *kind);
            }
            (outcome, cause, left)
        }
        Err(error) => {
            let cause = cause_met(rt, file, &error);
            (
                Err(RefusalKind::Storage),
                Some(cause),
                Left::Untouched(start),
            )
        }
    }
}

/// Opens the file, which is made where there is none, and makes the archive in it.
fn create<S: Openable>(rt: &HostRuntime, file: &str, society: String, start: S) -> Made<S>
    requires named { IsSociety (string_bytes society) }
    ensures made { OnOk result.0 (IsMadeIn (image_at S.Start) (string_bytes society) result.2) }
    ensures refused { IfErr result.0 (λ kind. Unmade (image_at S.Start) (string_bytes society) kind result.2) }
{
    match start.opened(rt, file) {
        Ok(conn) => match Archive::create(conn, society) {
            Ok(archive) => (Ok(()), None, Left::Open(archive.into_connection())),
            Err((kind, conn)) => (Err(kind), None, Left::Open(conn)),
        },
        Err((error, left)) => {
            let cause = cause_of(rt, file, &error);
            (Err(RefusalKind::Storage), Some(cause), left)
        }
    }
}

/// The name of a society, in memory of its own. 58: it is empty or no text. 1: memory was refused.
fn society_given(alloc: Global, society: &str) -> Result<String, RefusalKind>
    ensures given { IfOk result (λ name. (string_bytes name ≡ society.now) × IsSociety society.now) }
    ensures refused { IfErr result (λ kind. (kind ≡ OutOfMemory) ⊎ ((kind ≡ BadText) × ¬ IsSociety society.now)) }
{
    if society_named(String::from_str(alloc, society)?).is_none() {
        return Err(RefusalKind::BadText);
    }
    Ok(String::from_str(alloc, society)?)
}
