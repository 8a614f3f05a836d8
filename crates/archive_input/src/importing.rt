//! A file read from an input, and its import into an archive by one request.

ghost use Rattle.std.specs.Prelude.{◌≡◌, ◌⊎◌, ℕ, Err, IfErr, IfOk, List, Ok, OnOk, Option};
ghost use Rattle.sqlite.specs.Held.{state};
ghost use Rattle.sqlite.specs.State.{HasCleanDisk};
ghost use Rattle.devices.specs.Devices.{Rose};
ghost use Rattle.receipts.specs.declared.answer.Answer.{Answer};
ghost use Rattle.import_definitions.specs.Report.{report as report_said};
ghost use Rattle.archive_input.specs.Applying.{Steps};
ghost use Rattle.store.specs.Calls.{OnArchive};
ghost use Rattle.store.specs.Telling.{TellsDone, TellsImport};
ghost use Rattle.archive_input.specs.Importing.{
  Imports,
  ImportsAll,
  ImportsSilently,
  IsFileOf,
  IsNoFile,
  TellsImported,
};
ghost use Rattle.imports.specs.Results.{IsUnreported};
ghost use Rattle.archive_core.specs.Machine.{import_of};

use crate::faults::refusal_of;
use devices::Device;
use file_faults::read_forest_from;
use gedcom_tree::Forest;
use imports::report_of;
use receipts::{Answer, Report, Token};
use record_text::Refusal;
use sqlite::Alter;
use staging::Progress;
use std::alloc::Global;
use std::io::Read;
use store::Archive;

/// Reads a file of lines whole, as its forest. Refused as `gedcom_tree::read_forest` does, with the line; a fault that
/// comes soon leaves the first bytes of the file in `start`, as `read_forest_from` says.
pub fn read_file<R: Read + Device>(
    alloc: Global,
    input: &mut R,
    start: &mut Vec<u8>,
) -> Result<Forest, Refusal>
    ensures read { IfOk result (λ forest. IsFileOf (R.remaining input.old) forest) }
    ensures refused { IfErr result (λ e. IsNoFile (R.remaining input.old) e
        (Rose (R.failed input.old) (R.failed input.new))) }
{
    match read_forest_from(alloc, input, start) {
        Ok(forest) => Ok(forest),
        Err(fault) => Err(refusal_of(fault)),
    }
}

/// Imports a file of lines into the archive: whole or not at all, as one request under the token. It answers what the
/// request is answered, with the report of the file, which is only that of its forest. How far it is is reported to
/// `progress`.
///
/// Refused as `Archive::import`, whose place is the line that is refused. Where memory for the report is refused, the
/// request is done all the same, and is answered when it comes again.
pub fn import_forest<S: Alter, P: Progress>(
    alloc: Global,
    archive: &mut Archive<S>,
    token: Token,
    forest: Forest,
    progress: &mut P,
) -> Result<(Answer, Report), Refusal>
    ensures imported { (file : Option (List ℕ)) → IsFileOf file forest → IfOk result (λ done.
        ImportsAll S.Store token file archive.old done.0 done.1 archive.new) }
    ensures refused { (file : Option (List ℕ)) → IsFileOf file forest → IfErr result (λ e.
        Imports S.Store token file archive.old (Err e) archive.new
        ⊎ ImportsSilently S.Store token file archive.old e archive.new) }
    ensures told { TellsImport P.Tells progress.old progress.new }
    ensures told_done { (file : Option (List ℕ)) → IsFileOf file forest → OnOk result (TellsImported S.Store P.Tells
        token file archive.old archive.new progress.old progress.new) }
{
    import_reported(alloc, archive, token, forest, progress)
}

/// Imports a forest, with its report.
fn import_reported<S: Alter, P: Progress>(
    alloc: Global,
    archive: &mut Archive<S>,
    token: Token,
    forest: Forest,
    progress: &mut P,
) -> Result<(Answer, Report), Refusal>
    ensures imported { IfOk result (λ done. Steps S.Store (Ok (import_of token forest, Ok done.0)) archive.old
        archive.new × (done.1 ≡ report_said forest)) }
    ensures refused { IfErr result (λ e. Steps S.Store (Ok (import_of token forest, Err e)) archive.old archive.new
        ⊎ ((answer : Answer) × Steps S.Store (Ok (import_of token forest, Ok answer)) archive.old archive.new
        × IsUnreported forest e)) }
    ensures told { TellsImport P.Tells progress.old progress.new }
    ensures told_done { HasCleanDisk (state S.Store archive.new.conn) → OnOk result (OnArchive
        (state S.Store archive.old.conn) (λ society c rows. TellsDone P.Tells c (import_of token forest) progress.old
        progress.new)) }
{
    let report = report_of(alloc, &forest);
    match import_once(alloc, archive, token, forest, progress) {
        Ok(answer) => match report {
            Ok(report) => Ok((answer, report)),
            Err(why) => Err(why),
        },
        Err(why) => {
            drop(report);
            Err(why)
        }
    }
}

/// Performs the request of an import, under a token that is not used again.
fn import_once<S: Alter, P: Progress>(
    alloc: Global,
    archive: &mut Archive<S>,
    token: Token,
    forest: Forest,
    progress: &mut P,
) -> Result<Answer, Refusal>
    ensures steps { Steps S.Store (Ok (import_of token forest, result)) archive.old archive.new }
    ensures told { TellsImport P.Tells progress.old progress.new }
    ensures told_done { HasCleanDisk (state S.Store archive.new.conn) → OnOk result (OnArchive
        (state S.Store archive.old.conn) (λ society c rows. TellsDone P.Tells c (import_of token forest) progress.old
        progress.new)) }
{
    let outcome = archive.import(alloc, &token, forest, progress);
    drop(token);
    outcome
}
