//! What a row asks for, and what it would be answered: an archive is only looked at.

ghost use Rattle.std.specs.Prelude.{◌≡◌, ◌⊎◌, false, true, Err, IfErr, IfOk, Ok, OnErr};
ghost use Rattle.commands.specs.Rows.{is_want};
ghost use Rattle.csv.specs.Records.{fields_of};
ghost use Rattle.record_text.specs.declared.refusal.RefusalKind.TheVariants as refusal;
ghost use Rattle.row_references.specs.References.{has_references};
ghost use Rattle.store.specs.Histories.{is_storage};
ghost use Rattle.store.specs.Shut.{is_shut};
ghost use Rattle.archive_input.specs.Requests.{Asks, in_form, refused_under};
ghost use Rattle.expected_rows.specs.Meeting.{
  AsksOf,
  EndsAsking,
  EndsForeseeing,
  Foresees,
  Foretells,
  LooksDeciding,
  is_read,
};

use archive_core::{Request, decide};
use archive_input::{BadRequest, look_up, read_in_form, read_request};
use archive_state::Changes;
use csv::ByteRecord;
use receipts::Answer;
use record_text::{Refusal, RefusalKind};
use row_references::has_references;
use sqlite::Alter;
use std::alloc::Global;
use store::Archive;

/// What a row asks for of an archive, which is looked at only for its references.
///
/// 80: the looks lost the archive. 1: memory was refused.
pub(crate) fn ask_row<S: Alter>(
    alloc: Global,
    archive: &mut Archive<S>,
    row: &ByteRecord,
) -> Result<Result<Request, BadRequest>, RefusalKind>
    ensures asks { IfOk result (λ asked. AsksOf S.Store (fields_of row.now) asked archive.old archive.new) }
    ensures ended { IfErr result (EndsAsking S.Store (fields_of row.now) archive.old archive.new) }
{
    if has_references(row) {
        ask_referring(alloc, archive, row)
    } else {
        unless_wanted(read_request(alloc, row))
    }
}

/// What was read of a row. 1: memory was refused.
fn unless_wanted(
    read: Result<Request, BadRequest>,
) -> Result<Result<Request, BadRequest>, RefusalKind>
    ensures same { IfOk result (λ asked. (asked ≡ read) × OnErr asked (is_read read ≡ true)) }
    ensures wanted { IfErr result (λ kind. (kind ≡ refusal.OutOfMemory) × (is_read read ≡ false)) }
{
    match read {
        Err(bad) if matches!(bad.kind, RefusalKind::OutOfMemory) => Err(RefusalKind::OutOfMemory),
        _ => Ok(read),
    }
}

/// The same of a row with references: before one is looked for, its form is judged.
fn ask_referring<S: Alter>(
    alloc: Global,
    archive: &mut Archive<S>,
    row: &ByteRecord,
) -> Result<Result<Request, BadRequest>, RefusalKind>
    requires refers { has_references (fields_of row.now) ≡ true }
    ensures asks { IfOk result (λ asked. AsksOf S.Store (fields_of row.now) asked archive.old archive.new) }
    ensures ended { IfErr result (EndsAsking S.Store (fields_of row.now) archive.old archive.new) }
{
    match read_in_form(alloc, row) {
        Ok(request) => ask_in_form(alloc, archive, row, request),
        Err(bad) => unless_wanted(Err(bad)),
    }
}

/// The same of a row whose form is right, and that is this request with any numbers. An archive that takes no requests
/// is not looked at.
fn ask_in_form<S: Alter>(
    alloc: Global,
    archive: &mut Archive<S>,
    row: &ByteRecord,
    request: Request,
) -> Result<Result<Request, BadRequest>, RefusalKind>
    requires refers { has_references (fields_of row.now) ≡ true }
    requires asks { Asks (in_form (fields_of row.now)) (Ok request) }
    ensures asks { IfOk result (λ asked. AsksOf S.Store (fields_of row.now) asked archive.old archive.new) }
    ensures ended { IfErr result (EndsAsking S.Store (fields_of row.now) archive.old archive.new) }
{
    if archive.is_shut() {
        return Ok(Ok(request));
    }
    ask_looked(alloc, archive, row, request)
}

/// The same on an archive that takes requests: its references are looked for.
fn ask_looked<S: Alter>(
    alloc: Global,
    archive: &mut Archive<S>,
    row: &ByteRecord,
    request: Request,
) -> Result<Result<Request, BadRequest>, RefusalKind>
    requires refers { has_references (fields_of row.now) ≡ true }
    requires asks { Asks (in_form (fields_of row.now)) (Ok request) }
    requires takes { is_shut archive.old ≡ false }
    ensures asks { IfOk result (λ asked. AsksOf S.Store (fields_of row.now) asked archive.old archive.new) }
    ensures ended { IfErr result (EndsAsking S.Store (fields_of row.now) archive.old archive.new) }
{
    match look_up(alloc, archive, row) {
        Ok(Some(own)) => {
            drop(request);
            let read = read_request(alloc, &own);
            drop(own);
            unless_wanted(read)
        }
        Ok(None) => Ok(Err(refused_as(request, RefusalKind::NoSuch))),
        Err(kind) => refused_unread(request, kind),
    }
}

/// A row of the token of a request, whose references were not found out: 40. 80: the looks lost the archive. 1: memory
/// was refused.
fn refused_unread(
    request: Request,
    kind: RefusalKind,
) -> Result<Result<Request, BadRequest>, RefusalKind>
    ensures refused { IfOk result (λ asked. (asked ≡ Err (refused_under request.token kind))
        × (is_storage kind ≡ false) × (is_want kind ≡ false)) }
    ensures ended { IfErr result (λ e. (e ≡ kind) × ((kind ≡ refusal.Storage) ⊎ (kind ≡ refusal.OutOfMemory))) }
{
    match kind {
        RefusalKind::Storage | RefusalKind::OutOfMemory => Err(kind),
        _ => Ok(Err(refused_as(request, kind))),
    }
}

/// A row of the token of a request, refused so.
fn refused_as(request: Request, kind: RefusalKind) -> BadRequest
    ensures { result ≡ refused_under request.token kind }
{
    let Request { token, command, .. } = request;
    drop(command);
    BadRequest {
        token: Some(token),
        kind,
    }
}

/// What a request would be answered by an archive, which is only looked at.
///
/// 80: the looks lost it. 1: memory was refused.
pub(crate) fn foresee<S: Alter>(
    alloc: Global,
    archive: &mut Archive<S>,
    request: &Request,
) -> Result<Result<Answer, Refusal>, RefusalKind>
    ensures foresees { IfOk result (λ o. Foresees S.Store «request».now o archive.old archive.new) }
    ensures ended { IfErr result (EndsForeseeing S.Store «request».now archive.old archive.new) }
{
    if archive.is_shut() {
        return Ok(archive.perform(alloc, request));
    }
    foresee_looking(alloc, archive, request)
}

/// The same of an archive that takes requests.
fn foresee_looking<S: Alter>(
    alloc: Global,
    archive: &mut Archive<S>,
    request: &Request,
) -> Result<Result<Answer, Refusal>, RefusalKind>
    requires takes { is_shut archive.old ≡ false }
    ensures foresees { IfOk result (λ o. Foresees S.Store «request».now o archive.old archive.new) }
    ensures ended { IfErr result (EndsForeseeing S.Store «request».now archive.old archive.new) }
{
    let decided = decide_looking(alloc, archive, request);
    if archive.is_lost() {
        drop(decided);
        return Err(RefusalKind::Storage);
    }
    answer_in(decided)
}

/// What a request would change, by looks at the archive.
fn decide_looking<S: Alter>(
    alloc: Global,
    archive: &mut Archive<S>,
    request: &Request,
) -> Result<Changes, Refusal>
    ensures looked { LooksDeciding S.Store «request».now archive.old result archive.new }
    ensures aside { archive.new.import ≡ archive.old.import }
{
    let import = archive.set_aside();
    let decided = decide(alloc, archive, request);
    archive.put_back(import);
    decided
}

/// The answer of a request that was decided so. 1: memory was refused.
fn answer_in(decided: Result<Changes, Refusal>) -> Result<Result<Answer, Refusal>, RefusalKind>
    ensures same { IfOk result (λ o. Foretells decided o) }
    ensures wanted { IfErr result (λ kind. kind ≡ refusal.OutOfMemory) }
{
    match decided {
        Ok(changes) => {
            let answer = changes.answer;
            drop(changes);
            Ok(Ok(answer))
        }
        Err(refusal) => match refusal.kind {
            RefusalKind::OutOfMemory => Err(refusal.kind),
            _ => Ok(Err(refusal)),
        },
    }
}
