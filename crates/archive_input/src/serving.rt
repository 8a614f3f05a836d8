//! One row served: its request is performed, and its answer written.

ghost use Rattle.std.specs.Prelude.{
  ◌≡◌,
  ◌⊎◌,
  false,
  true,
  Ok,
  Err,
  IfErr,
  IfOk,
  MatchBool,
  OnErr,
  OnOk,
  Some,
  option_map,
};
ghost use Rattle.std.specs.Io.KnownBytes.{Appends};
ghost use Rattle.commands.specs.Rows.{is_want};
ghost use Rattle.csv.specs.Records.{fields_of};
ghost use Rattle.devices.specs.Devices.{Rose};
ghost use Rattle.record_text.specs.declared.refusal.RefusalKind.TheVariants as refusal;
ghost use Rattle.row_references.specs.References.{IsNumbered, has_references};
ghost use Rattle.store.specs.Histories.{Outcome, has_broken, has_failed, is_storage};
ghost use Rattle.store.specs.Shut.{is_shut};
ghost use Rattle.archive_input.specs.Answers.{Served, answer_text};
ghost use Rattle.archive_input.specs.Applying.{IsServed, Steps, WritesPart, is_in_doubt};
ghost use Rattle.archive_input.specs.Referring.{
  AnswersRow,
  EndsInRow,
  EndsServing,
  IsAskedOr,
  LooksUp,
};
ghost use Rattle.archive_input.specs.Requests.{Asks, in_form, refused_under};
ghost use Rattle.archive_input.specs.RowByRow.{Serves, refusal_in, refusal_of};

use crate::answers::{bad_text, outcome_text};
use crate::bad_request::BadRequest;
use crate::request::{read_in_form, read_request};
use crate::telling::tell_fault;
use archive_core::Request;
use csv::ByteRecord;
use devices::{Device, TransferError, write_flushed};
use receipts::Answer;
use record_text::{Refusal, RefusalKind};
use row_references::{has_references, numbered};
use sqlite::Alter;
use std::alloc::Global;
use std::io::Write;
use store::Archive;

/// Serves the row of this number: performs its request, writes its answer and flushes it, and tells on the faults why
/// it is refused, where it is; that is also handed back. `apply` calls it for one row after the other, so the answer of
/// a row is with the writer before the next is decided. `before` is the writer's count of failures at the start of the
/// call that asks.
///
/// 80: the database failed, and nothing is written. 95: the writer failed. 1: no memory was found to read the row, or
/// to form or write its answer. At these nothing is said on the faults. What they do with what they are given decides
/// nothing.
pub fn serve_row<S: Alter, W: Write + Device, F: Write + Device>(
    alloc: Global,
    archive: &mut Archive<S>,
    row: &ByteRecord,
    number: u64,
    output: &mut W,
    faults: &mut F,
    before: u64,
) -> Result<Option<RefusalKind>, RefusalKind>
    ensures served { IfOk result (λ refused. (s : Served) × IsServed (fields_of row.now) s
        × Serves S.Store W.contents F.contents number (fields_of row.now) s
        (record { archive = archive.old; output = output.old; faults = faults.old })
        (record { archive = archive.new; output = output.new; faults = faults.new })
        × (refused ≡ refusal_of s)) }
    ensures ended { IfErr result (EndsInRow S.Store (fields_of row.now) archive.old archive.new
        (W.contents output.old) (W.contents output.new)) }
    ensures failed { result ≡ Err refusal.WriteFailed → Rose before (W.failed output.new) }
    ensures untold { OnErr result (faults.new ≡ faults.old) }
{
    match answer_row(alloc, archive, row, output, before) {
        Ok(None) => Ok(None),
        Ok(Some(kind)) => {
            tell_fault(alloc, number, kind, row, faults);
            Ok(Some(kind))
        }
        Err(kind) => Err(kind),
    }
}

/// The same without the faults: why the row is refused, where it is.
fn answer_row<S: Alter, W: Write + Device>(
    alloc: Global,
    archive: &mut Archive<S>,
    row: &ByteRecord,
    output: &mut W,
    before: u64,
) -> Result<Option<RefusalKind>, RefusalKind>
    ensures served { IfOk result (AnswersRow S.Store (fields_of row.now) archive.old archive.new
        (W.contents output.old) (W.contents output.new)) }
    ensures ended { IfErr result (EndsInRow S.Store (fields_of row.now) archive.old archive.new
        (W.contents output.old) (W.contents output.new)) }
    ensures failed { result ≡ Err refusal.WriteFailed → Rose before (W.failed output.new) }
{
    if has_references(row) {
        answer_referring(alloc, archive, row, output, before)
    } else {
        answer_plain(alloc, archive, row, output, before)
    }
}

/// The same of a row without references.
fn answer_plain<S: Alter, W: Write + Device>(
    alloc: Global,
    archive: &mut Archive<S>,
    row: &ByteRecord,
    output: &mut W,
    before: u64,
) -> Result<Option<RefusalKind>, RefusalKind>
    requires plain { has_references (fields_of row.now) ≡ false }
    ensures served { IfOk result (AnswersRow S.Store (fields_of row.now) archive.old archive.new
        (W.contents output.old) (W.contents output.new)) }
    ensures ended { IfErr result (EndsInRow S.Store (fields_of row.now) archive.old archive.new
        (W.contents output.old) (W.contents output.new)) }
    ensures failed { result ≡ Err refusal.WriteFailed → Rose before (W.failed output.new) }
{
    match read_request(alloc, row) {
        Ok(request) => serve_request(alloc, archive, request, output, before),
        Err(bad) => answer_bad(alloc, bad, output, before),
    }
}

/// The same of a row with references: before one is looked for, its form is judged.
fn answer_referring<S: Alter, W: Write + Device>(
    alloc: Global,
    archive: &mut Archive<S>,
    row: &ByteRecord,
    output: &mut W,
    before: u64,
) -> Result<Option<RefusalKind>, RefusalKind>
    requires refers { has_references (fields_of row.now) ≡ true }
    ensures served { IfOk result (AnswersRow S.Store (fields_of row.now) archive.old archive.new
        (W.contents output.old) (W.contents output.new)) }
    ensures ended { IfErr result (EndsInRow S.Store (fields_of row.now) archive.old archive.new
        (W.contents output.old) (W.contents output.new)) }
    ensures failed { result ≡ Err refusal.WriteFailed → Rose before (W.failed output.new) }
{
    match read_in_form(alloc, row) {
        Ok(request) => serve_referring(alloc, archive, row, request, output, before),
        Err(bad) => answer_bad(alloc, bad, output, before),
    }
}

/// The same of a row whose form is right, and that is this request with any numbers. An archive that takes no requests
/// is not looked at: it refuses that request.
fn serve_referring<S: Alter, W: Write + Device>(
    alloc: Global,
    archive: &mut Archive<S>,
    row: &ByteRecord,
    request: Request,
    output: &mut W,
    before: u64,
) -> Result<Option<RefusalKind>, RefusalKind>
    requires refers { has_references (fields_of row.now) ≡ true }
    requires asks { Asks (in_form (fields_of row.now)) (Ok request) }
    ensures served { IfOk result (AnswersRow S.Store (fields_of row.now) archive.old archive.new
        (W.contents output.old) (W.contents output.new)) }
    ensures ended { IfErr result (EndsInRow S.Store (fields_of row.now) archive.old archive.new
        (W.contents output.old) (W.contents output.new)) }
    ensures failed { result ≡ Err refusal.WriteFailed → Rose before (W.failed output.new) }
{
    if archive.is_shut() {
        return serve_request(alloc, archive, request, output, before);
    }
    serve_looked(alloc, archive, row, request, output, before)
}

/// The same on an archive that takes requests: its references are looked for.
fn serve_looked<S: Alter, W: Write + Device>(
    alloc: Global,
    archive: &mut Archive<S>,
    row: &ByteRecord,
    request: Request,
    output: &mut W,
    before: u64,
) -> Result<Option<RefusalKind>, RefusalKind>
    requires refers { has_references (fields_of row.now) ≡ true }
    requires asks { Asks (in_form (fields_of row.now)) (Ok request) }
    requires takes { is_shut archive.old ≡ false }
    ensures served { IfOk result (AnswersRow S.Store (fields_of row.now) archive.old archive.new
        (W.contents output.old) (W.contents output.new)) }
    ensures ended { IfErr result (EndsServing S.Store (fields_of row.now) archive.old archive.new
        (W.contents output.old) (W.contents output.new)) }
    ensures failed { result ≡ Err refusal.WriteFailed → Rose before (W.failed output.new) }
{
    match look_up(alloc, archive, row) {
        Ok(Some(own)) => {
            drop(request);
            let served = serve_numbered(alloc, archive, &own, output, before);
            drop(own);
            served
        }
        Ok(None) => answer_under(alloc, request, RefusalKind::NoSuch, output, before),
        Err(kind) => answer_unread(alloc, request, kind, output, before),
    }
}

/// The row with its numbers in place of its references, by looks at an archive that takes requests. `None`: one of them
/// has no number. 80: the looks lost the archive. 1: memory was refused. 40: what the archive holds cannot be read.
pub fn look_up<S: Alter>(
    alloc: Global,
    archive: &mut Archive<S>,
    row: &ByteRecord,
) -> Result<Option<ByteRecord>, RefusalKind>
    ensures looked { LooksUp S.Store (fields_of row.now) archive.old result archive.new }
    ensures form { IfOk result (λ found. IsNumbered (fields_of row.now) (option_map fields_of found)) }
    ensures aside { archive.new.import ≡ archive.old.import }
    ensures lost { has_broken result ≡ archive.new.is_lost }
    ensures stops { IfErr result (λ kind. is_storage kind ≡ false
        → (kind ≡ refusal.OutOfMemory) ⊎ (kind ≡ refusal.BadStored)) }
{
    let import = archive.set_aside();
    let found = numbered(alloc, archive, row);
    archive.put_back(import);
    unless_lost(archive.is_lost(), found)
}

/// What was found. 80: the looks lost the archive. 1, 40: they failed otherwise.
fn unless_lost(
    is_lost: bool,
    found: Result<Option<ByteRecord>, RefusalKind>,
) -> Result<Option<ByteRecord>, RefusalKind>
    ensures lost { has_broken result ≡ is_lost }
    ensures found { IfOk result (λ own. found ≡ Ok own) }
    ensures kept { is_lost ≡ false → IfOk found (λ own. result ≡ Ok own) }
    ensures wanted { is_lost ≡ false → found ≡ Err refusal.OutOfMemory → result ≡ Err refusal.OutOfMemory }
    ensures stops { IfErr result (λ kind. is_storage kind ≡ false
        → (kind ≡ refusal.OutOfMemory) ⊎ (kind ≡ refusal.BadStored)) }
{
    if is_lost {
        return Err(RefusalKind::Storage);
    }
    match found {
        Ok(own) => Ok(own),
        Err(kind) => Err(unread(kind)),
    }
}

/// Why the references of a row were not found out: 1 or 40.
fn unread(kind: RefusalKind) -> RefusalKind
    ensures is { (result ≡ refusal.OutOfMemory) ⊎ (result ≡ refusal.BadStored) }
    ensures wanted { kind ≡ refusal.OutOfMemory → result ≡ refusal.OutOfMemory }
{
    match kind {
        RefusalKind::OutOfMemory => kind,
        _ => RefusalKind::BadStored,
    }
}

/// Serves the row that has numbers in place of its references.
fn serve_numbered<S: Alter, W: Write + Device>(
    alloc: Global,
    archive: &mut Archive<S>,
    row: &ByteRecord,
    output: &mut W,
    before: u64,
) -> Result<Option<RefusalKind>, RefusalKind>
    ensures served { IfOk result (λ refused. (s : Served) × IsAskedOr (fields_of row.now) s
        × Steps S.Store s archive.old archive.new × (is_in_doubt s ≡ false)
        × Appends (W.contents output.old) (W.contents output.new) (answer_text s) × (refused ≡ refusal_of s)) }
    ensures ended { IfErr result (λ kind. (s : Served) × IsAskedOr (fields_of row.now) s
        × Steps S.Store s archive.old archive.new
        × MatchBool (is_in_doubt s) ((kind ≡ refusal.Storage) × (W.contents output.new ≡ W.contents output.old))
        (WritesPart kind (W.contents output.old) (W.contents output.new) (answer_text s))) }
    ensures failed { result ≡ Err refusal.WriteFailed → Rose before (W.failed output.new) }
{
    match read_request(alloc, row) {
        Ok(request) => serve_request(alloc, archive, request, output, before),
        Err(bad) => answer_refused(alloc, bad, output, before),
    }
}

/// Writes the answer to a row of that token, which is refused so, and hands its refusal on.
fn answer_under<W: Write + Device>(
    alloc: Global,
    request: Request,
    kind: RefusalKind,
    output: &mut W,
    before: u64,
) -> Result<Option<RefusalKind>, RefusalKind>
    ensures served { IfOk result (λ refused. Appends (W.contents output.old)
        (W.contents output.new) (answer_text (Err (refused_under request.token kind))) × (refused ≡ Some kind)) }
    ensures ended { IfErr result
        (λ e. WritesPart e (W.contents output.old) (W.contents output.new)
        (answer_text (Err (refused_under request.token kind)))) }
    ensures failed { result ≡ Err refusal.WriteFailed → Rose before (W.failed output.new) }
{
    let Request { token, command, .. } = request;
    drop(command);
    let bad = BadRequest {
        token: Some(token),
        kind,
    };
    answer_refused(alloc, bad, output, before)
}

/// Writes the answer to a row of that token whose references were not found out, and hands its refusal on. 80: the
/// looks lost the archive, and nothing is written.
fn answer_unread<W: Write + Device>(
    alloc: Global,
    request: Request,
    kind: RefusalKind,
    output: &mut W,
    before: u64,
) -> Result<Option<RefusalKind>, RefusalKind>
    ensures served { IfOk result (λ refused. (is_storage kind ≡ false) × Appends (W.contents output.old)
        (W.contents output.new) (answer_text (Err (refused_under request.token kind))) × (refused ≡ Some kind)) }
    ensures ended { IfErr result
        (λ e. MatchBool (is_storage kind) ((e ≡ refusal.Storage) × (W.contents output.new ≡ W.contents output.old))
        (WritesPart e (W.contents output.old) (W.contents output.new)
        (answer_text (Err (refused_under request.token kind))))) }
    ensures failed { result ≡ Err refusal.WriteFailed → Rose before (W.failed output.new) }
{
    if is_storage(kind) {
        drop(request);
        return Err(RefusalKind::Storage);
    }
    answer_under(alloc, request, kind, output, before)
}

/// Whether the database failed.
fn is_storage(kind: RefusalKind) -> bool
    ensures { result ≡ is_storage kind }
{
    matches!(kind, RefusalKind::Storage)
}

/// Performs a request, and writes its answer: why it is refused, where it is.
fn serve_request<S: Alter, W: Write + Device>(
    alloc: Global,
    archive: &mut Archive<S>,
    request: Request,
    output: &mut W,
    before: u64,
) -> Result<Option<RefusalKind>, RefusalKind>
    ensures served { IfOk result (λ refused. (o : Outcome) × Steps S.Store (Ok (request, o)) archive.old archive.new
        × (has_failed o ≡ false) × Appends (W.contents output.old) (W.contents output.new)
        (answer_text (Ok (request, o))) × (refused ≡ refusal_in o)) }
    ensures ended { IfErr result (λ kind. (o : Outcome) × Steps S.Store (Ok (request, o)) archive.old archive.new
        × MatchBool (has_failed o) ((kind ≡ refusal.Storage) × (W.contents output.new ≡ W.contents output.old))
        (WritesPart kind (W.contents output.old) (W.contents output.new) (answer_text (Ok (request, o))))) }
    ensures failed { result ≡ Err refusal.WriteFailed → Rose before (W.failed output.new) }
{
    let outcome = archive.perform(alloc, &request);
    let answered = answer_outcome(alloc, &request, outcome, output, before);
    drop(request);
    answered
}

/// Writes the answer to a request with its outcome, and flushes it: why it is refused, where it is. `before` is the
/// writer's count of failures at the start of the call that asks.
///
/// 80: the outcome is 80, and nothing is written. 95: the writer failed. 1: memory was refused. At both a beginning of
/// the answer was written.
pub fn answer_outcome<W: Write + Device>(
    alloc: Global,
    request: &Request,
    outcome: Result<Answer, Refusal>,
    output: &mut W,
    before: u64,
) -> Result<Option<RefusalKind>, RefusalKind>
    ensures served { IfOk result (λ refused. (has_failed outcome ≡ false) × Appends (W.contents output.old)
        (W.contents output.new) (answer_text (Ok («request».now, outcome))) × (refused ≡ refusal_in outcome)) }
    ensures ended { IfErr result
        (λ kind. MatchBool (has_failed outcome)
        ((kind ≡ refusal.Storage) × (W.contents output.new ≡ W.contents output.old))
        (WritesPart kind (W.contents output.old) (W.contents output.new) (answer_text (Ok («request».now, outcome))))) }
    ensures failed { result ≡ Err refusal.WriteFailed → Rose before (W.failed output.new) }
{
    if has_failed(outcome) {
        return Err(RefusalKind::Storage);
    }
    match outcome_text(alloc, request, outcome) {
        Ok(text) => match write_answer(output, before, text.as_slice()) {
            Ok(()) => Ok(refusal_in(outcome)),
            Err(kind) => Err(kind),
        },
        Err(_) => Err(RefusalKind::OutOfMemory),
    }
}

/// Why a request is refused, where it is.
fn refusal_in(outcome: Result<Answer, Refusal>) -> Option<RefusalKind>
    ensures { result ≡ refusal_in outcome }
{
    match outcome {
        Ok(_) => None,
        Err(refusal) => Some(refusal.kind),
    }
}

/// Whether the database failed at a request.
pub fn has_failed(outcome: Result<Answer, Refusal>) -> bool
    ensures { result ≡ has_failed outcome }
{
    match outcome {
        Ok(_) => false,
        Err(refusal) => matches!(refusal.kind, RefusalKind::Storage),
    }
}

/// Writes the answer to a row that is no request, and hands its refusal on. 1, with nothing written: no memory was
/// found to read the row.
fn answer_bad<W: Write + Device>(
    alloc: Global,
    bad: BadRequest,
    output: &mut W,
    before: u64,
) -> Result<Option<RefusalKind>, RefusalKind>
    ensures served { IfOk result (λ refused. (is_want bad.kind ≡ false) × Appends (W.contents output.old)
        (W.contents output.new) (answer_text (Err bad)) × (refused ≡ Some bad.kind)) }
    ensures ended { IfErr result
        (λ kind. MatchBool (is_want bad.kind)
        ((kind ≡ refusal.OutOfMemory) × (W.contents output.new ≡ W.contents output.old))
        (WritesPart kind (W.contents output.old) (W.contents output.new) (answer_text (Err bad)))) }
    ensures failed { result ≡ Err refusal.WriteFailed → Rose before (W.failed output.new) }
{
    if is_want(bad.kind) {
        return Err(RefusalKind::OutOfMemory);
    }
    answer_refused(alloc, bad, output, before)
}

/// Writes the answer to a row that is refused so, flushes it, and hands its refusal on. Errors as of `answer_outcome`,
/// but for 80.
pub fn answer_refused<W: Write + Device>(
    alloc: Global,
    bad: BadRequest,
    output: &mut W,
    before: u64,
) -> Result<Option<RefusalKind>, RefusalKind>
    ensures served { IfOk result (λ refused. Appends (W.contents output.old)
        (W.contents output.new) (answer_text (Err bad)) × (refused ≡ Some bad.kind)) }
    ensures ended { IfErr result
        (λ kind. WritesPart kind (W.contents output.old) (W.contents output.new) (answer_text (Err bad))) }
    ensures failed { result ≡ Err refusal.WriteFailed → Rose before (W.failed output.new) }
{
    match bad_text(alloc, &bad) {
        Ok(text) => match write_answer(output, before, text.as_slice()) {
            Ok(()) => Ok(Some(bad.kind)),
            Err(kind) => Err(kind),
        },
        Err(_) => Err(RefusalKind::OutOfMemory),
    }
}

/// Whether memory was refused.
fn is_want(kind: RefusalKind) -> bool
    ensures { result ≡ is_want kind }
{
    matches!(kind, RefusalKind::OutOfMemory)
}

/// Writes and flushes an answer. At an error the writer has taken a beginning of it.
fn write_answer<W: Write + Device>(
    output: &mut W,
    before: u64,
    text: &[u8],
) -> Result<(), RefusalKind>
    ensures written { OnOk result (Appends (W.contents output.old) (W.contents output.new) text.now) }
    ensures part { IfErr result (λ kind. WritesPart kind (W.contents output.old) (W.contents output.new) text.now) }
    ensures failed { result ≡ Err refusal.WriteFailed → Rose before (W.failed output.new) }
{
    match write_flushed(output, before, text) {
        Ok(()) => Ok(()),
        Err(TransferError::Failed) => Err(RefusalKind::WriteFailed),
        Err(TransferError::OutOfMemory) => Err(RefusalKind::OutOfMemory),
    }
}
