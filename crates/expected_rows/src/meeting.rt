//! One row whose answer may be expected: it is served where it would be answered so.

ghost use Rattle.std.specs.Prelude.{◌≡◌, Err, IfErr, IfOk, MatchBool, Ok, OnErr, false, true};
ghost use Rattle.std.specs.Io.KnownBytes.{Appends};
ghost use Rattle.csv.specs.Records.{fields_of};
ghost use Rattle.devices.specs.Devices.{Rose};
ghost use Rattle.expected_answers.specs.Expected.{left};
ghost use Rattle.record_text.specs.declared.refusal.RefusalKind.TheVariants as refusal;
ghost use Rattle.store.specs.Histories.{has_failed};
ghost use Rattle.archive_input.specs.Answers.{answer_text};
ghost use Rattle.archive_input.specs.Applying.{WritesPart};
ghost use Rattle.archive_input.specs.RowByRow.{IsTold, refusal_in};
ghost use Rattle.expected_rows.specs.Expecting.{is_expected, token_in, without_next};
ghost use Rattle.expected_rows.specs.Meeting.{
  AnswersExpected,
  AreLeft,
  EndsExpected,
  EndsPerforming,
  Meets,
  PerformsExpected,
  RefusesExpected,
};
ghost use Rattle.expected_rows.specs.declared.meeting.Met.TheVariants as met;

use crate::foreseeing::{ask_row, foresee};
use archive_core::Request;
use archive_input::{
    BadRequest, answer_outcome, answer_refused, bad_text, has_failed, outcome_text, tell_fault,
};
use csv::ByteRecord;
use devices::Device;
use expected_answers::Expected;
use receipts::Answer;
use record_text::{Refusal, RefusalKind};
use sqlite::Alter;
use std::alloc::Global;
use std::io::Write;
use store::Archive;

/// What became of a row whose answer may be expected.
#[derive(Clone, Copy, Debug)]
pub(crate) enum Met {
    /// It was served: why it was refused, where it was.
    Served(Option<RefusalKind>),
    /// It was not: it would be answered otherwise than is expected.
    Unexpected,
}

/// Serves the row of this number as `serve_row`, where its answer is the next that is expected of its token, which is
/// then expected no more; or does nothing.
pub(crate) fn meet_row<S: Alter, W: Write + Device, F: Write + Device>(
    alloc: Global,
    archive: &mut Archive<S>,
    still: &mut Expected,
    row: &ByteRecord,
    number: u64,
    output: &mut W,
    faults: &mut F,
    before: u64,
) -> Result<Met, RefusalKind>
    ensures met { IfOk result (λ what. Meets S.Store W.contents F.contents number (fields_of row.now)
        (left still.old) (left still.new) what
        (record { archive = archive.old; output = output.old; faults = faults.old })
        (record { archive = archive.new; output = output.new; faults = faults.new })) }
    ensures ended { IfErr result (EndsExpected S.Store (fields_of row.now) (left still.old) archive.old archive.new
        (W.contents output.old) (W.contents output.new)) }
    ensures failed { result ≡ Err refusal.WriteFailed → Rose before (W.failed output.new) }
    ensures untold { OnErr result (faults.new ≡ faults.old) }
{
    match answer_row(alloc, archive, still, row, output, before) {
        Ok(Met::Served(refused)) => {
            tell_refused(alloc, number, refused, row, faults);
            Ok(Met::Served(refused))
        }
        Ok(Met::Unexpected) => Ok(Met::Unexpected),
        Err(kind) => Err(kind),
    }
}

/// Reports why the row of this number was refused, where it was.
fn tell_refused<F: Write + Device>(
    alloc: Global,
    number: u64,
    refused: Option<RefusalKind>,
    row: &ByteRecord,
    faults: &mut F,
)
    ensures { IsTold number refused (F.contents faults.old) (F.contents faults.new) }
{
    match refused {
        Some(kind) => tell_fault(alloc, number, kind, row, faults),
        None => {}
    }
}

/// The same without the faults.
fn answer_row<S: Alter, W: Write + Device>(
    alloc: Global,
    archive: &mut Archive<S>,
    still: &mut Expected,
    row: &ByteRecord,
    output: &mut W,
    before: u64,
) -> Result<Met, RefusalKind>
    ensures answers { IfOk result (AnswersExpected S.Store (fields_of row.now) (left still.old) (left still.new)
        archive.old archive.new (W.contents output.old) (W.contents output.new)) }
    ensures ended { IfErr result (EndsExpected S.Store (fields_of row.now) (left still.old) archive.old archive.new
        (W.contents output.old) (W.contents output.new)) }
    ensures failed { result ≡ Err refusal.WriteFailed → Rose before (W.failed output.new) }
{
    match ask_row(alloc, archive, row) {
        Ok(Ok(request)) => perform_expected(alloc, archive, still, request, output, before),
        Ok(Err(bad)) => refuse_expected(alloc, still, bad, output, before),
        Err(kind) => Err(kind),
    }
}

/// Performs a request whose answer is the next that is expected of its token, and writes the answer.
fn perform_expected<S: Alter, W: Write + Device>(
    alloc: Global,
    archive: &mut Archive<S>,
    still: &mut Expected,
    request: Request,
    output: &mut W,
    before: u64,
) -> Result<Met, RefusalKind>
    ensures performs { IfOk result (PerformsExpected S.Store request (left still.old) (left still.new)
        archive.old archive.new (W.contents output.old) (W.contents output.new)) }
    ensures ended { IfErr result (EndsPerforming S.Store request (left still.old) archive.old archive.new
        (W.contents output.old) (W.contents output.new)) }
    ensures failed { result ≡ Err refusal.WriteFailed → Rose before (W.failed output.new) }
{
    let foreseen = match foresee(alloc, archive, &request) {
        Ok(foreseen) => foreseen,
        Err(kind) => return Err(kind),
    };
    if !is_next_answer(alloc, still, &request, foreseen)? {
        return Ok(Met::Unexpected);
    }
    let outcome = archive.perform(alloc, &request);
    finish(alloc, still, request, outcome, output, before)
}

/// Writes the answer to a request that was performed. 1: it is not as expected, and nothing is written: memory was
/// refused.
fn finish<W: Write + Device>(
    alloc: Global,
    still: &mut Expected,
    request: Request,
    outcome: Result<Answer, Refusal>,
    output: &mut W,
    before: u64,
) -> Result<Met, RefusalKind>
    ensures answered { IfOk result (λ what. (has_failed outcome ≡ false) × (what ≡ met.Served (refusal_in outcome))
        × Appends (W.contents output.old) (W.contents output.new) (answer_text (Ok (request, outcome)))
        × (is_expected (left still.old) (Ok (request, outcome)) ≡ true)
        × AreLeft (left still.new) (without_next (left still.old) request.token)) }
    ensures ended { IfErr result
        (λ kind. MatchBool (has_failed outcome)
        ((kind ≡ refusal.Storage) × (W.contents output.new ≡ W.contents output.old))
        (WritesPart kind (W.contents output.old) (W.contents output.new) (answer_text (Ok (request, outcome))))) }
    ensures failed { result ≡ Err refusal.WriteFailed → Rose before (W.failed output.new) }
{
    if !has_failed(outcome) && !is_next_answer(alloc, still, &request, outcome)? {
        return Err(RefusalKind::OutOfMemory);
    }
    still.take(request.token.as_str());
    match answer_outcome(alloc, &request, outcome, output, before) {
        Ok(refused) => Ok(Met::Served(refused)),
        Err(kind) => Err(kind),
    }
}

/// Whether the answer to a request with this outcome is the next that is expected of its token, or none is.
fn is_next_answer(
    alloc: Global,
    still: &Expected,
    request: &Request,
    outcome: Result<Answer, Refusal>,
) -> Result<bool, RefusalKind>
    ensures is { IfOk result (λ is. is ≡ is_expected (left still.now) (Ok («request».now, outcome))) }
    ensures memory { IfErr result (λ kind. kind ≡ refusal.OutOfMemory) }
{
    let text = outcome_text(alloc, request, outcome)?;
    Ok(still.is_next(request.token.as_str(), text.as_slice()))
}

/// Writes the answer to a row that is refused so, where that is the next that is expected of its token.
fn refuse_expected<W: Write + Device>(
    alloc: Global,
    still: &mut Expected,
    bad: BadRequest,
    output: &mut W,
    before: u64,
) -> Result<Met, RefusalKind>
    ensures answered { IfOk result (RefusesExpected bad (left still.old) (left still.new)
        (W.contents output.old) (W.contents output.new)) }
    ensures ended { IfErr result
        (λ kind. WritesPart kind (W.contents output.old) (W.contents output.new) (answer_text (Err bad))) }
    ensures failed { result ≡ Err refusal.WriteFailed → Rose before (W.failed output.new) }
{
    if !is_next_refusal(alloc, still, &bad)? {
        return Ok(Met::Unexpected);
    }
    still.take(token_of(&bad));
    match answer_refused(alloc, bad, output, before) {
        Ok(refused) => Ok(Met::Served(refused)),
        Err(kind) => Err(kind),
    }
}

/// Whether the answer to a row that is refused so is the next that is expected of its token, or none is.
fn is_next_refusal(alloc: Global, still: &Expected, bad: &BadRequest) -> Result<bool, RefusalKind>
    ensures is { IfOk result (λ is. is ≡ is_expected (left still.now) (Err bad.now)) }
    ensures memory { IfErr result (λ kind. kind ≡ refusal.OutOfMemory) }
{
    let text = bad_text(alloc, bad)?;
    Ok(still.is_next(token_of(bad), text.as_slice()))
}

/// The token of a row that is refused, empty where none is known.
fn token_of(bad: &BadRequest) -> &str
    ensures { result.now ≡ token_in (Err bad.now) }
{
    match &bad.token {
        Some(token) => token.as_str(),
        None => "",
    }
}
