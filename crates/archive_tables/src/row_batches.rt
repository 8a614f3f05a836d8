//! All rows of an input, entered on an archive as one batch.

ghost use Rattle.std.specs.Prelude.{◌≡◌, ◌⊎◌, Err, IfErr, IfOk, List, Ok, Option, false, true, ℕ};
ghost use Rattle.devices.specs.Devices.{Rose};
ghost use Rattle.request_csv.specs.Batches.{AreRead, ReadsRows};
ghost use Rattle.request_csv.specs.Input.{Row, row_bytes};
ghost use Rattle.store.specs.Shut.{is_shut};
ghost use Rattle.archive_input.specs.Applying.{Steps};
ghost use Rattle.archive_tables.specs.RowBatches.{
  Enters,
  EntersOf,
  HasNoSource,
  IsDone,
  IsLeft,
  IsNoBatch,
  batch_request,
};
ghost use Rattle.archive_tables.specs.Sources.{BySource};

use crate::looking::{look_for_numbers, look_for_source};
use archive_core::Request;
use archive_input::perform_once;
use commands::{Command, EntryRows};
use devices::Device;
use receipts::{Answer, Token};
use record_text::Refusal;
use request_csv::{BatchRows, read_entries};
use row_references::NumberWord;
use sqlite::Alter;
use std::alloc::Global;
use std::io::Read;
use store::Archive;

/// The source of a batch that is refused before it is looked at.
const ANY_SOURCE: u32 = 0;

/// Reads rows of register entries, and enters them on the archive as a batch of a source: all of them or none, in one
/// commit, as one request under the token. The source and the place of a row may be references: each is the first
/// number of the answer that is stored for its token before the batch.
///
/// Where a row is no entry, or memory or the reader fails, the refusal is that of `read_entries`, and the archive is
/// not touched. Else it is 50 without a row if the token of the source has no number, then 50 at the first row whose
/// token has none, then that of `Archive::perform`, whose place is the row that is refused. 80, 40: a look at the
/// archive failed.
pub fn enter<S: Alter, R: Read + Device>(
    alloc: Global,
    archive: &mut Archive<S>,
    token: Token,
    source: &NumberWord,
    input: &mut R,
) -> Result<Answer, Refusal>
    ensures entered { IfOk result (λ answer. Enters S.Store token source.now (row_bytes (R.remaining input.old))
        archive.old (Ok answer) archive.new) }
    ensures refused { IfErr result (λ e. Enters S.Store token source.now (row_bytes (R.remaining input.old))
        archive.old (Err e) archive.new
        ⊎ ((archive.new ≡ archive.old) × IsNoBatch (row_bytes (R.remaining input.old)) e
        (Rose (R.failed input.old) (R.failed input.new)))) }
{
    match read_entries(alloc, input) {
        Ok(rows) => enter_rows(alloc, archive, token, source, rows),
        Err(why) => Err(why),
    }
}

/// Enters rows as they were read. An archive that takes no requests refuses them without a look.
fn enter_rows<S: Alter>(
    alloc: Global,
    archive: &mut Archive<S>,
    token: Token,
    source: &NumberWord,
    rows: BatchRows,
) -> Result<Answer, Refusal>
    ensures { (input : Option (List ℕ)) → ReadsRows input rows
        → Enters S.Store token source.now input archive.old result archive.new }
{
    if archive.is_shut() {
        drop(rows);
        return enter_shut(alloc, archive, token);
    }
    enter_open(alloc, archive, token, source, rows)
}

/// The same on an archive that takes requests.
fn enter_open<S: Alter>(
    alloc: Global,
    archive: &mut Archive<S>,
    token: Token,
    source: &NumberWord,
    rows: BatchRows,
) -> Result<Answer, Refusal>
    requires takes { is_shut archive.old ≡ false }
    ensures { (input : Option (List ℕ)) → ReadsRows input rows
        → BySource S.Store archive.old archive.new source.now
        (λ n. EntersOf S.Store token n input archive.old result archive.new) (HasNoSource input result) }
{
    match source {
        NumberWord::Number(number) => enter_of(alloc, archive, token, *number, rows),
        NumberWord::Reference(_) => match look_for_source(alloc, archive, source) {
            Ok(number) => enter_of(alloc, archive, token, number, rows),
            Err(kind) => Err(Refusal::from(kind)),
        },
    }
}

/// Enters rows of the source of this number.
fn enter_of<S: Alter>(
    alloc: Global,
    archive: &mut Archive<S>,
    token: Token,
    source: u32,
    rows: BatchRows,
) -> Result<Answer, Refusal>
    requires takes { is_shut archive.old ≡ false }
    ensures { (input : Option (List ℕ)) → ReadsRows input rows
        → EntersOf S.Store token source input archive.old result archive.new }
{
    match look_for_numbers(alloc, archive, &rows) {
        Ok(numbers) => enter_numbered(alloc, archive, token, source, rows, numbers.as_slice()),
        Err(kind) => Err(Refusal::from(kind)),
    }
}

/// Asks an archive that takes no requests for a batch, which it refuses, whatever its source.
fn enter_shut<S: Alter>(
    alloc: Global,
    archive: &mut Archive<S>,
    token: Token,
) -> Result<Answer, Refusal>
    requires shut { is_shut archive.old ≡ true }
    ensures { (n : ℕ) (input : Option (List ℕ)) → EntersOf S.Store token n input archive.old result archive.new }
{
    let rows = EntryRows::new(Vec::new(alloc));
    perform_batch(alloc, archive, token, ANY_SOURCE, rows)
}

/// Enters rows with these numbers.
fn enter_numbered<S: Alter>(
    alloc: Global,
    archive: &mut Archive<S>,
    token: Token,
    source: u32,
    rows: BatchRows,
    numbers: &[Option<u32>],
) -> Result<Answer, Refusal>
    ensures { (read : List Row) → AreRead read rows
        → IsDone S.Store token source numbers.now read archive.old result archive.new
        ⊎ IsLeft S.Store token source numbers.now read archive.old result archive.new }
{
    match rows.entries(alloc, numbers) {
        Ok(entries) => perform_batch(alloc, archive, token, source, entries),
        Err(refusal) => Err(refusal),
    }
}

/// Performs the request of a batch.
fn perform_batch<S: Alter>(
    alloc: Global,
    archive: &mut Archive<S>,
    token: Token,
    source: u32,
    rows: EntryRows,
) -> Result<Answer, Refusal>
    ensures { Steps S.Store (Ok (batch_request token source rows, result)) archive.old archive.new }
{
    perform_once(
        alloc,
        archive,
        Request {
            token,
            command: Command::Entries { source, rows },
            digest: None,
        },
    )
}
