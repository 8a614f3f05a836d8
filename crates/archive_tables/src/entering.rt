//! A page, read and entered on an archive that is open.

ghost use Rattle.std.specs.Prelude.{◌≡◌, Some, false};
ghost use Rattle.archive_tables.specs.Entering as entering;

use crate::looking::{look_for_places, look_for_source};
use crate::request::{PageRequest, request_of};
use archive_input::perform_once;
use page_batches::{BatchRefusal, Places, count_words, row_place, unplaced};
use page_entries::{DateOrder, PageEntry, read_page};
use receipts::{Answer, Token};
use record_text::{Refusal, RefusalKind};
use row_references::NumberWord;
use sqlite::Alter;
use std::alloc::Global;
use store::Archive;
use table_pages::PageFault;

/// What entering a page has come to.
#[derive(Debug, Drop)]
pub enum PageEnd {
    /// All its entries are made, or were made before under the token; and how many dates have no days but words.
    Entered { answer: Answer, words: usize },
    /// It is no page of register entries: its first fault.
    Unread { fault: PageFault },
}

/// Enters a page as a batch of a source: all its rows or none, in one commit, as one request under the token. Dates of
/// three numbers are in that order, where one is given. The number of the source may be given by a token: it is the
/// first number of the answer that is stored for it before the batch.
///
/// Where the page has a fault the archive is not touched. Else refusals are those of the looks for the source and the
/// places (50 without a row if its token has no number, and at the first row without a place, 51 of the source, 80,
/// 40), and then those of `Archive::perform`, all with the number that the sheet shows for the row. 84: an import is
/// open. 1: memory was refused.
pub fn enter_page<S: Alter>(
    alloc: Global,
    archive: &mut Archive<S>,
    token: Token,
    source: &NumberWord,
    order: Option<DateOrder>,
    bytes: &[u8],
) -> Result<PageEnd, BatchRefusal>
    requires kept { archive.old.is_lost ≡ false }
    ensures { entering.EntersPage S.Store token source.now order bytes.now archive.old result archive.new }
{
    match read_page(alloc, order, bytes) {
        Ok(Ok(entries)) => enter_counted(alloc, archive, token, source, entries),
        Ok(Err(fault)) => Ok(PageEnd::Unread { fault }),
        Err(_) => Err(unplaced(alloc, RefusalKind::OutOfMemory)),
    }
}

/// Enters the entries of a page, and counts its dates that are only words.
fn enter_counted<S: Alter>(
    alloc: Global,
    archive: &mut Archive<S>,
    token: Token,
    source: &NumberWord,
    entries: Vec<PageEntry>,
) -> Result<PageEnd, BatchRefusal>
    requires kept { archive.old.is_lost ≡ false }
    ensures { entering.EntersCounted S.Store token source.now entries.items archive.old result archive.new }
{
    let words = count_words(&entries);
    match enter_entries(alloc, archive, token, source, entries) {
        Ok(answer) => Ok(PageEnd::Entered { answer, words }),
        Err(refusal) => Err(refusal),
    }
}

/// Enters the entries of a page, of a source whose number a word gives.
fn enter_entries<S: Alter>(
    alloc: Global,
    archive: &mut Archive<S>,
    token: Token,
    source: &NumberWord,
    entries: Vec<PageEntry>,
) -> Result<Answer, BatchRefusal>
    requires kept { archive.old.is_lost ≡ false }
    ensures { entering.EntersEntries S.Store token source.now entries.items archive.old result archive.new }
{
    match source {
        NumberWord::Number(number) => enter_of(alloc, archive, token, *number, entries),
        NumberWord::Reference(_) => match look_for_source(alloc, archive, source) {
            Ok(number) => enter_of(alloc, archive, token, number, entries),
            Err(kind) => Err(unplaced(alloc, kind)),
        },
    }
}

/// Enters the entries of a page, of the source of this number.
fn enter_of<S: Alter>(
    alloc: Global,
    archive: &mut Archive<S>,
    token: Token,
    source: u32,
    entries: Vec<PageEntry>,
) -> Result<Answer, BatchRefusal>
    requires kept { archive.old.is_lost ≡ false }
    ensures { entering.EntersOf S.Store token source entries.items archive.old result archive.new }
{
    match look_for_places(alloc, archive, &token, source, &entries) {
        Ok(found) => enter_found(alloc, archive, token, source, entries, found),
        Err(kind) => Err(unplaced(alloc, kind)),
    }
}

/// Enters the entries of a page with the places that were found.
fn enter_found<S: Alter>(
    alloc: Global,
    archive: &mut Archive<S>,
    token: Token,
    source: u32,
    entries: Vec<PageEntry>,
    found: Places,
) -> Result<Answer, BatchRefusal>
    ensures { entering.IsDoneOrLeft S.Store token source entries.items archive.old result archive.new found }
{
    match request_of(alloc, token, source, entries, &found) {
        Ok(Ok(PageRequest { request, numbers })) => {
            let outcome = perform_once(alloc, archive, request);
            answered(alloc, numbers, outcome)
        }
        Ok(Err(refusal)) => Err(refusal),
        Err(_) => Err(unplaced(alloc, RefusalKind::OutOfMemory)),
    }
}

/// The answer of a batch, or its refusal with the row of the sheet.
fn answered(
    alloc: Global,
    numbers: Vec<usize>,
    outcome: Result<Answer, Refusal>,
) -> Result<Answer, BatchRefusal>
    ensures { result ≡ entering.answered numbers.items outcome }
{
    match outcome {
        Ok(answer) => Ok(answer),
        Err(refusal) => Err(of_sheet(alloc, &numbers, refusal)),
    }
}

/// A refusal of a batch, with the row of the sheet. Takes no memory.
pub(crate) fn of_sheet(alloc: Global, numbers: &[usize], refusal: Refusal) -> BatchRefusal
    ensures { result ≡ entering.of_sheet numbers.now refusal }
{
    let Refusal { kind, at } = refusal;
    let mut refusal = unplaced(alloc, kind);
    refusal.refusal.at = sheet_row(numbers, at);
    refusal
}

/// The row of the sheet that a row of the batch is, which is counted from 1.
fn sheet_row(numbers: &[usize], row: Option<u32>) -> Option<u32>
    ensures { result ≡ entering.sheet_row numbers.now row }
{
    match row {
        Some(row) => row_of_sheet(numbers, row),
        None => None,
    }
}

fn row_of_sheet(numbers: &[usize], row: u32) -> Option<u32>
    ensures { result ≡ entering.sheet_row numbers.now (Some row) }
{
    let before = row.saturating_sub(1) as usize;
    match numbers.get(before) {
        Some(number) => Some(row_place(*number)),
        None => None,
    }
}
