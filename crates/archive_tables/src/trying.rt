//! Whether an archive would take a page, if the places that it lacks were there.

ghost use Rattle.std.specs.Prelude.{◌≡◌, Err, Ok, false, true};
ghost use Rattle.archive_core.specs.Machine.{outcome as outcome_of};
ghost use Rattle.archive_state.specs.Looks.{CountsFailures, Looked, is_stop as stop_test};
ghost use Rattle.archive_state.specs.Views.{On};
ghost use Rattle.page_batches.specs.Batches.{unplaced as unplaced_of};
ghost use Rattle.archive_tables.specs.Entering as entering;
ghost use Rattle.archive_tables.specs.Making as making;

use crate::entering::of_sheet;
use crate::request::{PageRequest, request_of};
use archive_core::{Request, decide};
use archive_state::View;
use commands::FieldRow;
use page_batches::{BatchRefusal, PageNews, news_on, unplaced};
use page_entries::PageEntry;
use receipts::Token;
use record_text::{Refusal, RefusalKind};
use std::alloc::Global;

/// The paths of the places that are to be made before a page is entered, or why the archive would refuse it with them:
/// as `places_on` and `decide` do. Refusals are those of the view: 1, 40 or 80.
pub(crate) fn trial<V: View>(
    alloc: Global,
    view: &mut V,
    token: &Token,
    source: u32,
    entries: Vec<PageEntry>,
) -> Result<Result<FieldRow, BatchRefusal>, RefusalKind>
    ensures shows { On V.View view.old view.new
        (λ c. Looked result (λ found. found ≡ making.trial_on c token.now source entries.items)) }
    ensures counts { CountsFailures (V.failed view.old) (V.failed view.new) result }
{
    match news_on(alloc, view, token, source, &entries) {
        Ok(news) => try_news(alloc, view, token, source, entries, news),
        Err(kind) => unless_stop(alloc, kind),
    }
}

/// A refusal of the page, unless it is a stop.
fn unless_stop(
    alloc: Global,
    kind: RefusalKind,
) -> Result<Result<FieldRow, BatchRefusal>, RefusalKind>
    ensures refused { stop_test kind ≡ false → result ≡ Ok (Err (unplaced_of kind)) }
    ensures stopped { stop_test kind ≡ true → result ≡ Err kind }
{
    if is_stop(kind) {
        Err(kind)
    } else {
        Ok(Err(unplaced(alloc, kind)))
    }
}

/// Whether a refusal may come in place of any other answer: 1, 40 or 80.
fn is_stop(kind: RefusalKind) -> bool
    ensures { result ≡ stop_test kind }
{
    matches!(
        kind,
        RefusalKind::OutOfMemory | RefusalKind::BadStored | RefusalKind::Storage
    )
}

/// The same, with what is to be made.
fn try_news<V: View>(
    alloc: Global,
    view: &mut V,
    token: &Token,
    source: u32,
    entries: Vec<PageEntry>,
    news: PageNews,
) -> Result<Result<FieldRow, BatchRefusal>, RefusalKind>
    ensures shows { On V.View view.old view.new
        (λ c. Looked result (λ found. found ≡ making.tried c token.now source entries.items (Ok news))) }
    ensures counts { CountsFailures (V.failed view.old) (V.failed view.new) result }
{
    let PageNews { places, paths } = news;
    let token = token.copy(alloc)?;
    match request_of(alloc, token, source, entries, &places) {
        Ok(Ok(PageRequest { request, numbers })) => {
            try_request(alloc, view, &request, &numbers, paths)
        }
        Ok(Err(refusal)) => Ok(Err(refusal)),
        Err(_) => Err(RefusalKind::OutOfMemory),
    }
}

/// The same, with its request.
fn try_request<V: View>(
    alloc: Global,
    view: &mut V,
    request: &Request,
    numbers: &[usize],
    paths: FieldRow,
) -> Result<Result<FieldRow, BatchRefusal>, RefusalKind>
    ensures shows { On V.View view.old view.new
        (λ c. Looked result (λ found. found ≡ making.taken numbers.now paths (outcome_of c request.now))) }
    ensures counts { CountsFailures (V.failed view.old) (V.failed view.new) result }
{
    match decide(alloc, view, request) {
        Ok(changes) => {
            drop(changes);
            Ok(Ok(paths))
        }
        Err(refusal) => refused(alloc, numbers, refusal),
    }
}

/// The refusal of a request, with the row of the sheet, unless it is a stop.
fn refused(
    alloc: Global,
    numbers: &[usize],
    refusal: Refusal,
) -> Result<Result<FieldRow, BatchRefusal>, RefusalKind>
    ensures refused { stop_test refusal.kind ≡ false → result ≡ Ok (Err (entering.of_sheet numbers.now refusal)) }
    ensures stopped { stop_test refusal.kind ≡ true → result ≡ Err refusal.kind }
{
    if is_stop(refusal.kind) {
        Err(refusal.kind)
    } else {
        Ok(Err(of_sheet(alloc, numbers, refusal)))
    }
}
