//! What an archive answers for the rows of a page: why it would refuse their places, which are to be made, and whether
//! it has their keys.

ghost use Rattle.std.specs.Prelude.{◌≡◌, ◌++◌, ◌∷◌, [], IfErr, Err, OnOk, Result, false};
ghost use Rattle.archive_state.specs.Looks.{CountsFailures, Looked, is_stop as stop_test};
ghost use Rattle.archive_state.specs.Views.{On};
ghost use Rattle.page_entries.specs.Places.{place_in as place_of_cell};
ghost use Rattle.record_text.specs.declared.refusal.RefusalKind.{RefusalKind as SpecKind};
ghost use Rattle.page_answers.specs.Answers as answers;

use crate::keys::{Key, key_of};
use crate::news::{paths_of, refusal_with, row_news};
use archive_state::View;
use command_checks::check_place;
use commands::{Field, FieldRow};
use page_entries::{PagePlace, cell_under, place_in};
use page_places::News;
use receipts::{Receipt, Token};
use record_text::{RefusalKind, Text};
use std::alloc::{AllocError, Global};
use std::collections::BTreeSet;
use table_pages::{Column, Sheet, SheetRow};

/// What an archive answers for a row.
#[derive(Debug, Drop)]
pub struct RowAnswer {
    /// Why its place would be refused, if it would.
    pub place: Option<RefusalKind>,
    /// Whether an entry has its key.
    pub is_taken: bool,
    /// The paths of the places that are to be made for it, the larger first.
    pub news: FieldRow,
}

/// The answers for all rows of a sheet, whose entries would be of a source, where places are to be made or not.
pub fn answers_of<V: View>(
    alloc: Global,
    view: &mut V,
    source: u32,
    makes: bool,
    sheet: &Sheet,
) -> Result<Vec<RowAnswer>, RefusalKind>
    ensures shows { On V.View view.old view.new (λ c. Looked result
        (λ found. found.items ≡ answers.answers_on c source makes sheet.now)) }
    ensures counts { CountsFailures (V.failed view.old) (V.failed view.new) result }
{
    let mut made = BTreeSet::new(alloc);
    let mut answers = Vec::new(alloc);
    let rows = sheet.rows();
    'rows: for row in rows {
        let news = row_news(alloc, view, makes, &mut made, sheet, row)?;
        let answer = answer_of(alloc, view, source, sheet, news, row)?;
        push(&mut answers, answer)?;
    }
    Ok(answers)
}

/// Adds an answer after the others.
fn push(all: &mut Vec<RowAnswer>, answer: RowAnswer) -> Result<(), AllocError>
    ensures { OnOk result (all.new.items ≡ all.old.items ++ answer ∷ []) }
{
    all.push(answer)?;
    Ok(())
}

fn answer_of<V: View>(
    alloc: Global,
    view: &mut V,
    source: u32,
    sheet: &Sheet,
    news: Option<News>,
    row: &SheetRow,
) -> Result<RowAnswer, RefusalKind>
    ensures shows { On V.View view.old view.new
        (λ c. Looked result (λ answer. answer ≡ answers.answer_of c source sheet.now news row.now)) }
    ensures counts { CountsFailures (V.failed view.old) (V.failed view.new) result }
{
    let place = cell_refusal(alloc, view, cell_under(sheet, row, Column::Place))?;
    let key = key_of(alloc, sheet, row)?;
    let is_taken = is_taken(alloc, view, source, &key)?;
    let place = refusal_with(place, &news);
    let news = paths_of(alloc, news);
    Ok(RowAnswer {
        place,
        is_taken,
        news,
    })
}

/// Why the archive would refuse the place of a cell. `None`: it would not, or the cell names none.
fn cell_refusal<V: View>(
    alloc: Global,
    view: &mut V,
    cell: &str,
) -> Result<Option<RefusalKind>, RefusalKind>
    ensures shows { On V.View view.old view.new
        (λ c. Looked result (λ found. found ≡ answers.cell_refusal c (place_of_cell cell.now))) }
    ensures counts { CountsFailures (V.failed view.old) (V.failed view.new) result }
{
    match place_in(alloc, cell)? {
        Ok(place) => maybe_refusal(alloc, view, &place),
        Err(_) => Ok(None),
    }
}

fn maybe_refusal<V: View>(
    alloc: Global,
    view: &mut V,
    place: &Option<PagePlace>,
) -> Result<Option<RefusalKind>, RefusalKind>
    ensures shows { On V.View view.old view.new
        (λ c. Looked result (λ found. found ≡ answers.maybe_refusal c place.now)) }
    ensures counts { CountsFailures (V.failed view.old) (V.failed view.new) result }
{
    match place {
        Some(place) => place_refusal(alloc, view, place),
        None => Ok(None),
    }
}

fn place_refusal<V: View>(
    alloc: Global,
    view: &mut V,
    place: &PagePlace,
) -> Result<Option<RefusalKind>, RefusalKind>
    ensures shows { On V.View view.old view.new
        (λ c. Looked result (λ found. found ≡ answers.place_refusal c place.now)) }
    ensures counts { CountsFailures (V.failed view.old) (V.failed view.new) result }
{
    match place {
        PagePlace::Number(number) => number_refusal(alloc, view, *number),
        PagePlace::Token(token) => token_refusal(alloc, view, token),
        PagePlace::Path(path) => path_refusal(alloc, view, path),
    }
}

/// Why the archive would refuse a place by its number.
fn number_refusal<V: View>(
    alloc: Global,
    view: &mut V,
    number: u32,
) -> Result<Option<RefusalKind>, RefusalKind>
    ensures shows { On V.View view.old view.new
        (λ c. Looked result (λ found. found ≡ answers.number_refusal c number)) }
    ensures counts { CountsFailures (V.failed view.old) (V.failed view.new) result }
{
    match check_place(alloc, view, Some(number)) {
        Ok(()) => Ok(None),
        Err(kind) => unless_stop(kind),
    }
}

/// A refusal as an answer, unless it is a stop.
fn unless_stop(kind: RefusalKind) -> Result<Option<RefusalKind>, RefusalKind>
    ensures refusal { (right : Result (Unit {0}) SpecKind) → (stop_test kind ≡ false → right ≡ Err kind)
        → Looked result (λ found. found ≡ answers.refusal right) }
    ensures same { IfErr result (λ e. e ≡ kind) }
{
    if is_stop(kind) {
        Err(kind)
    } else {
        Ok(Some(kind))
    }
}

/// Whether a refusal may come in place of any other answer: 1, 40 or 80.
fn is_stop(kind: RefusalKind) -> bool
    ensures { result ≡ stop_test kind }
{
    matches!(
        kind,
        RefusalKind::OutOfMemory | RefusalKind::BadStored | RefusalKind::Storage
    )
}

/// The same of the first number of what was made under a token.
fn token_refusal<V: View>(
    alloc: Global,
    view: &mut V,
    token: &Token,
) -> Result<Option<RefusalKind>, RefusalKind>
    ensures shows { On V.View view.old view.new
        (λ c. Looked result (λ found. found ≡ answers.token_refusal c token.now)) }
    ensures counts { CountsFailures (V.failed view.old) (V.failed view.new) result }
{
    match made_first(view.receipt(alloc, token)?) {
        Some(number) => number_refusal(alloc, view, number),
        None => Ok(Some(RefusalKind::NoSuch)),
    }
}

/// The first number that a request made. `None`: it made none.
fn made_first(receipt: Option<Receipt>) -> Option<u32>
    ensures { result ≡ answers.made_first receipt }
{
    match receipt {
        Some(receipt) if receipt.answer.count > 0 => Some(receipt.answer.first),
        _ => None,
    }
}

/// The same of a place by its path.
pub(crate) fn path_refusal<V: View>(
    alloc: Global,
    view: &mut V,
    path: &Field,
) -> Result<Option<RefusalKind>, RefusalKind>
    ensures shows { On V.View view.old view.new
        (λ c. Looked result (λ found. found ≡ answers.path_refusal c path.now)) }
    ensures counts { CountsFailures (V.failed view.old) (V.failed view.new) result }
{
    match path.text(alloc)? {
        Some(path) => text_refusal(alloc, view, &path),
        None => Ok(Some(RefusalKind::BadText)),
    }
}

fn text_refusal<V: View>(
    alloc: Global,
    view: &mut V,
    path: &Text,
) -> Result<Option<RefusalKind>, RefusalKind>
    ensures shows { On V.View view.old view.new
        (λ c. Looked result (λ found. found ≡ answers.text_refusal c path.now)) }
    ensures counts { CountsFailures (V.failed view.old) (V.failed view.new) result }
{
    match view.place_at(alloc, path)? {
        Some(_) => Ok(None),
        None => Ok(Some(RefusalKind::NoSuch)),
    }
}

/// Whether an entry of a source has the key.
fn is_taken<V: View>(
    alloc: Global,
    view: &mut V,
    source: u32,
    key: &Option<Key>,
) -> Result<bool, RefusalKind>
    ensures shows { On V.View view.old view.new
        (λ c. Looked result (λ b. b ≡ answers.is_taken c source key.now)) }
    ensures counts { CountsFailures (V.failed view.old) (V.failed view.new) result }
{
    match key {
        Some(key) => has_entry(alloc, view, source, key),
        None => Ok(false),
    }
}

#[tactic(auto, using(command_checks::proofs::Likes::key_free))]
fn has_entry<V: View>(
    alloc: Global,
    view: &mut V,
    source: u32,
    key: &Key,
) -> Result<bool, RefusalKind>
    ensures shows { On V.View view.old view.new
        (λ c. Looked result (λ b. b ≡ answers.has_entry c source key.now)) }
    ensures counts { CountsFailures (V.failed view.old) (V.failed view.new) result }
{
    match view.entry_at(alloc, source, key.kind, &key.page, key.item)? {
        Some(_) => Ok(true),
        None => Ok(false),
    }
}
