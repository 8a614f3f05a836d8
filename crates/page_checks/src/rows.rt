//! What is found in the rows of a page.

ghost use Rattle.std.specs.Prelude.{◌≡◌, ◌++◌, [], IfOk, MatchOption, OnOk, drop, flat_map, string_bytes};
ghost use Rattle.table_pages.specs.declared.fault.FaultKind.TheVariants as kind;
ghost use Rattle.page_checks.specs.Cells.{what_of as what_in};
ghost use Rattle.page_checks.specs.Findings.{found as one_found, maybe};
ghost use Rattle.page_checks.specs.Rows as rows;
ghost use Rattle.page_checks.specs.declared.findings.What.TheVariants as what;
ghost use Rattle.page_answers.specs.Likes.{like_in};

use crate::cells::{Known, what_of};
use crate::findings::{CheckedRow, Doubt, Finding, Findings, What, push_found, push_maybe};
use commands::Field;
use page_answers::{Key, PlaceIndex, RowAnswer, key_of, see};
use page_entries::{DateOrder, cell_at, cell_under, kind_in, mentions_in};
use record_text::RefusalKind;
use std::alloc::{AllocError, Global};
use std::collections::BTreeSet;
use table_pages::{Column, FaultKind, Sheet, SheetRow};

/// What an archive answers for the rows of a page, and the paths of its places.
#[derive(Drop)]
pub(crate) struct Answers {
    pub rows: Vec<RowAnswer>,
    pub likes: PlaceIndex,
}

/// The rows of a sheet, each with what is found in it, given what the archive answers for each.
pub(crate) fn checked_rows(
    alloc: Global,
    order: Option<DateOrder>,
    sheet: &Sheet,
    answers: &Answers,
) -> Result<Vec<CheckedRow>, AllocError>
    ensures { IfOk result (λ found. found.items ≡ rows.checked_rows order sheet.now answers.now.rows.items
        (like_in answers.now.likes) 0 [] sheet.now.rows) }
{
    let mut checked = Vec::new(alloc);
    let mut seen = BTreeSet::new(alloc);
    let mut at = 0;
    let rows = sheet.rows();
    for row in rows {
        let key = key_of(alloc, sheet, row)?;
        let is_repeated = see(alloc, &mut seen, &key)?;
        let found = checked_row(alloc, order, sheet, answers, at, &key, is_repeated, row)?;
        checked.push(found)?;
        at += 1;
    }
    Ok(checked)
}

/// Why the place of a row would be refused, if it would.
fn place_at(answers: &[RowAnswer], at: usize) -> Option<RefusalKind>
    ensures { result ≡ (rows.answer_at answers.now at).place }
{
    match answers.get(at) {
        Some(answer) => answer.place,
        None => None,
    }
}

/// Whether an entry of the archive has the key of a row.
fn taken_at(answers: &[RowAnswer], at: usize) -> bool
    ensures { result ≡ (rows.answer_at answers.now at).is_taken }
{
    match answers.get(at) {
        Some(answer) => answer.is_taken,
        None => false,
    }
}

/// The paths of the places that are to be made for a row.
fn news_at(answers: &[RowAnswer], at: usize) -> &[Field]
    ensures { result.now ≡ (rows.answer_at answers.now at).news }
{
    match answers.get(at) {
        Some(answer) => answer.news.fields(),
        None => &[],
    }
}

/// A row with what is found in it.
fn checked_row(
    alloc: Global,
    order: Option<DateOrder>,
    sheet: &Sheet,
    answers: &Answers,
    at: usize,
    key: &Option<Key>,
    is_repeated: bool,
    row: &SheetRow,
) -> Result<CheckedRow, AllocError>
    ensures { IfOk result (λ r. r ≡ rows.checked_row order sheet.now (rows.answer_at answers.now.rows.items at)
        (like_in answers.now.likes) key.now is_repeated row.now) }
{
    let kind = kind_in(alloc, cell_under(sheet, row, Column::Kind))?;
    let known = Known {
        order,
        kind,
        place: place_at(&answers.rows, at),
    };
    let news = news_at(&answers.rows, at);
    let mut found = Vec::new(alloc);
    push_columns(alloc, &mut found, known, &answers.likes, news, sheet, row)?;
    push_beyond(
        alloc,
        &mut found,
        cells_after(row.cells.fields(), sheet.columns().len()),
    )?;
    push_names(alloc, &mut found, sheet, row)?;
    let is_taken = taken_at(&answers.rows, at);
    push_key(alloc, &mut found, key, is_taken || is_repeated)?;
    Ok(CheckedRow {
        number: row.number,
        findings: Findings::new(found),
    })
}

/// Adds what is found in the cells under the columns, of which those that are missing are empty.
fn push_columns(
    alloc: Global,
    out: &mut Vec<Finding>,
    known: Known,
    likes: &PlaceIndex,
    news: &[Field],
    sheet: &Sheet,
    row: &SheetRow,
) -> Result<(), AllocError>
    ensures { OnOk result (out.new.items ≡ out.old.items ++ rows.under_columns known (like_in likes.now) news.now
        sheet.now.names row.now.cells 0 sheet.now.columns) }
{
    let columns = sheet.columns();
    let mut at = 0;
    for column in columns {
        let name = cell_at(sheet.names(), at);
        push_cell(
            alloc,
            out,
            known,
            *column,
            name,
            cell_at(row.cells.fields(), at),
        )?;
        push_news(alloc, out, likes, news, *column, name)?;
        at += 1;
    }
    Ok(())
}

fn push_cell(
    alloc: Global,
    out: &mut Vec<Finding>,
    known: Known,
    column: Column,
    name: &str,
    cell: &str,
) -> Result<(), AllocError>
    ensures { OnOk result (out.new.items ≡ out.old.items ++ maybe (what_in known column cell.now) name.now cell.now) }
{
    let what = what_of(alloc, known, column, cell)?;
    push_maybe(alloc, out, what, name, cell)
}

/// Adds under the column of the place what is to be made for it.
fn push_news(
    alloc: Global,
    out: &mut Vec<Finding>,
    likes: &PlaceIndex,
    news: &[Field],
    column: Column,
    name: &str,
) -> Result<(), AllocError>
    ensures { OnOk result (out.new.items ≡ out.old.items
        ++ rows.of_news (like_in likes.now) news.now column name.now) }
{
    match column {
        Column::Place => push_paths(alloc, out, likes, news, name),
        _ => Ok(()),
    }
}

fn push_paths(
    alloc: Global,
    out: &mut Vec<Finding>,
    likes: &PlaceIndex,
    news: &[Field],
    name: &str,
) -> Result<(), AllocError>
    ensures { OnOk result (out.new.items ≡ out.old.items
        ++ flat_map (rows.of_new (like_in likes.now) name.now) news.now) }
{
    'each: for path in news {
        push_path(alloc, out, likes, path, name)?;
    }
    Ok(())
}

/// Adds a path that is to be made, and those that it is like.
fn push_path(
    alloc: Global,
    out: &mut Vec<Finding>,
    likes: &PlaceIndex,
    path: &Field,
    name: &str,
) -> Result<(), AllocError>
    ensures { OnOk result (out.new.items ≡ out.old.items ++ rows.of_new (like_in likes.now) name.now path.now) }
{
    let new = What::Doubtful(Doubt::NewPlace);
    push_found(alloc, out, new, name, path.as_str())?;
    let found = likes.like(alloc, path.as_str())?;
    push_likes(alloc, out, found, name)
}

fn push_likes(
    alloc: Global,
    out: &mut Vec<Finding>,
    found: &[String],
    name: &str,
) -> Result<(), AllocError>
    ensures { OnOk result (out.new.items ≡ out.old.items
        ++ flat_map (λ path. rows.of_like name.now (string_bytes path)) found.now) }
{
    'each: for path in found {
        push_found(alloc, out, What::Doubtful(Doubt::Like), name, path.as_str())?;
    }
    Ok(())
}

/// The cells after so many.
fn cells_after(cells: &[Field], count: usize) -> &[Field]
    ensures { result.now ≡ drop count cells.now }
{
    if count <= cells.len() {
        &cells[count..]
    } else {
        &cells[cells.len()..]
    }
}

/// Adds the first cell after the last column that is not empty.
fn push_beyond(alloc: Global, out: &mut Vec<Finding>, cells: &[Field]) -> Result<(), AllocError>
    ensures { OnOk result (out.new.items ≡ out.old.items ++ rows.beyond cells.now) }
{
    match first_written(cells) {
        Some(cell) => push_found(alloc, out, What::Fault(FaultKind::BeyondHeader), "", cell),
        None => Ok(()),
    }
}

/// The first cell that is not empty.
fn first_written(cells: &[Field]) -> Option<&str>
    ensures { MatchOption result (rows.beyond cells.now ≡ [])
        (λ cell. rows.beyond cells.now ≡ one_found (what.Fault kind.BeyondHeader) [] cell.now) }
{
    for cell in cells {
        if !cell.as_str().is_empty() {
            return Some(cell.as_str());
        }
    }
    None
}

/// Adds that there is no name, or are too many.
fn push_names(
    alloc: Global,
    out: &mut Vec<Finding>,
    sheet: &Sheet,
    row: &SheetRow,
) -> Result<(), AllocError>
    ensures { OnOk result (out.new.items ≡ out.old.items ++ rows.of_names sheet.now row.now) }
{
    match mentions_in(alloc, sheet.columns(), row.cells.fields())? {
        Ok(_) => Ok(()),
        Err(kind) => push_found(alloc, out, What::Fault(kind), "", ""),
    }
}

/// Adds the key of a row, where another entry has it.
fn push_key(
    alloc: Global,
    out: &mut Vec<Finding>,
    key: &Option<Key>,
    is_taken: bool,
) -> Result<(), AllocError>
    ensures { OnOk result (out.new.items ≡ out.old.items ++ rows.of_key key.now is_taken) }
{
    match key {
        Some(key) if is_taken => push_taken(alloc, out, key),
        _ => Ok(()),
    }
}

fn push_taken(alloc: Global, out: &mut Vec<Finding>, key: &Key) -> Result<(), AllocError>
    ensures { OnOk result (out.new.items ≡ out.old.items ++ rows.of_taken key.now) }
{
    let words = key_shown(alloc, key)?;
    push_found(
        alloc,
        out,
        What::Refused(RefusalKind::DuplicateEntry),
        "",
        &words,
    )
}

/// Kind, page and item, with spaces between.
fn key_shown(alloc: Global, key: &Key) -> Result<String, AllocError>
    ensures { IfOk result (λ s. string_bytes s ≡ rows.key_shown key.now) }
{
    let kind = key.kind.as_str();
    let page = key.page.as_str();
    let item = key.item.number;
    format!(in alloc; "{kind} {page} {item}")
}
