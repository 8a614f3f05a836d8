//! The rows of a page, read as register entries.

ghost use Rattle.std.specs.Prelude.{◌≡◌, IfOk, MatchResult, Err, Ok};
ghost use Rattle.table_pages.specs.Faults.{fault};
ghost use Rattle.page_entries.specs.Entries as known;

use crate::checks::{Check, first_fault};
use crate::dates::{DateOrder, PageDate, date_in};
use crate::digits::item_in;
use crate::places::{PagePlace, place_in};
use crate::under::{cell_at, field, mentions_in, under};
use commands::{Field, GivenMentions};
use record_fields::{EntryKind, Item};
use std::alloc::{AllocError, Global};
use table_pages::{Column, FaultKind, PageFault, Sheet, SheetRow, read_sheet};

/// A register entry as a row of a page gives it, with the number of the row.
#[derive(Drop)]
pub struct PageEntry {
    pub row: usize,
    pub kind: EntryKind,
    pub page: Field,
    pub item: Item,
    pub date: PageDate,
    pub place: Option<PagePlace>,
    pub text: Field,
    pub mentions: GivenMentions,
}

/// Reads the register entries of a page in UTF-8, or its first fault.
#[tactic(auto, unfolding(crate::specs::Entries::page_of))]
pub fn read_page(
    alloc: Global,
    order: Option<DateOrder>,
    bytes: &[u8],
) -> Result<Result<Vec<PageEntry>, PageFault>, AllocError>
    ensures { IfOk result (λ r. MatchResult r (λ entries. known.page_of order bytes.now ≡ Ok entries.items)
        (λ f. known.page_of order bytes.now ≡ Err f)) }
{
    match read_sheet(alloc, bytes)? {
        Ok(sheet) => entries_of(alloc, order, &sheet),
        Err(fault) => Ok(Err(fault)),
    }
}

/// The entries of all rows of a sheet, or the first fault.
fn entries_of(
    alloc: Global,
    order: Option<DateOrder>,
    sheet: &Sheet,
) -> Result<Result<Vec<PageEntry>, PageFault>, AllocError>
    ensures { IfOk result (λ r. MatchResult r
        (λ entries. known.entries_of order sheet.now sheet.now.rows ≡ Ok entries.items)
        (λ f. known.entries_of order sheet.now sheet.now.rows ≡ Err f)) }
{
    let mut entries = Vec::new(alloc);
    let rows = sheet.rows();
    for row in rows {
        match entry_of(alloc, order, sheet, row)? {
            Ok(entry) => entries.push(entry)?,
            Err(fault) => return Ok(Err(fault)),
        }
    }
    Ok(Ok(entries))
}

/// The entry of a row of a sheet, or its first fault.
#[tactic(auto, unfolding(crate::specs::Entries::entry_of))]
fn entry_of(
    alloc: Global,
    order: Option<DateOrder>,
    sheet: &Sheet,
    row: &SheetRow,
) -> Result<Result<PageEntry, PageFault>, AllocError>
    ensures { IfOk result (λ r. r ≡ known.entry_of order sheet.now row.now) }
{
    match first_fault(Check::Texts, sheet.columns(), row.cells.fields()) {
        Some((at, kind)) => Ok(Err(fault_at(alloc, sheet, row, at, kind)?)),
        None => of_texts(alloc, order, sheet, row),
    }
}

/// The same where each cell is a text.
#[tactic(auto, unfolding(crate::specs::Entries::of_texts))]
fn of_texts(
    alloc: Global,
    order: Option<DateOrder>,
    sheet: &Sheet,
    row: &SheetRow,
) -> Result<Result<PageEntry, PageFault>, AllocError>
    ensures { IfOk result (λ r. r ≡ known.of_texts order sheet.now row.now) }
{
    let Some(kind) = kind_in(alloc, cell_under(sheet, row, Column::Kind))? else {
        return Ok(Err(fault_under(alloc, sheet, row, Column::Kind, FaultKind::BadKind)?));
    };
    let Ok(item) = item_in(cell_under(sheet, row, Column::Item)) else {
        return Ok(Err(fault_under(alloc, sheet, row, Column::Item, FaultKind::BadItem)?));
    };
    with_key(alloc, order, sheet, row, kind, item)
}

/// The same of a kind and an item.
#[tactic(auto, unfolding(crate::specs::Entries::with_key))]
fn with_key(
    alloc: Global,
    order: Option<DateOrder>,
    sheet: &Sheet,
    row: &SheetRow,
    kind: EntryKind,
    item: Item,
) -> Result<Result<PageEntry, PageFault>, AllocError>
    ensures { IfOk result (λ r. r ≡ known.with_key order sheet.now row.now kind item) }
{
    match date_in(alloc, order, cell_under(sheet, row, Column::Date))? {
        Some(date) => with_date(alloc, sheet, row, kind, item, date),
        None => Ok(Err(fault_under(alloc, sheet, row, Column::Date, FaultKind::BadDate)?)),
    }
}

/// The same of a date as well.
#[tactic(auto, unfolding(crate::specs::Entries::with_date))]
fn with_date(
    alloc: Global,
    sheet: &Sheet,
    row: &SheetRow,
    kind: EntryKind,
    item: Item,
    date: PageDate,
) -> Result<Result<PageEntry, PageFault>, AllocError>
    ensures { IfOk result (λ r. r ≡ known.with_date sheet.now row.now kind item date) }
{
    match place_in(alloc, cell_under(sheet, row, Column::Place))? {
        Ok(place) => with_place(alloc, sheet, row, kind, item, date, place),
        Err(why) => Ok(Err(fault_under(alloc, sheet, row, Column::Place, why)?)),
    }
}

/// The same of a place as well.
#[tactic(auto, unfolding(crate::specs::Entries::with_place))]
fn with_place(
    alloc: Global,
    sheet: &Sheet,
    row: &SheetRow,
    kind: EntryKind,
    item: Item,
    date: PageDate,
    place: Option<PagePlace>,
) -> Result<Result<PageEntry, PageFault>, AllocError>
    ensures { IfOk result (λ r. r ≡ known.with_place sheet.now row.now kind item date place) }
{
    match mentions_in(alloc, sheet.columns(), row.cells.fields())? {
        Ok(mentions) => with_mentions(alloc, sheet, row, kind, item, date, place, mentions),
        Err(why) => Ok(Err(page_fault(alloc, row.number, why, "", "")?)),
    }
}

/// The same of mentions as well, whose roles may be those of another kind.
#[tactic(auto, unfolding(crate::specs::Entries::with_mentions))]
fn with_mentions(
    alloc: Global,
    sheet: &Sheet,
    row: &SheetRow,
    kind: EntryKind,
    item: Item,
    date: PageDate,
    place: Option<PagePlace>,
    mentions: GivenMentions,
) -> Result<Result<PageEntry, PageFault>, AllocError>
    ensures { IfOk result (λ r. r ≡ known.with_mentions sheet.now row.now kind item date place mentions) }
{
    if let Some((at, why)) = first_fault(Check::Roles(kind), sheet.columns(), row.cells.fields()) {
        return Ok(Err(fault_at(alloc, sheet, row, at, why)?));
    }
    let page = field(alloc, cell_under(sheet, row, Column::Page))?;
    let text = field(alloc, cell_under(sheet, row, Column::Text))?;
    Ok(Ok(PageEntry {
        row: row.number,
        kind,
        page,
        item,
        date,
        place,
        text,
        mentions,
    }))
}

/// The kind of a word in letters of either case.
pub fn kind_in(alloc: Global, cell: &str) -> Result<Option<EntryKind>, AllocError>
    ensures { IfOk result (λ found. found ≡ known.kind_in cell.now) }
{
    let word = cell.to_ascii_uppercase(alloc)?;
    Ok(EntryKind::from_word(word.as_str()))
}

/// The cell of a row under a column.
pub fn cell_under<'a>(sheet: &Sheet, row: &'a SheetRow, column: Column) -> &'a str
    ensures { result.now ≡ known.cell_under sheet.now row.now column }
{
    under(column, sheet.columns(), row.cells.fields())
}

/// A fault of the cell under a column.
fn fault_under(
    alloc: Global,
    sheet: &Sheet,
    row: &SheetRow,
    column: Column,
    kind: FaultKind,
) -> Result<PageFault, AllocError>
    ensures { IfOk result (λ f. f ≡ known.fault_under sheet.now row.now column kind) }
{
    let name = under(column, sheet.columns(), sheet.names());
    page_fault(
        alloc,
        row.number,
        kind,
        name,
        cell_under(sheet, row, column),
    )
}

/// A fault of the cell at a place.
fn fault_at(
    alloc: Global,
    sheet: &Sheet,
    row: &SheetRow,
    at: usize,
    kind: FaultKind,
) -> Result<PageFault, AllocError>
    ensures { IfOk result (λ f. f ≡ known.fault_at sheet.now row.now at kind) }
{
    let name = cell_at(sheet.names(), at);
    page_fault(
        alloc,
        row.number,
        kind,
        name,
        cell_at(row.cells.fields(), at),
    )
}

fn page_fault(
    alloc: Global,
    row: usize,
    kind: FaultKind,
    column: &str,
    cell: &str,
) -> Result<PageFault, AllocError>
    ensures { IfOk result (λ f. f ≡ fault row kind column.now cell.now) }
{
    let column = field(alloc, column)?;
    let cell = field(alloc, cell)?;
    Ok(PageFault {
        row,
        kind,
        column,
        cell,
    })
}
