//! The rows of a batch, made of the entries of a page and the places that an archive has for them.

ghost use Rattle.std.specs.Prelude.{◌≡◌, IfOk};
ghost use Rattle.page_batches.specs.Batches as batches;

use crate::digest::place_words;
use crate::places::Places;
use commands::{EntryRow, EntryRows, Field};
use page_checks::refused_line;
use page_entries::{PageDate, PageEntry, PagePlace};
use record_text::{Refusal, RefusalKind};
use std::alloc::{AllocError, Global};

/// Why an archive refuses a page: at the row that the sheet shows, with a line of the cell that is to blame, where one
/// is, and what to do; else that is empty.
#[derive(Debug, Drop)]
pub struct BatchRefusal {
    pub refusal: Refusal,
    pub line: Field,
}

/// A refusal of no row. Takes no memory.
pub fn unplaced(alloc: Global, kind: RefusalKind) -> BatchRefusal
    ensures { result ≡ batches.unplaced kind }
{
    BatchRefusal {
        refusal: Refusal { kind, at: None },
        line: Field::new(String::new(alloc)),
    }
}

/// The rows of the entries with the places that were found, or the refusal of the first that has none.
pub fn rows_with(
    alloc: Global,
    entries: Vec<PageEntry>,
    places: &Places,
) -> Result<Result<EntryRows, BatchRefusal>, AllocError>
    ensures { IfOk result (λ r. r ≡ batches.with_places places.now 0 entries.items) }
{
    let found = places.as_slice();
    let mut rows = Vec::new(alloc);
    let mut entries = entries.into_iter();
    'entries: while let Some(entry) = entries.next() {
        match row_of(alloc, entry, found_at(found, rows.len()))? {
            Ok(row) => rows.push(row)?,
            Err(refusal) => return Ok(Err(refusal)),
        }
    }
    Ok(Ok(EntryRows::new(rows)))
}

/// What was found for the entry at a place.
fn found_at(
    found: &[Result<Option<u32>, RefusalKind>],
    at: usize,
) -> Result<Option<u32>, RefusalKind>
    ensures { result ≡ batches.found_at found.now at }
{
    match found.get(at) {
        Some(found) => *found,
        None => Ok(None),
    }
}

/// The row of an entry with its place.
fn row_of(
    alloc: Global,
    entry: PageEntry,
    found: Result<Option<u32>, RefusalKind>,
) -> Result<Result<EntryRow, BatchRefusal>, AllocError>
    ensures { IfOk result (λ r. r ≡ batches.row_of entry found) }
{
    match found {
        Ok(place) => Ok(Ok(with_place(entry, place))),
        Err(kind) => Ok(Err(refused(alloc, &entry, kind)?)),
    }
}

fn with_place(entry: PageEntry, place: Option<u32>) -> EntryRow
    ensures { result ≡ batches.with_place entry place }
{
    let PageEntry {
        row: _,
        kind,
        page,
        item,
        date: PageDate { given, is_words: _ },
        place: _,
        text,
        mentions,
    } = entry;
    EntryRow {
        kind,
        page,
        item,
        date: given,
        place,
        text,
        mentions,
    }
}

fn refused(alloc: Global, entry: &PageEntry, kind: RefusalKind) -> Result<BatchRefusal, AllocError>
    ensures { IfOk result (λ e. e ≡ batches.refused entry.now kind) }
{
    let place = place_words(alloc, &entry.place)?;
    let mut line = refused_line(alloc, entry.row, kind, "place", place.as_str())?;
    line.push_str(hint_of(&entry.place, kind))?;
    let at = Some(row_place(entry.row));
    Ok(BatchRefusal {
        refusal: Refusal { kind, at },
        line: Field::new(line),
    })
}

/// What to do, where no place has a path.
fn hint_of(place: &Option<PagePlace>, kind: RefusalKind) -> &'static str
    ensures { result.now ≡ batches.hint_of place.now kind }
{
    match kind {
        RefusalKind::NoSuch => path_hint(place),
        _ => "",
    }
}

fn path_hint(place: &Option<PagePlace>) -> &'static str
    ensures { result.now ≡ batches.path_hint place.now }
{
    match place {
        Some(PagePlace::Path(_)) => "  no place has this path; --make-places makes it\n",
        _ => "",
    }
}

/// The number of a row as a refusal has it.
pub fn row_place(number: usize) -> u32
    ensures { result ≡ batches.row_place number }
{
    if number <= 4_294_967_295 {
        number as u32
    } else {
        4_294_967_295
    }
}
