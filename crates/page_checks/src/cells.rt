//! What is found in a cell.

ghost use Rattle.std.specs.Prelude.{◌==◌, ◌≡◌, IfOk, count_by};
ghost use Rattle.page_checks.specs.Cells as cells;

use crate::findings::{Doubt, What};
use page_entries::{
    DateOrder, date_in, is_doubtful_page, item_in, kind_in, place_in, role_fault, text_fault,
};
use record_fields::{EntryKind, Role};
use record_text::RefusalKind;
use std::alloc::{AllocError, Global};
use table_pages::{Column, FaultKind};

/// A text of so many line ends has more than 20 lines.
const LONG: usize = 20;

/// What is known of a row before its cells are looked at.
#[derive(Clone, Copy)]
pub(crate) struct Known {
    /// Which of the first two numbers of a date is the day.
    pub order: Option<DateOrder>,
    /// The kind of the entry, if it has one.
    pub kind: Option<EntryKind>,
    /// Why the archive would refuse its place, if it would.
    pub place: Option<RefusalKind>,
}

/// What is found in a cell under a column: one thing at most.
pub(crate) fn what_of(
    alloc: Global,
    known: Known,
    column: Column,
    cell: &str,
) -> Result<Option<What>, AllocError>
    ensures { IfOk result (λ found. found ≡ cells.what_of known column cell.now) }
{
    match text_fault(Some(column), cell) {
        Some(kind) => Ok(Some(What::Fault(kind))),
        None => meaning_of(alloc, known, column, cell),
    }
}

/// The same of a cell that is a text.
fn meaning_of(
    alloc: Global,
    known: Known,
    column: Column,
    cell: &str,
) -> Result<Option<What>, AllocError>
    ensures { IfOk result (λ found. found ≡ cells.meaning_of known column cell.now) }
{
    match column {
        Column::Kind => of_kind(alloc, cell),
        Column::Page => of_page(alloc, cell),
        Column::Item => Ok(of_item(cell)),
        Column::Date => of_date(alloc, known.order, cell),
        Column::Place => of_place(alloc, known.place, cell),
        Column::Text => Ok(of_text(cell)),
        Column::Mention(role, number) => Ok(of_mention(known.kind, role, number, cell)),
        Column::Own | Column::Unnamed => Ok(None),
    }
}

fn of_kind(alloc: Global, cell: &str) -> Result<Option<What>, AllocError>
    ensures { IfOk result (λ found. found ≡ cells.of_kind cell.now) }
{
    match kind_in(alloc, cell)? {
        Some(_) => Ok(None),
        None => Ok(Some(What::Fault(FaultKind::BadKind))),
    }
}

fn of_page(alloc: Global, cell: &str) -> Result<Option<What>, AllocError>
    ensures { IfOk result (λ found. found ≡ cells.of_page cell.now) }
{
    if cell.is_empty() {
        return Ok(Some(What::Doubtful(Doubt::NoPage)));
    }
    if is_doubtful_page(alloc, cell)? {
        Ok(Some(What::Doubtful(Doubt::Page)))
    } else {
        Ok(None)
    }
}

fn of_item(cell: &str) -> Option<What>
    ensures { result ≡ cells.of_item cell.now }
{
    match item_in(cell) {
        Ok(_) => None,
        Err(_) => Some(What::Fault(FaultKind::BadItem)),
    }
}

fn of_date(alloc: Global, order: Option<DateOrder>, cell: &str) -> Result<Option<What>, AllocError>
    ensures { IfOk result (λ found. found ≡ cells.of_date order cell.now) }
{
    match date_in(alloc, order, cell)? {
        Some(date) => Ok(of_words(date.is_words)),
        None => Ok(Some(What::Fault(FaultKind::BadDate))),
    }
}

fn of_words(is_words: bool) -> Option<What>
    ensures { result ≡ cells.of_words is_words }
{
    if is_words {
        Some(What::Doubtful(Doubt::Words))
    } else {
        None
    }
}

fn of_place(
    alloc: Global,
    refusal: Option<RefusalKind>,
    cell: &str,
) -> Result<Option<What>, AllocError>
    ensures { IfOk result (λ found. found ≡ cells.of_place refusal cell.now) }
{
    match place_in(alloc, cell)? {
        Ok(_) => Ok(refused(refusal)),
        Err(kind) => Ok(Some(What::Fault(kind))),
    }
}

fn refused(refusal: Option<RefusalKind>) -> Option<What>
    ensures { result ≡ cells.refused refusal }
{
    match refusal {
        Some(kind) => Some(What::Refused(kind)),
        None => None,
    }
}

fn of_text(cell: &str) -> Option<What>
    ensures { result ≡ cells.of_text cell.now }
{
    if line_ends(cell.as_bytes()) >= LONG {
        Some(What::Doubtful(Doubt::Long))
    } else {
        None
    }
}

fn line_ends(cell: &[u8]) -> usize
    ensures { result ≡ count_by (λ b. b == 10) cell.now }
{
    cell.iter().filter(|b| **b == b'\n').count()
}

fn of_mention(kind: Option<EntryKind>, role: Role, number: u8, cell: &str) -> Option<What>
    ensures { result ≡ cells.of_mention kind role number cell.now }
{
    match kind {
        Some(kind) => faulty(role_fault(kind, Some(Column::Mention(role, number)), cell)),
        None => None,
    }
}

fn faulty(fault: Option<FaultKind>) -> Option<What>
    ensures { result ≡ cells.faulty fault }
{
    match fault {
        Some(kind) => Some(What::Fault(kind)),
        None => None,
    }
}
