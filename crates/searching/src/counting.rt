//! The lines of the first records that are wanted, and the numbers of the others, of which each is read once.

ghost use Rattle.std.specs.Prelude.{◌≡◌, ◌∷◌, [], OnOk};
ghost use Rattle.std.specs.FinMap as map;
ghost use Rattle.archive_state.specs.Looks.{CountsFailures, Looked};
ghost use Rattle.archive_state.specs.Views.{On};
ghost use Rattle.searching.specs.Lines as lines;
ghost use Rattle.searching.specs.Walking as walking;

use crate::choosing::numbers_for;
use crate::lines::{Line, line_of};
use crate::wanted::{Wanted, is_wanted};
use archive_state::View;
use kind_views::KindView;
use record_kinds::Record;
use record_text::RefusalKind;
use std::alloc::{AllocError, Global};
use std::marker::Model;

/// A page, and the numbers of the records that are wanted after it. Contracts see the lines and the numbers.
#[derive(Debug, Drop)]
pub struct Found {
    pub lines: Vec<Line>,
    pub others: Vec<u32>,
}

impl Model for Found {
    ghost use Rattle.std.specs.Prelude.{List, ℕ};

    ghost Value = { List (ℕ × List ℕ) × List ℕ };

    ghost view = { λ a. (a.lines.items, a.others.items) };
}

/// The lines of the first so many records after a number that are wanted, and the numbers of the others, each by
/// number. A record is read at a time. Nothing is changed.
pub fn page_and_others<V: KindView>(
    alloc: Global,
    view: &mut V,
    wanted: &Wanted,
    after: u32,
    limit: usize,
) -> Result<Found, RefusalKind>
    ensures shows { On V.View view.old view.new (λ c. Looked result
        (λ found. found ≡ lines.page_and_others wanted.now after limit (map.entries c.records))) }
    ensures counts { CountsFailures (V.View.failed view.old) (V.View.failed view.new) result }
{
    let numbers = numbers_for(alloc, view, wanted)?;
    counted(alloc, view, wanted, after, limit, &numbers)
}

/// The same of these numbers.
#[tactic(auto, using(crate::proofs::Counted::one_more, crate::proofs::Counted::all_counted))]
fn counted<V: View>(
    alloc: Global,
    view: &mut V,
    wanted: &Wanted,
    after: u32,
    limit: usize,
    numbers: &[u32],
) -> Result<Found, RefusalKind>
    ensures shows { On V.View view.old view.new (λ c. Looked result
        (λ found. found ≡ walking.counted (map.get c.records) wanted.now after limit numbers.now)) }
    ensures counts { CountsFailures (V.failed view.old) (V.failed view.new) result }
{
    let mut found = Found {
        lines: Vec::new(alloc),
        others: Vec::new(alloc),
    };
    'numbers: for number in numbers {
        read_after(alloc, view, wanted, after, limit, *number, &mut found)?;
    }
    Ok(found)
}

/// Adds the line of what stands at a number, where it is after another.
fn read_after<V: View>(
    alloc: Global,
    view: &mut V,
    wanted: &Wanted,
    after: u32,
    limit: usize,
    number: u32,
    found: &mut Found,
) -> Result<(), RefusalKind>
    ensures shows { On V.View view.old view.new (λ c. Looked result (λ _. found.new
        ≡ walking.with_more limit (walking.line_after wanted.now after number (map.get c.records number)) found.old)) }
    ensures counts { CountsFailures (V.failed view.old) (V.failed view.new) result }
{
    if number <= after {
        return Ok(());
    }
    let record = view.record_at(alloc, number)?;
    match add_found(alloc, wanted, limit, number, record, found) {
        Ok(()) => Ok(()),
        Err(_) => Err(RefusalKind::OutOfMemory),
    }
}

/// Adds the line of a record, where there is one that is wanted. The record is given back here.
fn add_found(
    alloc: Global,
    wanted: &Wanted,
    limit: usize,
    number: u32,
    record: Option<Record>,
    found: &mut Found,
) -> Result<(), AllocError>
    ensures { OnOk result (found.new ≡ walking.with_more limit (walking.line_at wanted.now number «record») found.old) }
{
    match &record {
        Some(record) => add_record(alloc, wanted, limit, number, record, found),
        None => Ok(()),
    }
}

fn add_record(
    alloc: Global,
    wanted: &Wanted,
    limit: usize,
    number: u32,
    record: &Record,
    found: &mut Found,
) -> Result<(), AllocError>
    ensures { OnOk result (found.new
        ≡ walking.with_more limit (lines.line_of wanted.now (number, «record».now)) found.old) }
{
    if is_wanted(alloc, wanted, record)? {
        add_wanted(alloc, limit, number, record, found)?;
    }
    Ok(())
}

/// Adds the line of a record, or its number where there are lines enough.
fn add_wanted(
    alloc: Global,
    limit: usize,
    number: u32,
    record: &Record,
    found: &mut Found,
) -> Result<(), AllocError>
    ensures { OnOk result (found.new
        ≡ walking.with_more limit ((number, lines.line number «record».now) ∷ []) found.old) }
{
    if found.lines.len() < limit {
        let text = line_of(alloc, number, record)?;
        found.lines.push(Line { number, text })?;
    } else {
        found.others.push(number)?;
    }
    Ok(())
}
