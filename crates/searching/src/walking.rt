//! The lines of the records that are wanted, of which each is read once.

ghost use Rattle.std.specs.Prelude.{◌≡◌, ◌++◌, OnOk, Some};
ghost use Rattle.std.specs.FinMap as map;
ghost use Rattle.archive_state.specs.Looks.{CountsFailures, Looked};
ghost use Rattle.archive_state.specs.Views.{On};
ghost use Rattle.searching.specs.Lines as lines;
ghost use Rattle.searching.specs.Walking as walking;

use crate::choosing::numbers_for;
use crate::lines::{Line, line_of};
use crate::wanted::{Wanted, is_wanted};
use archive_state::View;
use kind_views::KindView;
use record_kinds::Record;
use record_text::RefusalKind;
use std::alloc::{AllocError, Global};

/// The lines of the first so many records after a number that are wanted, by number. Where there are as many as were
/// asked for, there may be more after the last of them. A record is read at a time. Nothing is changed.
pub fn page<V: KindView>(
    alloc: Global,
    view: &mut V,
    wanted: &Wanted,
    after: u32,
    limit: usize,
) -> Result<Vec<Line>, RefusalKind>
    ensures shows { On V.View view.old view.new (λ c. Looked result
        (λ found. found.items ≡ lines.page wanted.now after limit (map.entries c.records))) }
    ensures counts { CountsFailures (V.View.failed view.old) (V.View.failed view.new) result }
{
    let numbers = numbers_for(alloc, view, wanted)?;
    walked(alloc, view, wanted, after, limit, &numbers)
}

/// The lines of those of these numbers that are after one.
#[tactic(auto, using(crate::proofs::Walked::one_more, crate::proofs::Walked::all_walked))]
fn walked<V: View>(
    alloc: Global,
    view: &mut V,
    wanted: &Wanted,
    after: u32,
    limit: usize,
    numbers: &[u32],
) -> Result<Vec<Line>, RefusalKind>
    ensures shows { On V.View view.old view.new (λ c. Looked result
        (λ found. found.items ≡ walking.walked (map.get c.records) wanted.now after limit numbers.now)) }
    ensures counts { CountsFailures (V.failed view.old) (V.failed view.new) result }
{
    let mut lines = Vec::new(alloc);
    'numbers: for number in numbers {
        read_after(alloc, view, wanted, after, limit, *number, &mut lines)?;
    }
    Ok(lines)
}

/// Adds the line of what stands at a number, where it is after another.
fn read_after<V: View>(
    alloc: Global,
    view: &mut V,
    wanted: &Wanted,
    after: u32,
    limit: usize,
    number: u32,
    lines: &mut Vec<Line>,
) -> Result<(), RefusalKind>
    ensures shows { On V.View view.old view.new (λ c. Looked result (λ _. lines.new.items
        ≡ walking.with_later wanted.now after limit number (map.get c.records number) lines.old.items)) }
    ensures counts { CountsFailures (V.failed view.old) (V.failed view.new) result }
{
    if number <= after {
        return Ok(());
    }
    read_at(alloc, view, wanted, limit, number, lines)
}

/// Adds the line of what stands at a number, unless there are lines enough.
fn read_at<V: View>(
    alloc: Global,
    view: &mut V,
    wanted: &Wanted,
    limit: usize,
    number: u32,
    lines: &mut Vec<Line>,
) -> Result<(), RefusalKind>
    ensures shows { On V.View view.old view.new (λ c. Looked result (λ _. lines.new.items
        ≡ walking.with_found wanted.now limit number (map.get c.records number) lines.old.items)) }
    ensures counts { CountsFailures (V.failed view.old) (V.failed view.new) result }
{
    if lines.len() >= limit {
        return Ok(());
    }
    let found = view.record_at(alloc, number)?;
    match add_found(alloc, wanted, number, found, lines) {
        Ok(()) => Ok(()),
        Err(_) => Err(RefusalKind::OutOfMemory),
    }
}

/// Adds the line of a record, where there is one that is wanted. The record is given back here.
fn add_found(
    alloc: Global,
    wanted: &Wanted,
    number: u32,
    found: Option<Record>,
    lines: &mut Vec<Line>,
) -> Result<(), AllocError>
    ensures { OnOk result (lines.new.items ≡ lines.old.items ++ walking.line_at wanted.now number found) }
{
    match &found {
        Some(record) => add_line(alloc, wanted, number, record, lines),
        None => Ok(()),
    }
}

fn add_line(
    alloc: Global,
    wanted: &Wanted,
    number: u32,
    record: &Record,
    lines: &mut Vec<Line>,
) -> Result<(), AllocError>
    ensures { OnOk result (lines.new.items
        ≡ lines.old.items ++ walking.line_at wanted.now number (Some «record».now)) }
{
    if is_wanted(alloc, wanted, record)? {
        let text = line_of(alloc, number, record)?;
        lines.push(Line { number, text })?;
    }
    Ok(())
}
