//! One row of a batch, after the rows before it.

ghost use Rattle.std.specs.Prelude.{◌≡◌, Err, IfErr, None, Result, Some, false, if◌then◌else◌, true};
ghost use Rattle.std.specs.Option.{option_map_or};
ghost use Rattle.record_text.specs.declared.refusal.Refusal.{Refusal};
ghost use Rattle.record_text.specs.declared.refusal.RefusalKind.{RefusalKind};
ghost use Rattle.record_kinds.specs.Model as model;
ghost use Rattle.archive_state.specs.Looks.{Agrees, CountsFailures, CountsStops, is_failure, is_stop};
ghost use Rattle.archive_state.specs.Views.{On};
ghost use Rattle.command_checks.specs.Checks.{each, passed};
ghost use Rattle.commands.specs.Rows.{and_then};
ghost use Rattle.entry_batches.specs.Batches as batches;
ghost use Rattle.entry_batches.specs.Placed.{placed_unless_stopped, refused_at};

use crate::made::Made;
use archive_state::View;
use archive_steps::{entry_of, kept_if};
use command_checks::{check_key, check_place, check_texts};
use commands::EntryRow;
use record_kinds::Entry;
use record_text::{Refusal, RefusalKind};
use std::alloc::Global;

/// What the rows before have made, and the entry of this one. Its refusal has the place of the row.
pub(crate) fn with_row<V: View>(
    alloc: Global,
    view: &mut V,
    source: u32,
    next: u64,
    made: Made,
    row: &EntryRow,
) -> Result<Made, Refusal>
    ensures decides { On V.View view.old view.new (λ c. c.next ≡ next → Agrees (λ (e : Refusal). is_stop e.kind) result
        (batches.with_row c source made row.now)) }
    ensures counts { CountsStops (V.failed view.old) (V.failed view.new) result }
{
    let place = made.count() + 1;
    let entry = row_entry(alloc, view, source, next, &made, row);
    placed(place, with_given(alloc, next, made, entry))
}

/// With the entry that was given, or its refusal.
fn with_given(
    alloc: Global,
    next: u64,
    made: Made,
    entry: Result<Entry, RefusalKind>,
) -> Result<Made, RefusalKind>
    ensures decides { (right : Result model.Entry RefusalKind) → Agrees is_stop entry right
        → Agrees is_stop result (and_then right (batches.with_entry next made)) }
    ensures memory { IfErr result (λ e. is_failure e ≡ true → entry ≡ Err e) }
{
    match entry {
        Ok(entry) => made.with_entry(alloc, next, entry),
        Err(e) => {
            drop(made);
            Err(e)
        }
    }
}

/// The refusal is at that place, but for a stop, which has none.
fn placed<T>(place: u32, outcome: Result<T, RefusalKind>) -> Result<T, Refusal>
    ensures { result ≡ placed_unless_stopped place outcome }
{
    match outcome {
        Ok(item) => Ok(item),
        Err(kind) => Err(refused_at(place, kind)),
    }
}

/// A refusal at that place, but for a stop, which has none.
fn refused_at(place: u32, kind: RefusalKind) -> Refusal
    ensures { result ≡ (if is_stop kind then refused_at None kind else refused_at (Some place) kind) }
{
    match kind {
        RefusalKind::OutOfMemory | RefusalKind::BadStored | RefusalKind::Storage => kind.into(),
        _ => Refusal {
            kind,
            at: Some(place),
        },
    }
}

/// The entry of a row, after what the rows before have made. First its words are looked at (`BadText`), then its place
/// (`NoSuch`, `WrongKind`, `BadText`), its roles (`NotOfKind`), and its key in the archive and among the rows before
/// (`DuplicateEntry`).
fn row_entry<V: View>(
    alloc: Global,
    view: &mut V,
    source: u32,
    next: u64,
    made: &Made,
    row: &EntryRow,
) -> Result<Entry, RefusalKind>
    ensures decides { On V.View view.old view.new
        (λ c. c.next ≡ next → Agrees is_stop result (batches.row_entry c source made.now row.now)) }
    ensures counts { CountsFailures (V.failed view.old) (V.failed view.new) result }
{
    check_texts(alloc, row)?;
    check_place_behind(alloc, view, next, made.count(), row.place)?;
    let entry = entry_of(alloc, source, row)?;
    let free = check_key(alloc, view, source, entry.kind, &entry.page, entry.item);
    let entry = kept_if(entry, free)?;
    let is_new = made.check_new(alloc, &entry);
    kept_if(entry, is_new)
}

/// That an entry may have the place, where there is one. What a row before has made is no place.
#[tactic(auto, using(crate::proofs::Looked::drawn_refused, crate::proofs::Looked::drawn_by_none))]
fn check_place_behind<V: View>(
    alloc: Global,
    view: &mut V,
    next: u64,
    count: u32,
    place: Option<u32>,
) -> Result<(), RefusalKind>
    ensures decides { On V.View view.old view.new
        (λ c. c.next ≡ next → Agrees is_stop result (passed (each (batches.place_behind c count) place))) }
    ensures counts { CountsFailures (V.failed view.old) (V.failed view.new) result }
{
    if is_drawn_by(next, count, place) {
        return Err(RefusalKind::WrongKind);
    }
    check_place(alloc, view, place)
}

/// Whether one of so many rows has got the number, where there is one.
fn is_drawn_by(next: u64, count: u32, number: Option<u32>) -> bool
    ensures { result ≡ option_map_or (batches.is_drawn next count) number false }
{
    match number {
        Some(number) => is_drawn(next, count, number),
        None => false,
    }
}

#[tactic(auto, using(crate::proofs::Looked::drawn_is))]
fn is_drawn(next: u64, count: u32, number: u32) -> bool
    ensures { result ≡ batches.is_drawn next count number }
{
    let number = u64::from(number);
    next <= number && number - next < u64::from(count)
}
