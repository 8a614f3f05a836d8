//! What a batch of register entries changes.

ghost use Rattle.std.specs.Prelude.{◌≡◌, [], IfOk, Ok};
ghost use Rattle.record_text.specs.declared.refusal.Refusal.{Refusal};
ghost use Rattle.archive_state.specs.Looks.{Agrees, CountsFailures, CountsStops, is_stop};
ghost use Rattle.archive_state.specs.Views.{On};
ghost use Rattle.command_checks.specs.Checks.{demanded_at};
ghost use Rattle.command_checks.specs.declared.kinds.Demand.TheVariants as demand;
ghost use Rattle.command_checks.specs.Exact.{IsExact};
ghost use Rattle.commands.specs.Rows.{and_then};
ghost use Rattle.entry_batches.specs.Applied.{PlansAt};
ghost use Rattle.entry_batches.specs.Batches as batches;

use crate::made::Made;
use crate::row::with_row;
use archive_state::{Changes, View};
use command_checks::{Demand, check_demand};
use commands::EntryRow;
use record_text::{Refusal, RefusalKind};
use std::alloc::Global;

/// What a batch of new register entries of a source changes. The source is looked at first (`NoSuch`, `WrongKind`), and
/// its refusal has no place. Then each row is looked at as a command of one entry would be after the rows before it:
/// its words (`BadText`), its place (`NoSuch`, `WrongKind`, `BadText`), its roles (`NotOfKind`), its key in the archive
/// and among the rows before (`DuplicateEntry`), and whether a number is left (`Full`). The first refusal counts, with
/// the place of its row from 1, and then nothing is made. A batch without rows is refused where there is no next number
/// (`Full`, without a place). The stops may come in place of any answer: `OutOfMemory`, `BadStored` and `Storage`,
/// without a place.
pub fn decide_entries<V: View>(
    alloc: Global,
    view: &mut V,
    source: u32,
    rows: &[EntryRow],
) -> Result<Changes, Refusal>
    ensures decides { On V.View view.old view.new (λ c. PlansAt c result (batches.batch_step c source rows.now)) }
    ensures exact { On V.View view.old view.new (λ c. IfOk result (IsExact c)) }
    ensures counts { CountsStops (V.failed view.old) (V.failed view.new) result }
{
    let next = next_behind(alloc, view, source)?;
    let made = with_rows(alloc, view, source, next, rows)?;
    Ok(made.changes(alloc, next)?)
}

/// The next number, after a look at the source.
fn next_behind<V: View>(alloc: Global, view: &mut V, source: u32) -> Result<u64, RefusalKind>
    ensures decides { On V.View view.old view.new
        (λ c. Agrees is_stop result (and_then (demanded_at c demand.Source source) (λ _. Ok c.next))) }
    ensures counts { CountsFailures (V.failed view.old) (V.failed view.new) result }
{
    check_demand(alloc, view, Demand::Source, source)?;
    view.next(alloc)
}

/// What all rows make, one after the other.
fn with_rows<V: View>(
    alloc: Global,
    view: &mut V,
    source: u32,
    next: u64,
    rows: &[EntryRow],
) -> Result<Made, Refusal>
    ensures decides { On V.View view.old view.new (λ c. c.next ≡ next → Agrees (λ (e : Refusal). is_stop e.kind) result
        (batches.with_rows c source [] rows.now)) }
    ensures counts { CountsStops (V.failed view.old) (V.failed view.new) result }
{
    let mut made = Made::new(alloc);
    'rows: for row in rows {
        made = with_row(alloc, view, source, next, made, row)?;
    }
    Ok(made)
}
