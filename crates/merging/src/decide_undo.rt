//! Decides the undoing of a merge over a view: what it changes, or its refusal.

ghost use Rattle.std.specs.Prelude.{◌≡◌, ◌++◌, [], Err, IfErr, IfOk, None, Ok, Some};
ghost use Rattle.std.specs.FinMap as map;
ghost use Rattle.std.specs.List.{flat_map};
ghost use Rattle.archive_state.specs.declared.changes.SlipChange.TheVariants as change;
ghost use Rattle.archive_state.specs.Looks.{Agrees, CountsFailures, Looked, is_stop};
ghost use Rattle.archive_state.specs.Views.{On};
ghost use Rattle.command_checks.specs.Applied.{Plans};
ghost use Rattle.command_checks.specs.Exact.{IsExact};
ghost use Rattle.merging.specs.Comparing.{is_now, is_same_record};
ghost use Rattle.merging.specs.Looks as looks;
ghost use Rattle.merging.specs.Merges as specs;
ghost use Rattle.merging.specs.Steps.{no_slip as why_none, slip_at as found_slip, undo_step};

use archive_state::{Change, Changes, Numbered, Slip, SlipChange, View};
use receipts::Answer;
use record_kinds::Record;
use record_text::RefusalKind;
use records::{copy_record, lines_of};
use std::alloc::{AllocError, Global};
use stored_lines::are_same;

/// The changes that put back what a merge changed; or its refusal.
pub fn undo<V: View>(alloc: Global, view: &mut V, number: u32) -> Result<Changes, RefusalKind>
    ensures decides { On V.View view.old view.new (λ c. Plans c result (undo_step c number)) }
    ensures exact { On V.View view.old view.new (λ c. IfOk result (IsExact c)) }
    ensures counts { CountsFailures (V.failed view.old) (V.failed view.new) result }
{
    let slip = slip_at(alloc, view, number)?;
    let may = check_slip(alloc, view, &slip);
    let slip = kept_if(slip, may)?;
    match view.next(alloc) {
        Ok(next) => Ok(changes_of_undoing(alloc, number, slip, next)?),
        Err(e) => {
            drop(slip);
            Err(e)
        }
    }
}

/// The slip of a number.
fn slip_at<V: View>(alloc: Global, view: &mut V, number: u32) -> Result<Slip, RefusalKind>
    ensures decides { On V.View view.old view.new (λ c. Agrees is_stop result (found_slip c number)) }
    ensures counts { CountsFailures (V.failed view.old) (V.failed view.new) result }
{
    match view.slip(alloc, number)? {
        Some(slip) => Ok(slip),
        None => no_slip(view.record_at(alloc, number)?),
    }
}

/// A number without a slip is that of a record, or of nothing.
fn no_slip(found: Option<Record>) -> Result<Slip, RefusalKind>
    ensures { result ≡ why_none found }
{
    match found {
        None => Err(RefusalKind::NoSuch),
        Some(record) => {
            drop(record);
            Err(RefusalKind::WrongKind)
        }
    }
}

/// That the slip was not undone, and that each of its numbers has its new record.
fn check_slip<V: View>(alloc: Global, view: &mut V, slip: &Slip) -> Result<(), RefusalKind>
    ensures decides { On V.View view.old view.new (λ c. Agrees is_stop result (looks.may_undo c.records slip.now)) }
    ensures counts { CountsFailures (V.failed view.old) (V.failed view.new) result }
{
    if slip.is_undone {
        return Err(RefusalKind::AlreadyUndone);
    }
    if are_now(alloc, view, slip.changes.as_slice())? {
        Ok(())
    } else {
        Err(RefusalKind::ChangedSince)
    }
}

/// Whether each number has its new record.
fn are_now<V: View>(alloc: Global, view: &mut V, changes: &[Change]) -> Result<bool, RefusalKind>
    ensures shows { On V.View view.old view.new (λ c. Looked result (λ is. is ≡ is_now c.records changes.now)) }
    ensures counts { CountsFailures (V.failed view.old) (V.failed view.new) result }
{
    'changes: for change in changes {
        if !is_now_at(alloc, view, change)? {
            return Ok(false);
        }
    }
    Ok(true)
}

fn is_now_at<V: View>(alloc: Global, view: &mut V, change: &Change) -> Result<bool, RefusalKind>
    ensures shows { On V.View view.old view.new
        (λ c. Looked result (λ is. is ≡ is_same_record (map.get c.records change.now.number) change.now.new)) }
    ensures counts { CountsFailures (V.failed view.old) (V.failed view.new) result }
{
    let found = view.record_at(alloc, change.number)?;
    Ok(is_same(alloc, &found, &change.new)?)
}

/// Whether both are the same record, or none.
fn is_same(
    alloc: Global,
    found: &Option<Record>,
    other: &Option<Record>,
) -> Result<bool, AllocError>
    ensures { IfOk result (λ is. is ≡ is_same_record found.now other.now) }
{
    match (found, other) {
        (None, None) => Ok(true),
        (Some(found), Some(other)) => has_same_lines(alloc, found, other),
        _ => Ok(false),
    }
}

/// Whether both are kept as the same lines.
#[tactic(auto, using(crate::proofs::MergeComparing::same_by_test))]
fn has_same_lines(alloc: Global, found: &Record, other: &Record) -> Result<bool, AllocError>
    ensures { IfOk result (λ is. is ≡ is_same_record (Some found.now) (Some other.now)) }
{
    let a = lines_of(alloc, found)?;
    let b = lines_of(alloc, other)?;
    Ok(are_same(&a, &b))
}

/// The old records put, and the slip undone.
fn changes_of_undoing(
    alloc: Global,
    number: u32,
    slip: Slip,
    next: u64,
) -> Result<Changes, AllocError>
    ensures { IfOk result (λ made. made ≡ record {
      puts = flat_map specs.put_old slip.changes;
      removals = [];
      next = next;
      answer = record { first = 0; count = 0 };
      kept = None;
      slip = Some (change.Undone number);
    }) }
{
    let Slip {
        keep: _,
        gone: _,
        changes,
        is_undone: _,
    } = slip;
    let puts = old_puts(alloc, changes.as_slice());
    drop(changes);
    Ok(Changes {
        puts: puts?,
        removals: Vec::new(alloc),
        next,
        answer: Answer { first: 0, count: 0 },
        kept: None,
        slip: Some(SlipChange::Undone(number)),
    })
}

/// The old records at their numbers, but for those that are the new ones too.
fn old_puts(alloc: Global, changes: &[Change]) -> Result<Vec<Numbered>, AllocError>
    ensures { IfOk result (λ puts. puts.items ≡ flat_map specs.put_old changes.now) }
{
    let mut puts = Vec::new(alloc);
    'changes: for change in changes {
        push_old(alloc, &mut puts, change)?;
    }
    Ok(puts)
}

fn push_old(alloc: Global, puts: &mut Vec<Numbered>, change: &Change) -> Result<(), AllocError>
    ensures { IfOk result (λ _. puts.new.items ≡ puts.old.items ++ specs.put_old change.now) }
{
    if !is_as_before(alloc, change)? {
        let record = copy_record(alloc, &change.old)?;
        puts.push(Numbered {
            number: change.number,
            record,
        })?;
    }
    Ok(())
}

/// Whether a number has the same record before and after.
fn is_as_before(alloc: Global, change: &Change) -> Result<bool, AllocError>
    ensures { IfOk result (λ is. is ≡ is_same_record (Some change.now.old) change.now.new) }
{
    match &change.new {
        None => Ok(false),
        Some(new) => has_same_lines(alloc, &change.old, new),
    }
}

/// The item where a check has passed. At a refusal it is given back here, once for all callers.
fn kept_if<T: Drop, E>(item: T, check: Result<(), E>) -> Result<T, E>
    ensures same { IfOk result (λ kept. kept ≡ item) }
    ensures passed { IfOk result (λ kept. check ≡ Ok tt) }
    ensures refused { IfErr result (λ e. check ≡ Err e) }
{
    match check {
        Ok(()) => Ok(item),
        Err(e) => {
            drop(item);
            Err(e)
        }
    }
}
