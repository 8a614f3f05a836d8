//! The old records of a slip, as a state.

ghost use Rattle.std.specs.Prelude.{◌≡◌, ◌↔◌, IsTrue, IfOk, OnOk};
ghost use Rattle.std.specs.FinMap as maps;
ghost use Rattle.audit.specs.Parts.{AreMerges, IsMergeIn};
ghost use Rattle.audit.specs.Olds.{records_before};

use archive_state::{Change, State};
use merging::{is_same, merged_at};
use record_kinds::Record;
use records::copy_record;
use std::alloc::{AllocError, Global};

/// A state of the old records. Of a number that stands twice the first counts.
pub(crate) fn olds_of(alloc: Global, changes: &[Change]) -> Result<State, AllocError>
    ensures { IfOk result (λ s. s.records ≡ records_before changes.now) }
{
    let mut olds = State::new(alloc);
    let mut left = changes.len();
    'changes: while left > 0 {
        left -= 1;
        put_old(alloc, &mut olds, &changes[left])?;
    }
    Ok(olds)
}

fn put_old(alloc: Global, olds: &mut State, change: &Change) -> Result<(), AllocError>
    ensures { OnOk result (olds.new.records ≡ maps.insert olds.old.records change.now.number change.now.old) }
{
    put(olds, change.number, copy_record(alloc, &change.old)?)
}

fn put(olds: &mut State, number: u32, old: Record) -> Result<(), AllocError>
    ensures { OnOk result (olds.new.records ≡ maps.insert olds.old.records number «old») }
{
    let _ = olds.put_record(number, old)?;
    Ok(())
}

/// Whether the new record of each change is what the merge makes of the old ones.
pub(crate) fn are_merges(
    alloc: Global,
    olds: &State,
    keep: u32,
    gone: u32,
    changes: &[Change],
) -> Result<bool, AllocError>
    ensures { IfOk result (λ b. IsTrue b ↔ AreMerges olds.now.records keep gone changes.now) }
{
    'changes: for change in changes {
        if !is_merge(alloc, olds, keep, gone, change)? {
            return Ok(false);
        }
    }
    Ok(true)
}

fn is_merge(
    alloc: Global,
    olds: &State,
    keep: u32,
    gone: u32,
    change: &Change,
) -> Result<bool, AllocError>
    ensures { IfOk result (λ b. IsTrue b ↔ IsMergeIn olds.now.records keep gone change.now) }
{
    let merged = merged_at(alloc, olds, keep, gone, change.number)?;
    let same = is_same(alloc, &change.new, &merged)?;
    Ok(same)
}
