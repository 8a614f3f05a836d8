//! The numbers in a slip.

ghost use Rattle.std.specs.Prelude.{◌≡◌, ◌↔◌, ◌++◌, ◌∷◌, ◌&&◌, nat_lt, IsTrue, IfOk};
ghost use Rattle.std.specs.List.{flat_map};
ghost use Rattle.archive_state.specs.Links.{names};
ghost use Rattle.record_shapes.specs.Lists.{Ascends, EachOf};
ghost use Rattle.archive_state.specs.Sound.{IsNumber, change_names, new_names};
ghost use Rattle.audit.specs.Parts.{all_numbers, changed};
ghost use Rattle.archive_state.specs.declared.slip.Change as changes_seen;
ghost use Rattle.audit.specs.Rising.{rises_from};

use crate::numbered::has_numbers_below;
use archive_state::{Change, Slip};
use record_kinds::Record;
use std::alloc::{AllocError, Global};

/// Whether all numbers in the slip of a number, and this, are from 1 and below the next one.

pub(crate) fn has_numbers(next: u64, number: u32, slip: &Slip) -> bool
    ensures { IsTrue result ↔ EachOf (IsNumber next) (all_numbers number slip.now) }
{
    is_below(number, next)
        && is_below(slip.keep, next)
        && is_below(slip.gone, next)
        && changes_are_below(next, &slip.changes)
}

fn is_below(number: u32, next: u64) -> bool
    ensures { IsTrue result ↔ IsNumber next number }
{
    0 < number && u64::from(number) < next
}

fn changes_are_below(next: u64, changes: &[Change]) -> bool
    ensures { IsTrue result ↔ EachOf (IsNumber next) (flat_map change_names changes.now) }
{
    each_is_below(next, changes)
}

fn each_is_below(next: u64, changes: &[Change]) -> bool
    ensures { IsTrue result ↔ EachOf (λ (c : changes_seen.Change). EachOf (IsNumber next) (change_names c))
        changes.now }
{
    changes.iter().all(|change| change_is_below(next, change))
}

fn change_is_below(next: u64, change: &Change) -> bool
    ensures { IsTrue result ↔ EachOf (IsNumber next) (change_names change.now) }
{
    is_below(change.number, next) && names_are_below(next, change)
}

fn names_are_below(next: u64, change: &Change) -> bool
    ensures { IsTrue result ↔ EachOf (IsNumber next) (names change.now.old ++ new_names change.now.new) }
{
    both(
        has_numbers_below(&change.old, next),
        new_is_below(&change.new, next),
    )
}

fn both(one: bool, other: bool) -> bool
    ensures { result ≡ (one && other) }
{
    one && other
}

fn new_is_below(new: &Option<Record>, next: u64) -> bool
    ensures { IsTrue result ↔ EachOf (IsNumber next) (new_names new.now) }
{
    match new {
        Some(record) => has_numbers_below(record, next),
        None => true,
    }
}

/// Whether the changed numbers ascend, and are from 1.
pub(crate) fn are_in_order(changes: &[Change]) -> bool
    ensures { IsTrue result ↔ Ascends (0 ∷ changed changes.now) }
{
    rise_from(0, changes)
}

/// Whether each number is greater than the one before it, the first than `before`.
fn rise_from(before: u32, changes: &[Change]) -> bool
    ensures { result ≡ rises_from before (changed changes.now) }
{
    let mut last = before;
    'changes: for change in changes {
        if !is_less(last, change.number) {
            return false;
        }
        last = change.number;
    }
    true
}

fn is_less(one: u32, other: u32) -> bool
    ensures { result ≡ nat_lt one other }
{
    one < other
}

/// The changed numbers.
pub(crate) fn numbers_of(alloc: Global, changes: &[Change]) -> Result<Vec<u32>, AllocError>
    ensures { IfOk result (λ ns. ns.items ≡ changed changes.now) }
{
    let mut numbers = Vec::new(alloc);
    'changes: for change in changes {
        numbers.push(change.number)?;
    }
    Ok(numbers)
}
