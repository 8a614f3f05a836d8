//! Which part of the rule a slip breaks.

ghost use Rattle.std.specs.Prelude.{◌≡◌, ◌↔◌, IsTrue, IfOk, MatchOption};
ghost use Rattle.record_shapes.specs.Lists.{Ascends};
ghost use Rattle.archive_state.specs.Sound.{IsSoundSlip};
ghost use Rattle.sound_records.specs.Knowing.{HasAll};
ghost use Rattle.audit.specs.Olds.{records_before};
ghost use Rattle.audit.specs.Parts as parts;

use crate::numbers::{are_in_order, has_numbers, numbers_of};
use crate::olds::{are_merges, olds_of};
use crate::part::SlipPart;
use crate::persons::{are_joinable, has_keep, has_person_at};
use archive_state::{Change, Slip, State};
use sound_records::first_breach;
use std::alloc::{AllocError, Global};

/// The first part of the rule that the slip of a number breaks; `next` is what all numbers are to be below.
pub fn broken_slip(
    alloc: Global,
    next: u64,
    number: u32,
    slip: &Slip,
) -> Result<Option<SlipPart>, AllocError>
    ensures { IfOk result (λ o. MatchOption o (IsSoundSlip next number slip.now)
        (parts.BreaksSlip next number slip.now)) }
{
    if !has_numbers(next, number, slip) {
        return Ok(Some(SlipPart::Number));
    }
    if !are_in_order(&slip.changes) {
        return Ok(Some(SlipPart::Order));
    }
    broken_inside(alloc, next, slip.keep, slip.gone, &slip.changes)
}

/// The first part that the changes of a slip break, whose numbers are as they are to be.
fn broken_inside(
    alloc: Global,
    next: u64,
    keep: u32,
    gone: u32,
    changes: &[Change],
) -> Result<Option<SlipPart>, AllocError>
    ensures { Ascends (parts.changed changes.now) → IfOk result (λ o. MatchOption o
        (parts.KeepsInside next (records_before changes.now) keep gone changes.now)
        (parts.BreaksInside next (records_before changes.now) keep gone changes.now)) }
{
    let olds = olds_of(alloc, changes)?;
    let numbers = numbers_of(alloc, changes)?;
    broken_by_olds(alloc, next, &olds, keep, gone, changes, numbers.as_slice())
}

/// The same, of old records at these numbers.
fn broken_by_olds(
    alloc: Global,
    next: u64,
    olds: &State,
    keep: u32,
    gone: u32,
    changes: &[Change],
    numbers: &[u32],
) -> Result<Option<SlipPart>, AllocError>
    ensures { Ascends numbers.now → HasAll numbers.now olds.now.records → IfOk result (λ o. MatchOption o
        (parts.KeepsInside next olds.now.records keep gone changes.now)
        (parts.BreaksInside next olds.now.records keep gone changes.now)) }
{
    if let Some(part) = broken_by_persons(olds, keep, gone, numbers) {
        return Ok(Some(part));
    }
    if !are_merges(alloc, olds, keep, gone, changes)? {
        return Ok(Some(SlipPart::Merge));
    }
    match first_breach(alloc, olds, next, true, numbers)? {
        Some(breach) => Ok(Some(SlipPart::Old(breach))),
        None => Ok(None),
    }
}

/// The first part that is broken by the two persons.
fn broken_by_persons(olds: &State, keep: u32, gone: u32, numbers: &[u32]) -> Option<SlipPart>
    ensures { HasAll numbers.now olds.now.records → MatchOption result
        (parts.KeepsPersons olds.now.records keep gone) (parts.BreaksPersons olds.now.records keep gone) }
{
    if !has_person_at(olds, gone) {
        return Some(SlipPart::Gone);
    }
    if !has_keep(olds, keep, gone) {
        return Some(SlipPart::Keep);
    }
    if is_one(keep, gone) {
        return Some(SlipPart::Same);
    }
    if !are_joinable(olds, keep, gone, numbers) {
        return Some(SlipPart::Clash);
    }
    None
}

fn is_one(keep: u32, gone: u32) -> bool
    ensures { IsTrue result ↔ (keep ≡ gone) }
{
    keep == gone
}
