//! The slips of a state.

ghost use Rattle.std.specs.Prelude.{◌≡◌, ◌↔◌, IfOk, IfSome, IsTrue, None, Some, not, MatchOption};
ghost use Rattle.std.specs.FinMap.{get, keys};
ghost use Rattle.archive_state.specs.Sound.{IsPerson};
ghost use Rattle.audit.specs.Faults as faults;

use crate::fault::Fault;
use crate::judging::broken_slip;
use archive_state::{Slip, State};
use record_kinds::Record;
use std::alloc::{AllocError, Global};

/// What the first slip breaks that breaks a part of the rule.
pub(crate) fn first_broken(alloc: Global, state: &State) -> Result<Option<Fault>, AllocError>
    ensures { IfOk result (λ o. MatchOption o (faults.KeepSlips state.now (keys state.now.slips))
        (faults.IsFault state.now)) }
{
    let numbers = state.slip_numbers(alloc)?;
    first_of(alloc, state, numbers.as_slice())
}

/// What the first of the slips of these numbers breaks.
fn first_of(alloc: Global, state: &State, numbers: &[u32]) -> Result<Option<Fault>, AllocError>
    ensures { IfOk result (λ o. MatchOption o (faults.KeepSlips state.now numbers.now) (faults.IsFault state.now)) }
{
    'numbers: for number in numbers {
        if let Some(fault) = broken_at(alloc, state, *number)? {
            return Ok(Some(fault));
        }
    }
    Ok(None)
}

/// What the slip of a number breaks, where there is one.
fn broken_at(alloc: Global, state: &State, number: u32) -> Result<Option<Fault>, AllocError>
    ensures { IfOk result (λ o. MatchOption o (faults.KeepsSlipAt state.now number) (faults.IsFault state.now)) }
{
    match state.slip(number) {
        Some(slip) => broken_by(alloc, state, number, slip),
        None => Ok(None),
    }
}

fn broken_by(
    alloc: Global,
    state: &State,
    number: u32,
    slip: &Slip,
) -> Result<Option<Fault>, AllocError>
    ensures { get state.now.slips number ≡ Some slip.now → IfOk result (λ o. MatchOption o
        (faults.KeepsSlip state.now number slip.now) (faults.IsFault state.now)) }
{
    if has_record(state, number) {
        return Ok(Some(Fault::Shared(number)));
    }
    if let Some(part) = broken_slip(alloc, state.next(), number, slip)? {
        return Ok(Some(Fault::Slip(number, part)));
    }
    if !may_stay(state, slip.keep) {
        return Ok(Some(Fault::Stayed(number)));
    }
    if has_slip(state, slip.gone) {
        return Ok(Some(Fault::Taken(number)));
    }
    Ok(None)
}

fn has_record(state: &State, number: u32) -> bool
    ensures { IsTrue (not result) ↔ (get state.now.records number ≡ None) }
{
    state.record(number).is_some()
}

fn has_slip(state: &State, number: u32) -> bool
    ensures { IsTrue (not result) ↔ (get state.now.slips number ≡ None) }
{
    state.slip(number).is_some()
}

/// Whether a person stands at the number, or nothing.
fn may_stay(state: &State, number: u32) -> bool
    ensures { IsTrue result ↔ IfSome (get state.now.records number) IsPerson }
{
    match state.record(number) {
        Some(Record::Person(_)) | None => true,
        Some(_) => false,
    }
}
