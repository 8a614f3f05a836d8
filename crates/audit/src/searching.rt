//! What breaks the rule of a sound archive.

ghost use Rattle.std.specs.Prelude.{◌≡◌, ◌↔◌, IfErr, IfOk, IfSome, IsTrue, None, MatchOption, false};
ghost use Rattle.record_text.specs.declared.refusal.RefusalKind.TheVariants as refusal;
ghost use Rattle.archive_state.specs.Sound.{IsSound};
ghost use Rattle.sound_records.specs.Parts as parts;
ghost use Rattle.audit.specs.Faults as faults;

use crate::fault::Fault;
use crate::slips::first_broken;
use archive_state::State;
use record_text::Refusal;
use sound_records::{Breach, first_breach};
use std::alloc::{AllocError, Global};

/// How many numbers there are from 0 on.
const NUMBERS: u64 = 4_294_967_296;

/// What breaks the rule of a sound archive: records first, as `sound_records` has them, and then slips by their
/// numbers. `None`: nothing does. Refused only if out of memory.
pub fn first_fault(alloc: Global, state: &State) -> Result<Option<Fault>, Refusal>
    ensures found { IfOk result (λ o. MatchOption o (IsSound state.now) (faults.IsFault state.now)) }
    ensures unsound { IfOk result (λ o. IfSome o (λ f. ¬ (IsSound state.now))) }
    ensures refused { IfErr result (λ e. e ≡ record { kind = refusal.OutOfMemory; at = None }) }
{
    Ok(found_in(alloc, state)?)
}

fn found_in(alloc: Global, state: &State) -> Result<Option<Fault>, AllocError>
    ensures { IfOk result (λ o. MatchOption o (IsSound state.now) (faults.IsFault state.now)) }
{
    if !is_next(state.next()) {
        return Ok(Some(Fault::Next));
    }
    if let Some(breach) = broken_record(alloc, state)? {
        return Ok(Some(Fault::Record(breach)));
    }
    first_broken(alloc, state)
}

/// A record that breaks a part of the rule on records.
fn broken_record(alloc: Global, state: &State) -> Result<Option<Breach>, AllocError>
    ensures { IfOk result (λ o. MatchOption o (parts.AreWhole state.now.next false state.now.records)
        (parts.IsBreach state.now.next false state.now.records)) }
{
    let numbers = state.record_numbers(alloc)?;
    first_breach(alloc, state, state.next(), false, numbers.as_slice())
}

/// Whether the next number is from 1, and at most one more than the last that there is.
fn is_next(next: u64) -> bool
    ensures { IsTrue result ↔ faults.IsNext next }
{
    0 < next && next <= NUMBERS
}

/// Whether the state is sound. Refused only if out of memory.
pub fn sound(alloc: Global, state: &State) -> Result<bool, Refusal>
    ensures sound { IfOk result (λ b. IsTrue b ↔ IsSound state.now) }
    ensures refused { IfErr result (λ e. e ≡ record { kind = refusal.OutOfMemory; at = None }) }
{
    Ok(first_fault(alloc, state)?.is_none())
}
