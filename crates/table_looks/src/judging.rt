//! What an archive holds, judged.

ghost use Rattle.std.specs.Prelude.{◌≡◌, ◌⊎◌, IfErr, IfOk, IfSome, MatchOption, None, length};
ghost use Rattle.std.specs.FinMap.{keys};
ghost use Rattle.record_text.specs.declared.refusal.RefusalKind.TheVariants.{BadStored, OutOfMemory};
ghost use Rattle.archive_state.specs.Sound.{IsSound};
ghost use Rattle.table_looks.specs.Judging.{HaveOwn, IsFlaw};

use crate::beside::{Beside, first_lacking};
use crate::flaw::Flaw;
use archive_state::State;
use audit::first_fault;
use record_text::RefusalKind;
use std::alloc::{AllocError, Global};

/// How many records a sound state has, each of which has its own of what is beside. 40: it is not sound, or a record
/// does not have its own, with what is wrong. 1: memory was refused.
pub(crate) fn judge(
    alloc: Global,
    held: &State,
    beside: Beside,
) -> Result<u32, (RefusalKind, Option<Flaw>)>
    ensures good { IfOk result (λ n. IsSound held.now × HaveOwn beside held.now
        × (n ≡ length (keys held.now.records))) }
    ensures bad { IfErr result (λ e. (e.0 ≡ OutOfMemory)
        ⊎ ((e.0 ≡ BadStored) × (IsSound held.now → ¬ (HaveOwn beside held.now)))) }
    ensures told { IfErr result (λ e. IfSome e.1 (IsFlaw held.now beside)) }
{
    match first_fault(alloc, held) {
        Ok(None) => judge_beside(alloc, held, beside),
        Ok(Some(fault)) => Err((RefusalKind::BadStored, Some(Flaw::Rule(fault)))),
        Err(refusal) => Err((refusal.kind, None)),
    }
}

/// The same of a sound state.
fn judge_beside(
    alloc: Global,
    held: &State,
    beside: Beside,
) -> Result<u32, (RefusalKind, Option<Flaw>)>
    requires sound { IsSound held.now }
    ensures good { IfOk result (λ n. HaveOwn beside held.now × (n ≡ length (keys held.now.records))) }
    ensures bad { IfErr result (λ e. (e.0 ≡ OutOfMemory)
        ⊎ ((e.0 ≡ BadStored) × ¬ (HaveOwn beside held.now))) }
    ensures told { IfErr result (λ e. IfSome e.1 (IsFlaw held.now beside)) }
{
    match first_lacking(alloc, held, beside) {
        Ok(None) => counted(alloc, held),
        Ok(Some(flaw)) => Err((RefusalKind::BadStored, Some(flaw))),
        Err(AllocError) => Err((RefusalKind::OutOfMemory, None)),
    }
}

/// How many records a sound state has. Their numbers are from 1 and below 4,294,967,296, so the count fits. 1: memory
/// was refused.
fn counted(alloc: Global, held: &State) -> Result<u32, (RefusalKind, Option<Flaw>)>
    requires sound { IsSound held.now }
    ensures counted { IfOk result (λ n. n ≡ length (keys held.now.records)) }
    ensures refused { IfErr result (λ e. e ≡ (OutOfMemory, None)) }
{
    match held.record_numbers(alloc) {
        Ok(numbers) => Ok(numbers.len() as u32),
        Err(_) => Err((RefusalKind::OutOfMemory, None)),
    }
}
