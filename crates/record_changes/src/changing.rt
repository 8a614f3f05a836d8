//! The changes of one record.

ghost use Rattle.std.specs.Prelude.{◌≡◌, ◌≢◌, ◌∷◌, [], IfErr, IfOk, None, Some, Err, Ok};
ghost use Rattle.std.specs.FinMap as map;
ghost use Rattle.archive_state.specs.Looks.{CountsFailures};
ghost use Rattle.archive_state.specs.Views.{On};
ghost use Rattle.command_checks.specs.Applied.{Plans};
ghost use Rattle.command_checks.specs.Exact.{IsExact};
ghost use Rattle.record_changes.specs.Steps as steps;

use archive_state::{Changes, Numbered, View};
use receipts::Answer;
use record_kinds::Record;
use record_text::RefusalKind;
use std::alloc::{AllocError, Global};

/// The answer of a command that makes no record.
const NOTHING_MADE: Answer = Answer { first: 0, count: 0 };

/// Another record at a number, where another one is.
#[tactic(auto, using(crate::proofs::Exactness::one_is_exact))]
pub fn replaces<V: View>(
    alloc: Global,
    view: &mut V,
    number: u32,
    value: Record,
) -> Result<Changes, RefusalKind>
    ensures decides { On V.View view.old view.new (λ c. Plans c result (Ok (steps.replaced c number value))) }
    ensures exact { On V.View view.old view.new
        (λ c. IfOk result (λ changes. map.get c.records number ≢ Some value → IsExact c changes)) }
    ensures counts { CountsFailures (V.failed view.old) (V.failed view.new) result }
{
    match view.next(alloc) {
        Ok(next) => Ok(put(alloc, number, value, next)?),
        Err(e) => {
            drop(value);
            Err(e)
        }
    }
}

/// Nothing, where what is asked for is there already.
#[tactic(auto, using(crate::proofs::Exactness::none_is_exact))]
pub fn unchanged<V: View>(alloc: Global, view: &mut V) -> Result<Changes, RefusalKind>
    ensures decides { On V.View view.old view.new (λ c. Plans c result (Ok (steps.as_before c))) }
    ensures exact { On V.View view.old view.new (λ c. IfOk result (IsExact c)) }
    ensures counts { CountsFailures (V.failed view.old) (V.failed view.new) result }
{
    let next = view.next(alloc)?;
    Ok(Changes {
        puts: Vec::new(alloc),
        removals: Vec::new(alloc),
        next,
        answer: NOTHING_MADE,
        kept: None,
        slip: None,
    })
}

/// One record to put, and nothing else.
fn put(alloc: Global, number: u32, value: Record, next: u64) -> Result<Changes, AllocError>
    ensures { IfOk result (λ c. c ≡ record {
      puts = record { number = number; «record» = value } ∷ [];
      removals = [];
      next = next;
      answer = record { first = 0; count = 0 };
      kept = None;
      slip = None;
    }) }
{
    let put = Numbered {
        number,
        record: value,
    };
    Ok(Changes {
        puts: one(alloc, put)?,
        removals: Vec::new(alloc),
        next,
        answer: NOTHING_MADE,
        kept: None,
        slip: None,
    })
}

/// The item where a check has passed. At a refusal it is given back here, once for all callers.
pub fn kept_if<T: Drop, E>(item: T, check: Result<(), E>) -> Result<T, E>
    ensures same { IfOk result (λ kept. kept ≡ item) }
    ensures passed { IfOk result (λ kept. check ≡ Ok tt) }
    ensures refused { IfErr result (λ e. check ≡ Err e) }
{
    match check {
        Ok(()) => Ok(item),
        Err(e) => {
            drop(item);
            Err(e)
        }
    }
}

/// A list of one.
fn one<T: Drop>(alloc: Global, item: T) -> Result<Vec<T>, AllocError>
    ensures { IfOk result (λ items. items.items ≡ item ∷ []) }
{
    let mut items = Vec::new(alloc);
    items.push(item)?;
    Ok(items)
}
