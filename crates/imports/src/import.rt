//! What an import changes.

ghost use Rattle.std.specs.Prelude.{◌≡◌, ◌-◌, [], IfOk, None, Ok};
ghost use Rattle.archive_state.specs.Looks.{CountsStops, OnView};
ghost use Rattle.command_checks.specs.Exact.{IsExact};
ghost use Rattle.commands.specs.Rows.{and_then};
ghost use Rattle.gedcom_tree.specs.Text.{IsForest};
ghost use Rattle.entry_batches.specs.Applied.{PlansAt};
ghost use Rattle.entry_batches.specs.Batches.{first_number};
ghost use Rattle.imports.specs.Imports as imports;

use crate::batch::batch_of;
use archive_state::{Batch, Changes, View};
use gedcom_tree::Forest;
use receipts::Answer;
use record_text::{Refusal, RefusalKind};
use std::alloc::Global;

/// The last number that there is.
const LAST: u64 = 4_294_967_295;

/// What the import of a forest changes: its records are put, and the next number moves after them. It is refused where
/// two entries of the file have one source, kind, page and item (`DuplicateEntry`, at the line of the second), where
/// more numbers are needed than there are, and where there is no next number (`Full`). The stops may come in place of
/// any answer: `OutOfMemory`, `BadStored` and `Storage`, without a line.
pub fn decide_import<V: View>(
    alloc: Global,
    view: &mut V,
    forest: &Forest,
) -> Result<Changes, Refusal>
    ensures decides { OnView V.is_honest V.shows V.content view.old view.new
        (λ c. PlansAt c result (imports.import_step c forest.now)) }
    ensures exact { OnView V.is_honest V.shows V.content view.old view.new
        (λ c. IfOk result (IsExact c)) }
    ensures adds { OnView V.is_honest V.shows V.content view.old view.new
        (λ c. IfOk result (imports.OnlyAdds c)) }
    ensures counts { CountsStops (V.failed view.old) (V.failed view.new) result }
{
    let next = view.next(alloc)?;
    let (batch, report) = batch_of(alloc, forest, view)?;
    drop(report);
    Ok(changes(alloc, next, batch)?)
}

/// What a batch changes, where there is an answer for it (else `Full`).
fn changes(alloc: Global, next: u64, batch: Batch) -> Result<Changes, RefusalKind>
    ensures { result ≡ and_then (imports.answer_of next batch) (λ a. Ok (record {
      puts = batch.records;
      removals = [];
      next = batch.next;
      answer = a;
      kept = None;
      slip = None;
    })) }
{
    match answer_of(next, batch.next) {
        Ok(answer) => Ok(Changes {
            puts: batch.records,
            removals: Vec::new(alloc),
            next: batch.next,
            answer,
            kept: None,
            slip: None,
        }),
        Err(e) => {
            drop(batch);
            Err(e)
        }
    }
}

/// The next number of before, and how many were drawn up to that of after.
fn answer_of(next: u64, after: u64) -> Result<Answer, RefusalKind>
    ensures { result ≡ and_then (first_number next) (λ first. and_then (first_number (after - next)) (λ count.
        Ok (record { first = first; count = count }))) }
{
    let first = short(next)?;
    let count = short(after.saturating_sub(next))?;
    Ok(Answer { first, count })
}

/// The number, where it has 32 bits (else `Full`).
fn short(number: u64) -> Result<u32, RefusalKind>
    ensures { result ≡ first_number number }
{
    if number > LAST {
        return Err(RefusalKind::Full);
    }
    Ok(number as u32)
}

/// Does nothing: it tells a proof that the nodes of a forest are one.
pub fn tell_forest(forest: &Forest)
    ensures { IsForest forest.now }
{
    let _ = forest.nodes();
}
