//! The records of an archive, each read once.

ghost use Rattle.std.specs.Prelude.{◌≡◌, OnOk};
ghost use Rattle.std.specs.FinMap as map;
ghost use Rattle.archive_state.specs.Looks.{CountsFailures, Looked, OnView};
ghost use Rattle.gedcom_export.specs.Kept as kept;

use archive_state::{State, View};
use record_kinds::Record;
use record_text::RefusalKind;
use std::alloc::{AllocError, Global};

/// A state with the records that a view shows, each of which is read once, and with nothing else.
pub(crate) fn all_records<V: View>(alloc: Global, view: &mut V) -> Result<State, RefusalKind>
    ensures shows { OnView V.is_honest V.shows V.content view.old view.new
        (λ c. Looked result (λ state. state.records ≡ c.records)) }
    ensures counts { CountsFailures (V.failed view.old) (V.failed view.new) result }
{
    let numbers = view.record_numbers(alloc)?;
    records_of(alloc, view, &numbers)
}

/// A state with the records of these numbers.
#[tactic(auto, using(crate::proofs::Keeping::one_more, crate::proofs::Keeping::all_kept))]
fn records_of<V: View>(alloc: Global, view: &mut V, numbers: &[u32]) -> Result<State, RefusalKind>
    ensures shows { OnView V.is_honest V.shows V.content view.old view.new
        (λ c. Looked result (λ state. state.records ≡ kept.kept_of (map.get c.records) numbers.now)) }
    ensures counts { CountsFailures (V.failed view.old) (V.failed view.new) result }
{
    let mut state = State::new(alloc);
    'numbers: for number in numbers {
        read_at(alloc, view, *number, &mut state)?;
    }
    Ok(state)
}

/// Puts the record of a number where one stands.
fn read_at<V: View>(
    alloc: Global,
    view: &mut V,
    number: u32,
    state: &mut State,
) -> Result<(), RefusalKind>
    ensures shows { OnView V.is_honest V.shows V.content view.old view.new (λ c. Looked result (λ _.
        state.new.records ≡ kept.with_found number (map.get c.records number) state.old.records)) }
    ensures counts { CountsFailures (V.failed view.old) (V.failed view.new) result }
{
    let found = view.record_at(alloc, number)?;
    match put_found(number, found, state) {
        Ok(()) => Ok(()),
        Err(_) => Err(RefusalKind::OutOfMemory),
    }
}

/// Puts a record, where there is one.
fn put_found(number: u32, found: Option<Record>, state: &mut State) -> Result<(), AllocError>
    ensures { OnOk result (state.new.records ≡ kept.with_found number found state.old.records) }
{
    match found {
        Some(record) => put(number, record, state),
        None => Ok(()),
    }
}

fn put(number: u32, record: Record, state: &mut State) -> Result<(), AllocError>
    ensures { OnOk result (state.new.records ≡ map.insert state.old.records number «record») }
{
    state.put_record(number, record)?;
    Ok(())
}
