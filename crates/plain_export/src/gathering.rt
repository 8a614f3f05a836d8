//! What all records add, gathered in one pass.

ghost use Rattle.std.specs.Prelude.{◌≡◌, ◌++◌, IfErr, IfOk, OnOk, Some};
ghost use Rattle.std.specs.BTreeMap.{get_by_text};
ghost use Rattle.std.specs.FinMap.{get};
ghost use Rattle.std.specs.List.Sorted.{IsNonDecreasingBy};
ghost use Rattle.gedcom_export.specs.Owned.{IsArrangedBy};
ghost use Rattle.gedcom_export.specs.Shown.{around_in};
ghost use Rattle.plain_export.specs.Added as adding;
ghost use Rattle.plain_export.specs.Firsts as marking;
ghost use Rattle.plain_export.specs.Fitting.{AdditionFits, AdditionsFit, Fails};
ghost use Rattle.plain_export.specs.declared.added.Added as declared;

use crate::added::{Added, sort_added};
use crate::entries::add_entry;
use crate::events::add_event;
use crate::firsts::{Firsts, firsts_of};
use archive_state::State;
use gedcom_export::Index;
use record_kinds::Record;
use record_text::RefusalKind;
use std::alloc::Global;

/// What all records add, by the numbers of those that it is added to.
pub(crate) fn arranged(
    alloc: Global,
    state: &State,
    index: &Index,
) -> Result<Vec<Added>, RefusalKind>
    ensures made { IfOk result (λ made. IsArrangedBy (λ (x : declared.Added). x.number)
        (adding.added state.now.records (around_in index.now)) made.items) }
    ensures refused { IfErr result (λ e. Fails e (AdditionsFit state.now.records (around_in index.now)
        (marking.firsts state.now.records))) }
{
    let mut made = gathered(alloc, state, index)?;
    sort_added(&mut made)?;
    Ok(made)
}

/// What all records add.
fn gathered(alloc: Global, state: &State, index: &Index) -> Result<Vec<Added>, RefusalKind>
    ensures made { IfOk result (λ made. made.items ≡ adding.added state.now.records (around_in index.now)) }
    ensures refused { IfErr result (λ e. Fails e (AdditionsFit state.now.records (around_in index.now)
        (marking.firsts state.now.records))) }
{
    let firsts = firsts_of(alloc, state)?;
    let numbers = state.record_numbers(alloc)?;
    let mut made = Vec::new(alloc);
    'numbers: for number in &numbers {
        add_found(alloc, state, index, &firsts, *number, &mut made)?;
    }
    Ok(made)
}

/// Adds what the record of a number adds.
fn add_found(
    alloc: Global,
    state: &State,
    index: &Index,
    firsts: &Firsts,
    number: u32,
    made: &mut Vec<Added>,
) -> Result<(), RefusalKind>
    ensures made { OnOk result (made.new.items ≡ made.old.items
        ++ adding.added_at state.now.records (around_in index.now) (get_by_text firsts.now.numbers) number) }
    ensures refused { IfErr result (λ e. Fails e (AdditionFits state.now.records (around_in index.now)
        (get_by_text firsts.now.numbers) number (get state.now.records number))) }
{
    match state.record(number) {
        Some(record) => add_record(alloc, state, index, firsts, number, record, made),
        None => Ok(()),
    }
}

/// Adds what a record adds.
fn add_record(
    alloc: Global,
    state: &State,
    index: &Index,
    firsts: &Firsts,
    number: u32,
    record: &Record,
    made: &mut Vec<Added>,
) -> Result<(), RefusalKind>
    ensures made { OnOk result (made.new.items ≡ made.old.items
        ++ adding.added_by state.now.records (around_in index.now)
        (get_by_text firsts.now.numbers) number (Some «record».now)) }
    ensures refused { IfErr result (λ e. Fails e (AdditionFits state.now.records (around_in index.now)
        (get_by_text firsts.now.numbers) number (Some «record».now))) }
{
    match record {
        Record::Event(event) => add_event(alloc, state, number, event, made),
        Record::Entry(entry) => add_entry(alloc, index, firsts, entry, made),
        _ => Ok(()),
    }
}
