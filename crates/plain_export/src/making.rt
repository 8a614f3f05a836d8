//! The plain archive, made of an archive.

ghost use Rattle.std.specs.Prelude.{◌≡◌, IfErr, IfOk, OnOk, Some};
ghost use Rattle.std.specs.FinMap.{get};
ghost use Rattle.std.specs.List.Sorted.{IsNonDecreasingBy};
ghost use Rattle.gedcom_export.specs.Owned.{IsArrangedBy};
ghost use Rattle.gedcom_export.specs.Shown.{around_in};
ghost use Rattle.plain_export.specs.Added as adding;
ghost use Rattle.plain_export.specs.Fitting.{Fails, IsFit, PlaceFits, PlacesFit};
ghost use Rattle.plain_export.specs.Made as making;
ghost use Rattle.plain_export.specs.Plain as plain;
ghost use Rattle.plain_export.specs.declared.added.Added as declared;

use crate::added::{Added, lines_of};
use crate::gathering::arranged;
use crate::kinds::{
    other_at, plain_citation, plain_event, plain_family, plain_person, plain_repo, plain_source,
};
use archive_state::State;
use gedcom_export::{Index, index_of};
use record_kinds::Record;
use record_text::RefusalKind;
use std::alloc::{AllocError, Global};
use stored_lines::Carried;

/// The plain archive of the records of a state. Refused with 70 where a text or a line of it is too long for one.
pub(crate) fn plain_state(alloc: Global, state: &State) -> Result<State, RefusalKind>
    ensures made { IfOk result (λ made. plain.IsPlain state.now.records made.records) }
    ensures refused { IfErr result (λ e. Fails e (IsFit state.now.records)) }
{
    let index = index_of(alloc, state)?;
    let added = arranged(alloc, state, &index)?;
    let plain = plain_records(alloc, state, &index, &added)?;
    Ok(plain)
}

/// The plain archive, where it is known what is added to each record.
fn plain_records(
    alloc: Global,
    state: &State,
    index: &Index,
    added: &[Added],
) -> Result<State, RefusalKind>
    requires { IsNonDecreasingBy (λ (x : declared.Added). x.number) added.now }
    ensures made { IfOk result (λ made. making.AreMade state.now.records (around_in index.now) added.now made.records) }
    ensures refused { IfErr result (λ e. Fails e (PlacesFit state.now.records (around_in index.now))) }
{
    let numbers = state.record_numbers(alloc)?;
    let mut plain = State::new(alloc);
    'numbers: for number in &numbers {
        put_plain(alloc, state, index, added, *number, &mut plain)?;
    }
    Ok(plain)
}

/// Puts what stands at a number.
fn put_plain(
    alloc: Global,
    state: &State,
    index: &Index,
    added: &[Added],
    number: u32,
    plain: &mut State,
) -> Result<(), RefusalKind>
    requires { IsNonDecreasingBy (λ (x : declared.Added). x.number) added.now }
    ensures made { OnOk result (plain.new.records ≡ making.put_if plain.old.records number
        (making.made_at state.now.records (around_in index.now) added.now number)) }
    ensures refused { IfErr result (λ e. Fails e
        (PlaceFits state.now.records (around_in index.now) (get state.now.records number))) }
{
    let Some(found) = state.record(number) else {
        return Ok(());
    };
    let more = lines_of(alloc, added, number)?;
    match record_at(alloc, state, index, more, found)? {
        None => Ok(()),
        Some(record) => Ok(put(number, record, plain)?),
    }
}

/// Puts a record at a number.
fn put(number: u32, record: Record, plain: &mut State) -> Result<(), AllocError>
    ensures { OnOk result (plain.new.records ≡ making.put_if plain.old.records number (Some «record»)) }
{
    let _ = plain.put_record(number, record)?;
    Ok(())
}

/// What stands in the plain archive in place of a record to which those lines are added. `None`: nothing.
fn record_at(
    alloc: Global,
    state: &State,
    index: &Index,
    more: Vec<Carried>,
    found: &Record,
) -> Result<Option<Record>, RefusalKind>
    ensures made { IfOk result (λ o. o
        ≡ plain.plain_at state.now.records (around_in index.now) more.items (Some found.now)) }
    ensures refused { IfErr result (λ e. Fails e
        (PlaceFits state.now.records (around_in index.now) (Some found.now))) }
{
    match found {
        Record::Place(_) => Ok(None),
        Record::Repo(repo) => Ok(Some(Record::Repo(plain_repo(alloc, state, repo)?))),
        Record::Source(source) => {
            let source = plain_source(alloc, state, more, source)?;
            Ok(Some(Record::Source(source)))
        }
        Record::Person(person) => {
            let person = plain_person(alloc, state, more, person)?;
            Ok(Some(Record::Person(person)))
        }
        Record::Family(family) => Ok(Some(Record::Family(plain_family(alloc, state, family)?))),
        Record::Citation(citation) => {
            let citation = plain_citation(alloc, state, citation)?;
            Ok(Some(Record::Citation(citation)))
        }
        Record::Event(event) => {
            let event = plain_event(alloc, state, index, more, event)?;
            Ok(Some(Record::Event(event)))
        }
        Record::Entry(_) => Ok(None),
        Record::Other(other) => Ok(other_at(alloc, state, other)?),
    }
}
