//! The masked state, made of an archive and a day.

ghost use Rattle.std.specs.Prelude.{◌≡◌, ℕ, IfErr, IfOk, OnOk, None, Some};
ghost use Rattle.std.specs.FinMap.{get};
ghost use Rattle.std.specs.Ordering.{nat_cmp};
ghost use Rattle.std.specs.BTreeSet as set;
ghost use Rattle.record_kinds.specs.declared.record.Record.TheVariants as kind;
ghost use Rattle.record_text.specs.declared.refusal.RefusalKind.TheVariants as refusal;
ghost use Rattle.archive_state.specs.Content.{Records};
ghost use Rattle.archive_state.specs.Sound.{IsSound};
ghost use Rattle.masking.specs.Masking as masking;
ghost use Rattle.masking.specs.Judged.{KnowsSilent};
ghost use Rattle.masking.specs.Showing.{Shows, shown_record, shown_there, with_shown};

use crate::event_parts::shown_event;
use crate::judgement::{Judgement, judged};
use crate::parts::Part;
use crate::record_parts::shown_person;
use crate::state::Shown;
use archive_state::State;
use record_kinds::{Citation, Entry, Event, Record};
use record_text::Refusal;
use std::alloc::{AllocError, Global};

/// What may be shown of an archive on a day, counted from 1970-01-01, day 0. Refused only if out of memory.
pub fn shown(alloc: Global, state: &State, today: i32) -> Result<Shown, Refusal>
    ensures masked { IsSound state.now → IfOk result (λ s. masking.IsMasked state.now today s) }
    ensures sound { IsSound state.now → IfOk result (λ s. IsSound s) }
    ensures refused { IfErr result (λ e. e ≡ record { kind = refusal.OutOfMemory; at = None }) }
{
    let judgement = judged(alloc, state, today)?;
    let mut masked = shown_records(alloc, state, &judgement)?;
    masked.set_next(state.next());
    Ok(Shown::of_masked(alloc, masked))
}

/// What is shown of each record.
fn shown_records(alloc: Global, state: &State, judgement: &Judgement) -> Result<State, AllocError>
    ensures { KnowsSilent state.now.records judgement.now.living judgement.now.silent
        → IfOk result (λ masked. Shows state.now.records judgement.now.living judgement.now.open_entries
        masked.records) }
{
    let numbers = state.record_numbers(alloc)?;
    let mut masked = State::new(alloc);
    'numbers: for number in &numbers {
        put_shown(alloc, state, judgement, *number, &mut masked)?;
    }
    Ok(masked)
}

/// Puts what is shown of a number.
fn put_shown(
    alloc: Global,
    state: &State,
    judgement: &Judgement,
    number: u32,
    masked: &mut State,
) -> Result<(), AllocError>
    ensures { KnowsSilent state.now.records judgement.now.living judgement.now.silent
        → OnOk result (masked.new ≡ with_shown masked.old number
        (shown_there state.now.records judgement.now.living judgement.now.open_entries number)) }
{
    let Some(found) = state.record(number) else {
        return Ok(());
    };
    match shown_record(alloc, state, judgement, number, found)? {
        None => Ok(()),
        Some(record) => put(number, record, masked),
    }
}

/// Puts a record at a number.
fn put(number: u32, record: Record, masked: &mut State) -> Result<(), AllocError>
    ensures { OnOk result (masked.new ≡ with_shown masked.old number (Some «record»)) }
{
    let _ = masked.put_record(number, record)?;
    Ok(())
}

/// What is shown of a record. `None`: nothing, since it is gone.
fn shown_record(
    alloc: Global,
    state: &State,
    judgement: &Judgement,
    number: u32,
    found: &Record,
) -> Result<Option<Record>, AllocError>
    ensures { KnowsSilent state.now.records judgement.now.living judgement.now.silent
        → IfOk result (λ o. o ≡ shown_record state.now.records judgement.now.living judgement.now.open_entries
        number found.now) }
{
    match found {
        Record::Place(place) => Ok(Some(Record::Place(place.shown(alloc)?))),
        Record::Repo(repo) => Ok(Some(Record::Repo(repo.shown(alloc)?))),
        Record::Source(source) => Ok(Some(Record::Source(source.shown(alloc)?))),
        Record::Person(person) => {
            let is_living = judgement.living.contains(&number);
            Ok(Some(Record::Person(shown_person(alloc, is_living, person)?)))
        }
        Record::Family(family) => Ok(Some(Record::Family(family.shown(alloc)?))),
        Record::Citation(citation) => citation_shown(alloc, state, judgement, citation),
        Record::Event(event) => event_shown(alloc, judgement, event),
        Record::Entry(entry) => entry_shown(alloc, judgement, number, entry),
        Record::Other(_) => Ok(None),
    }
}

/// What is shown of a citation.
fn citation_shown(
    alloc: Global,
    state: &State,
    judgement: &Judgement,
    citation: &Citation,
) -> Result<Option<Record>, AllocError>
    ensures { (n : ℕ) → KnowsSilent state.now.records judgement.now.living judgement.now.silent
        → IfOk result (λ o. o ≡ shown_record state.now.records judgement.now.living judgement.now.open_entries
        n (kind.Citation citation.now)) }
{
    if is_cited_silent(state, judgement, citation.owner) {
        Ok(None)
    } else {
        Ok(Some(Record::Citation(citation.shown(alloc)?)))
    }
}

/// Whether citations of a record are gone: with it, or, where it is an event, with its owner.
fn is_cited_silent(state: &State, judgement: &Judgement, cited: u32) -> bool
    ensures { KnowsSilent state.now.records judgement.now.living judgement.now.silent
        → result ≡ masking.is_cited_silent (set.contains nat_cmp judgement.now.living) (get state.now.records)
        cited (get state.now.records cited) }
{
    match state.record(cited) {
        Some(Record::Event(event)) => judgement.silent.contains(&event.owner),
        _ => judgement.silent.contains(&cited),
    }
}

/// What is shown of an event.
fn event_shown(
    alloc: Global,
    judgement: &Judgement,
    event: &Event,
) -> Result<Option<Record>, AllocError>
    ensures { (m : Records) (n : ℕ) → KnowsSilent m judgement.now.living judgement.now.silent
        → IfOk result (λ o. o ≡ shown_record m judgement.now.living judgement.now.open_entries
        n (kind.Event event.now)) }
{
    if judgement.silent.contains(&event.owner) {
        Ok(None)
    } else {
        Ok(Some(Record::Event(shown_event(alloc, &judgement.living, event)?)))
    }
}

/// What is shown of an entry.
fn entry_shown(
    alloc: Global,
    judgement: &Judgement,
    number: u32,
    entry: &Entry,
) -> Result<Option<Record>, AllocError>
    ensures { (m : Records) → IfOk result (λ o. o ≡ shown_record m judgement.now.living judgement.now.open_entries
        number (kind.Entry entry.now)) }
{
    if judgement.open_entries.contains(&number) {
        Ok(Some(Record::Entry(entry.shown(alloc)?)))
    } else {
        Ok(None)
    }
}
