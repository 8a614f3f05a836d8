//! The events and citations that a record owns.

ghost use Rattle.std.specs.Prelude.{◌≡◌, ◌++◌, OnOk, Some, string_bytes};
ghost use Rattle.std.specs.FinMap as map;
ghost use Rattle.std.specs.List.{flat_map};
ghost use Rattle.record_kinds.specs.declared.record.Record.TheVariants as kind;
ghost use Rattle.gedcom_export.specs.Index.{IsArranged};
ghost use Rattle.gedcom_export.specs.declared.index_owned.Owned as owned;
ghost use Rattle.sheets.specs.Indexed.{indexed};
ghost use Rattle.sheets.specs.Owned as texts;

use crate::looks::{path_of, shown_at};
use archive_state::State;
use gedcom_export::{Index, Owned};
use record_kinds::{Event, Participant, Record};
use sheet_lines::{push_citation, push_event_line, push_participant};
use std::alloc::{AllocError, Global};

/// Appends the events of a record, by number.
pub(crate) fn push_events_of(
    alloc: Global,
    out: &mut String,
    state: &State,
    index: &Index,
    owner: u32,
) -> Result<(), AllocError>
    requires { IsArranged index.now }
    ensures { OnOk result (string_bytes out.new ≡ string_bytes out.old
        ++ texts.events_text (indexed state.now.records index.now) owner) }
{
    push_events(alloc, out, state, index, index.events_of(owner))
}

fn push_events(
    alloc: Global,
    out: &mut String,
    state: &State,
    index: &Index,
    events: &[Owned],
) -> Result<(), AllocError>
    requires { IsArranged index.now }
    ensures { OnOk result (string_bytes out.new ≡ string_bytes out.old ++ flat_map
        (λ (o : owned.Owned). texts.event_in (indexed state.now.records index.now) o.number
        (map.get state.now.records o.number)) events.now) }
{
    'events: for event in events {
        push_event_at(alloc, out, state, index, event.number)?;
    }
    Ok(())
}

fn push_event_at(
    alloc: Global,
    out: &mut String,
    state: &State,
    index: &Index,
    number: u32,
) -> Result<(), AllocError>
    requires { IsArranged index.now }
    ensures { OnOk result (string_bytes out.new ≡ string_bytes out.old
        ++ texts.event_in (indexed state.now.records index.now) number (map.get state.now.records number)) }
{
    match state.record(number) {
        Some(Record::Event(event)) => push_event(alloc, out, state, index, number, event),
        _ => Ok(()),
    }
}

/// Appends an event: its line, those who took part, and its citations.
fn push_event(
    alloc: Global,
    out: &mut String,
    state: &State,
    index: &Index,
    number: u32,
    event: &Event,
) -> Result<(), AllocError>
    requires { IsArranged index.now }
    ensures { OnOk result (string_bytes out.new ≡ string_bytes out.old
        ++ texts.event_in (indexed state.now.records index.now) number (Some (kind.Event event.now))) }
{
    let path = path_of(alloc, index, &event.place)?;
    push_event_line(out, event, path.as_str())?;
    push_participants(alloc, out, state, &event.participants)?;
    push_citations_of(out, state, index, "  source ", number)
}

fn push_participants(
    alloc: Global,
    out: &mut String,
    state: &State,
    participants: &[Participant],
) -> Result<(), AllocError>
    ensures { OnOk result (string_bytes out.new ≡ string_bytes out.old
        ++ flat_map (texts.participant_text (map.get state.now.records)) participants.now) }
{
    'participants: for participant in participants {
        let shown = shown_at(alloc, state, participant.person)?;
        push_participant(out, participant, shown.as_str())?;
    }
    Ok(())
}

/// Appends the citations of a record, by number, each after the word for its source.
pub(crate) fn push_citations_of(
    out: &mut String,
    state: &State,
    index: &Index,
    word: &str,
    owner: u32,
) -> Result<(), AllocError>
    requires { IsArranged index.now }
    ensures { OnOk result (string_bytes out.new ≡ string_bytes out.old
        ++ texts.citations_text (indexed state.now.records index.now) word.now owner) }
{
    push_citations(out, state, word, index.citations_of(owner))
}

fn push_citations(
    out: &mut String,
    state: &State,
    word: &str,
    citations: &[Owned],
) -> Result<(), AllocError>
    ensures { OnOk result (string_bytes out.new ≡ string_bytes out.old ++ flat_map
        (λ (o : owned.Owned). texts.citation_in word.now (map.get state.now.records o.number)) citations.now) }
{
    'citations: for citation in citations {
        push_citation_at(out, state, word, citation.number)?;
    }
    Ok(())
}

fn push_citation_at(
    out: &mut String,
    state: &State,
    word: &str,
    number: u32,
) -> Result<(), AllocError>
    ensures { OnOk result (string_bytes out.new ≡ string_bytes out.old
        ++ texts.citation_in word.now (map.get state.now.records number)) }
{
    match state.record(number) {
        Some(Record::Citation(citation)) => push_citation(out, word, citation),
        _ => Ok(()),
    }
}
