//! The text of what a record owns: its events and its citations.

ghost use Rattle.std.specs.Prelude.{◌≡◌, ◌++◌, ◌≤◌, OnOk, Some, option_copied, string_bytes};
ghost use Rattle.std.specs.FinMap as maps;
ghost use Rattle.record_kinds.specs.declared.record.Record.TheVariants as kind;
ghost use Rattle.record_shapes.specs.Shapes.{citation_lines, events_below};
ghost use Rattle.node_writing.specs.Pages.{page};
ghost use Rattle.gedcom_export.specs.Index.{IsArranged};
ghost use Rattle.gedcom_export.specs.Shown.{around_in, names_in};
ghost use Rattle.gedcom_export.specs.Pieces.{alone, events_at, those_at, with_citations};

use crate::index::Index;
use crate::index_owned::Owned;
use archive_state::State;
use node_writing::{push_carried, push_citation, push_event};
use record_kinds::{Event, Record};
use std::alloc::{AllocError, Global};

/// Appends events, each with its citations.
pub(crate) fn push_events(
    alloc: Global,
    state: &State,
    index: &Index,
    text: &mut String,
    events: &[Owned],
) -> Result<(), AllocError>
    requires { IsArranged index.now }
    ensures { OnOk result (string_bytes text.new ≡ string_bytes text.old ++ page (names_in index.now) 1
        (events_below (around_in index.now) (events_at state.now.records index.now events.now))) }
{
    'events: for event in events {
        push_event_at(alloc, state, index, text, event.number)?;
    }
    Ok(())
}

/// Appends the event of a number, with its citations.
fn push_event_at(
    alloc: Global,
    state: &State,
    index: &Index,
    text: &mut String,
    number: u32,
) -> Result<(), AllocError>
    requires { IsArranged index.now }
    ensures { OnOk result (string_bytes text.new ≡ string_bytes text.old ++ page (names_in index.now) 1
        (events_below (around_in index.now)
        (with_citations state.now.records index.now number (maps.get state.now.records number)))) }
{
    push_found_event(alloc, state, index, text, number, state.record(number))
}

#[tactic(auto, using(crate::proofs::Nothing::no_lines))]
fn push_found_event(
    alloc: Global,
    state: &State,
    index: &Index,
    text: &mut String,
    number: u32,
    found: Option<&Record>,
) -> Result<(), AllocError>
    requires { IsArranged index.now }
    ensures { OnOk result (string_bytes text.new ≡ string_bytes text.old ++ page (names_in index.now) 1
        (events_below (around_in index.now)
        (with_citations state.now.records index.now number (option_copied found.entry)))) }
{
    match found {
        Some(record) => push_if_event(alloc, state, index, text, number, record),
        None => Ok(()),
    }
}

#[tactic(auto, using(crate::proofs::Nothing::no_lines))]
fn push_if_event(
    alloc: Global,
    state: &State,
    index: &Index,
    text: &mut String,
    number: u32,
    record: &Record,
) -> Result<(), AllocError>
    requires { IsArranged index.now }
    ensures { OnOk result (string_bytes text.new ≡ string_bytes text.old ++ page (names_in index.now) 1
        (events_below (around_in index.now) (with_citations state.now.records index.now number (Some «record».now)))) }
{
    match record {
        Record::Event(event) => push_whole_event(alloc, state, index, text, number, event),
        _ => Ok(()),
    }
}

/// Appends an event, its citations, and what is carried.
fn push_whole_event(
    alloc: Global,
    state: &State,
    index: &Index,
    text: &mut String,
    number: u32,
    event: &Event,
) -> Result<(), AllocError>
    requires { IsArranged index.now }
    ensures { OnOk result (string_bytes text.new ≡ string_bytes text.old ++ page (names_in index.now) 1
        (events_below (around_in index.now)
        (with_citations state.now.records index.now number (Some (kind.Event event.now))))) }
{
    push_event(alloc, text, index, event)?;
    push_citations(alloc, state, index, text, 2, index.citations_of(number))?;
    push_carried(alloc, text, index, 2, &event.carried)?;
    Ok(())
}

/// Appends citations, each with its line at that level.
pub(crate) fn push_citations(
    alloc: Global,
    state: &State,
    index: &Index,
    text: &mut String,
    level: u8,
    citations: &[Owned],
) -> Result<(), AllocError>
    requires { level ≤ 2 }
    ensures { OnOk result (string_bytes text.new ≡ string_bytes text.old ++ page (names_in index.now) level
        (citation_lines (those_at state.now.records citations.now))) }
{
    'citations: for citation in citations {
        push_citation_at(alloc, state, index, text, level, citation.number)?;
    }
    Ok(())
}

/// Appends the citation of a number.
fn push_citation_at(
    alloc: Global,
    state: &State,
    index: &Index,
    text: &mut String,
    level: u8,
    number: u32,
) -> Result<(), AllocError>
    requires { level ≤ 2 }
    ensures { OnOk result (string_bytes text.new ≡ string_bytes text.old ++ page (names_in index.now) level
        (citation_lines (alone (maps.get state.now.records number)))) }
{
    push_found_citation(alloc, index, text, level, state.record(number))
}

#[tactic(auto, using(crate::proofs::Nothing::no_lines))]
fn push_found_citation(
    alloc: Global,
    index: &Index,
    text: &mut String,
    level: u8,
    found: Option<&Record>,
) -> Result<(), AllocError>
    requires { level ≤ 2 }
    ensures { OnOk result (string_bytes text.new ≡ string_bytes text.old
        ++ page (names_in index.now) level (citation_lines (alone (option_copied found.entry)))) }
{
    match found {
        Some(record) => push_if_citation(alloc, index, text, level, record),
        None => Ok(()),
    }
}

#[tactic(auto, using(crate::proofs::Nothing::no_lines))]
fn push_if_citation(
    alloc: Global,
    index: &Index,
    text: &mut String,
    level: u8,
    record: &Record,
) -> Result<(), AllocError>
    requires { level ≤ 2 }
    ensures { OnOk result (string_bytes text.new ≡ string_bytes text.old
        ++ page (names_in index.now) level (citation_lines (alone (Some «record».now)))) }
{
    match record {
        Record::Citation(citation) => push_citation(alloc, text, index, level, citation),
        _ => Ok(()),
    }
}
