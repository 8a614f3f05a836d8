//! The events and citations that a record owns, as items of lists.

ghost use Rattle.std.specs.Prelude.{◌≡◌, ◌++◌, ◌∷◌, [], IfOk, OnOk, Some, string_bytes};
ghost use Rattle.std.specs.FinMap as map;
ghost use Rattle.record_kinds.specs.declared.record.Record.TheVariants as kind;
ghost use Rattle.sheet_lines.specs.Lines.{event_line, role_words};
ghost use Rattle.sheets.specs.Gathered.{gathered};
ghost use Rattle.sheets.specs.Owned.{place_words};
ghost use Rattle.html_parts.specs.declared.part.Part.TheVariants as part;
ghost use Rattle.html_pages.specs.Items as items;
ghost use Rattle.html_pages.specs.Pages as pages;

use crate::label::Label;
use crate::library::HtmlLibrary;
use crate::links::{push_person_link, push_register_link};
use crate::listing::{Listing, push_items, push_section};
use html_parts::{Part, Parts, Words};
use html_text::Element;
use record_kinds::{Citation, Event, EventPlace, Participant, Record};
use sheet_lines::{push_citation, push_event_line, push_printed};
use std::alloc::{AllocError, Global};

/// Appends the events and citations of a record, each by number.
pub(crate) fn push_owned(
    alloc: Global,
    out: &mut Parts,
    library: &HtmlLibrary,
    owner: u32,
) -> Result<(), AllocError>
    ensures { OnOk result (out.new ≡ out.old ++ pages.owned_parts (gathered library.now.records) owner) }
{
    push_event_section(alloc, out, library, owner)?;
    push_citation_section(alloc, out, library, owner)
}

fn push_event_section(
    alloc: Global,
    out: &mut Parts,
    library: &HtmlLibrary,
    owner: u32,
) -> Result<(), AllocError>
    ensures { OnOk result (out.new ≡ out.old ++ pages.event_parts (gathered library.now.records) owner) }
{
    let numbers = library.events_of(alloc, owner)?;
    push_section(
        alloc,
        out,
        library,
        Label::Events.as_str(),
        &Events,
        &numbers,
    )
}

fn push_citation_section(
    alloc: Global,
    out: &mut Parts,
    library: &HtmlLibrary,
    owner: u32,
) -> Result<(), AllocError>
    ensures { OnOk result (out.new ≡ out.old ++ pages.citation_parts (gathered library.now.records) owner) }
{
    let numbers = library.citations_of(alloc, owner)?;
    push_section(
        alloc,
        out,
        library,
        Label::Sources.as_str(),
        &Citations,
        &numbers,
    )
}

/// Events by their numbers, and below each who took part, and its citations.
struct Events;

impl Listing<u32> for Events {
    ghost use Rattle.html_pages.specs.Items.{event_at};

    ghost parts = { λ s g. event_at g };

    fn push(
        &self,
        alloc: Global,
        out: &mut Parts,
        library: &HtmlLibrary,
        item: &u32,
    ) -> Result<(), AllocError> {
        match library.record(*item) {
            Some(Record::Event(event)) => push_event(alloc, out, library, *item, event),
            _ => Ok(()),
        }
    }
}

fn push_event(
    alloc: Global,
    out: &mut Parts,
    library: &HtmlLibrary,
    number: u32,
    event: &Event,
) -> Result<(), AllocError>
    ensures { OnOk result (out.new ≡ out.old
        ++ items.event_item (gathered library.now.records) number (Some (kind.Event event.now))) }
{
    out.start(Element::Li)?;
    push_line(alloc, out, library, event)?;
    out.start(Element::Ul)?;
    push_items(alloc, out, library, &Participants, &event.participants)?;
    push_citations(alloc, out, library, number)?;
    out.end(Element::Ul)?;
    out.end(Element::Li)
}

/// Appends the line of an event as a text.
fn push_line(
    alloc: Global,
    out: &mut Parts,
    library: &HtmlLibrary,
    event: &Event,
) -> Result<(), AllocError>
    ensures { OnOk result (out.new ≡ out.old ++ part.Words
        (event_line (place_words (gathered library.now.records).path event.now.place) event.now) ∷ []) }
{
    let path = path_of(alloc, library, &event.place)?;
    let mut text = String::new(alloc);
    push_event_line(&mut text, event, path.as_str())?;
    out.push(Part::Words(Words::new(text)))
}

/// The path of the place of an event; empty where there is none.
fn path_of(
    alloc: Global,
    library: &HtmlLibrary,
    place: &Option<EventPlace>,
) -> Result<String, AllocError>
    ensures { IfOk result
        (λ s. string_bytes s ≡ place_words (gathered library.now.records).path place.now) }
{
    match place {
        Some(place) => library.path(alloc, place.place),
        None => Ok(String::new(alloc)),
    }
}

/// Those who took part in an event.
struct Participants;

impl Listing<Participant> for Participants {
    ghost use Rattle.html_pages.specs.Items.{participant_item};

    ghost parts = { λ s g. participant_item g.at };

    fn push(
        &self,
        alloc: Global,
        out: &mut Parts,
        library: &HtmlLibrary,
        item: &Participant,
    ) -> Result<(), AllocError> {
        out.start(Element::Li)?;
        push_person_link(alloc, out, library, item.person)?;
        let role = in_brackets(alloc, item.role.as_str())?;
        out.push(Part::Words(Words::new(role)))?;
        out.end(Element::Li)
    }
}

/// A text in brackets; empty where it is empty.
pub fn in_brackets(alloc: Global, of: &str) -> Result<String, AllocError>
    ensures { IfOk result (λ s. string_bytes s ≡ role_words of.now) }
{
    let mut text = String::new(alloc);
    if of.is_empty() {
        return Ok(text);
    }
    text.push_str(" (")?;
    push_printed(&mut text, of)?;
    text.push_str(")")?;
    Ok(text)
}

/// Appends the citations of a record, by number.
fn push_citations(
    alloc: Global,
    out: &mut Parts,
    library: &HtmlLibrary,
    owner: u32,
) -> Result<(), AllocError>
    ensures { OnOk result (out.new ≡ out.old ++ items.citation_items (gathered library.now.records) owner) }
{
    let numbers = library.citations_of(alloc, owner)?;
    push_items(alloc, out, library, &Citations, &numbers)
}

/// Citations by their numbers.
struct Citations;

impl Listing<u32> for Citations {
    ghost use Rattle.html_pages.specs.Items.{citation_at};

    ghost parts = { λ s g. citation_at g };

    fn push(
        &self,
        alloc: Global,
        out: &mut Parts,
        library: &HtmlLibrary,
        item: &u32,
    ) -> Result<(), AllocError> {
        match library.record(*item) {
            Some(Record::Citation(citation)) => push_source(alloc, out, library, citation),
            _ => Ok(()),
        }
    }
}

fn push_source(
    alloc: Global,
    out: &mut Parts,
    library: &HtmlLibrary,
    citation: &Citation,
) -> Result<(), AllocError>
    ensures { OnOk result (out.new ≡ out.old
        ++ items.citation_item (map.get library.now.records) (Some (kind.Citation citation.now))) }
{
    let mut text = String::new(alloc);
    push_citation(&mut text, "Source ", citation)?;
    out.start(Element::Li)?;
    push_register_link(alloc, out, library, citation.source, text.as_str())?;
    out.end(Element::Li)
}
