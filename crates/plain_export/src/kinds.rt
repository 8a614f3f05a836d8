//! The records of the plain archive, kind by kind.

ghost use Rattle.std.specs.Prelude.{◌≡◌, IfErr, IfOk, Some};
ghost use Rattle.stored_lines.specs.Line.{Lines};
ghost use Rattle.record_kinds.specs.declared.record.Record.TheVariants as kind;
ghost use Rattle.record_shapes.specs.Shapes.{Around};
ghost use Rattle.gedcom_export.specs.Shown.{around_in};
ghost use Rattle.plain_export.specs.Fitting.{Fails, Fits, LinesFit};
ghost use Rattle.plain_export.specs.Plain as plain;

use crate::allowed::{pair, put_value, value_after};
use crate::kept::{is_ours, kept_lines, names_left_out};
use crate::lines::{line, put_line, text_of};
use crate::one_line::{maybe_one_line, words_in_line};
use crate::pages::{put_page, short_page};
use crate::parts::{kept_parts, plain_names};
use archive_state::State;
use gedcom_export::Index;
use node_writing::Named;
use record_fields::{Date, Sex};
use record_kinds::{
    Citation, Event, EventPlace, Family, Other, Partner, Person, Record, Repo, Source,
};
use record_text::{RefusalKind, Text};
use std::alloc::{AllocError, Global};
use stored_lines::{Carried, Value, copied};

/// A repository, with the carried lines that are kept.
pub(crate) fn plain_repo(alloc: Global, state: &State, repo: &Repo) -> Result<Repo, AllocError>
    ensures { IfOk result (λ r. r ≡ plain.plain_repo state.now.records repo.now) }
{
    Ok(Repo {
        name: maybe_one_line(alloc, &repo.name)?,
        carried: kept_lines(alloc, state, &repo.carried)?,
    })
}

/// A source, with the lines that are added.
pub(crate) fn plain_source(
    alloc: Global,
    state: &State,
    mut more: Vec<Carried>,
    source: &Source,
) -> Result<Source, AllocError>
    ensures { IfOk result (λ s. s ≡ plain.plain_source state.now.records more.items source.now) }
{
    let mut carried = kept_lines(alloc, state, &source.carried)?;
    carried.append(&mut more)?;
    Ok(Source {
        title: copied(alloc, &source.title)?,
        author: copied(alloc, &source.author)?,
        publisher: copied(alloc, &source.publisher)?,
        holdings: kept_parts(alloc, state, &source.holdings)?,
        carried,
    })
}

/// Whether a line has the tag of a sex.
pub(crate) fn is_sex(line: &Carried) -> bool
    ensures { result ≡ plain.is_sex line.now }
{
    line.tag.as_str() == "SEX"
}

/// The lines of a person who has a sex, without a second one.
fn without_second(alloc: Global, lines: &[Carried]) -> Result<Vec<Carried>, AllocError>
    ensures { IfOk result (λ made. made.items ≡ plain.without_second lines.now) }
{
    let mut made = Vec::new(alloc);
    'lines: for line in lines {
        if !is_sex(line) {
            made.push(line.copy(alloc)?)?;
        }
    }
    Ok(made)
}

/// The lines of a person, without a second sex.
fn without_sex(
    alloc: Global,
    sex: Option<Sex>,
    lines: Vec<Carried>,
) -> Result<Vec<Carried>, AllocError>
    ensures { IfOk result (λ made. made.items ≡ plain.without_sex sex lines.items) }
{
    match sex {
        None => Ok(lines),
        Some(_) => without_second(alloc, &lines),
    }
}

/// A person, with the lines that are added.
pub(crate) fn plain_person(
    alloc: Global,
    state: &State,
    mut more: Vec<Carried>,
    person: &Person,
) -> Result<Person, AllocError>
    ensures { IfOk result (λ p. p ≡ plain.plain_person state.now.records more.items person.now) }
{
    let kept = kept_lines(alloc, state, &person.carried)?;
    let mut carried = without_sex(alloc, person.sex, kept)?;
    carried.append(&mut more)?;
    Ok(Person {
        names: plain_names(alloc, state, &person.names)?,
        sex: person.sex,
        carried,
    })
}

/// The partners of a family, each with the carried lines that are kept.
fn plain_partners(
    alloc: Global,
    state: &State,
    partners: &[Partner],
) -> Result<Vec<Partner>, AllocError>
    ensures { IfOk result (λ made. made.items ≡ plain.plain_partners state.now.records partners.now) }
{
    let mut made = kept_parts(alloc, state, partners)?;
    pair(&mut made);
    Ok(made)
}

/// A family, with the carried lines that are kept.
pub(crate) fn plain_family(
    alloc: Global,
    state: &State,
    family: &Family,
) -> Result<Family, AllocError>
    ensures { IfOk result (λ f. f ≡ plain.plain_family state.now.records family.now) }
{
    Ok(Family {
        partners: plain_partners(alloc, state, &family.partners)?,
        children: kept_parts(alloc, state, &family.children)?,
        carried: kept_lines(alloc, state, &family.carried)?,
    })
}

/// A citation, with the carried lines that are kept.
pub(crate) fn plain_citation(
    alloc: Global,
    state: &State,
    citation: &Citation,
) -> Result<Citation, AllocError>
    ensures { IfOk result (λ c. c ≡ plain.plain_citation state.now.records citation.now) }
{
    let mut carried = Vec::new(alloc);
    put_page(alloc, &citation.page, &mut carried)?;
    carried.append(&mut kept_lines(alloc, state, &citation.carried)?)?;
    Ok(Citation {
        owner: citation.owner,
        source: citation.source,
        page: short_page(alloc, &citation.page)?,
        quality: citation.quality,
        carried,
    })
}

/// The line of the place of an event.
fn place_line(
    alloc: Global,
    state: &State,
    index: &Index,
    place: &EventPlace,
) -> Result<Carried, RefusalKind>
    ensures made { IfOk result (λ c. c ≡ plain.place_line state.now.records (around_in index.now) place.now) }
    ensures refused { IfErr result
        (λ e. Fails e (Fits (plain.place_line state.now.records (around_in index.now) place.now))) }
{
    let path = index.path(alloc, place.place)?;
    let path = words_in_line(alloc, path.as_str())?;
    let text = text_of(path)?;
    let below = kept_lines(alloc, state, &place.carried)?;
    line(alloc, "PLAC", Value::Text(text), below)
}

/// The line of the place of an event, where there is one.
fn place_lines(
    alloc: Global,
    state: &State,
    index: &Index,
    place: &Option<EventPlace>,
) -> Result<Vec<Carried>, RefusalKind>
    ensures made { IfOk result (λ made. made.items
        ≡ plain.place_lines state.now.records (around_in index.now) place.now) }
    ensures refused { IfErr result
        (λ e. Fails e (LinesFit (plain.place_lines state.now.records (around_in index.now) place.now))) }
{
    let mut made = Vec::new(alloc);
    if let Some(place) = place {
        put_line(&mut made, place_line(alloc, state, index, place)?)?;
    }
    Ok(made)
}

/// The lines of an event.
fn event_lines(
    alloc: Global,
    state: &State,
    index: &Index,
    mut more: Vec<Carried>,
    event: &Event,
) -> Result<Vec<Carried>, RefusalKind>
    ensures made { IfOk result (λ made. made.items
        ≡ plain.event_lines state.now.records (around_in index.now) more.items event.now) }
    ensures refused { IfErr result (λ e. Fails e
        (LinesFit (plain.place_lines state.now.records (around_in index.now) event.now.place))) }
{
    let mut made = place_lines(alloc, state, index, &event.place)?;
    put_value(alloc, event.tag.as_str(), &event.value, &mut made)?;
    let mut kept = kept_lines(alloc, state, &event.carried)?;
    made.append(&mut kept)?;
    made.append(&mut more)?;
    Ok(made)
}

/// An event, with the lines that are added.
pub(crate) fn plain_event(
    alloc: Global,
    state: &State,
    index: &Index,
    more: Vec<Carried>,
    event: &Event,
) -> Result<Event, RefusalKind>
    ensures made { IfOk result (λ e. e
        ≡ plain.plain_event state.now.records (around_in index.now) more.items event.now) }
    ensures refused { IfErr result (λ e. Fails e
        (LinesFit (plain.place_lines state.now.records (around_in index.now) event.now.place))) }
{
    Ok(Event {
        owner: event.owner,
        tag: event.tag.copy(alloc)?,
        value: value_after(alloc, event.tag.as_str(), &event.value)?,
        date: copied_date(alloc, &event.date)?,
        place: None,
        participants: Vec::new(alloc),
        carried: event_lines(alloc, state, index, more, event)?,
    })
}

/// The same date in memory of its own, where there is one.
fn copied_date(alloc: Global, date: &Option<Date>) -> Result<Option<Date>, AllocError>
    ensures { IfOk result (λ d. d ≡ date.now) }
{
    match date {
        None => Ok(None),
        Some(date) => Ok(Some(date.copy(alloc)?)),
    }
}

/// A value; an empty text in place of a pointer to what has no record.
fn plain_value(alloc: Global, state: &State, value: &Value) -> Result<Value, AllocError>
    ensures { IfOk result (λ v. v ≡ plain.plain_value state.now.records value.now) }
{
    if names_left_out(state, value) {
        Ok(Value::Text(Text::empty(alloc)))
    } else {
        value.copy(alloc)
    }
}

/// A record of no other kind, with the carried lines that are kept. `None`: it has a tag of our own.
pub(crate) fn other_at(
    alloc: Global,
    state: &State,
    other: &Other,
) -> Result<Option<Record>, AllocError>
    ensures { (a : Around) (more : Lines)
        → IfOk result (λ o. o ≡ plain.plain_at state.now.records a more (Some (kind.Other other.now))) }
{
    if is_ours(other.tag.as_str()) {
        return Ok(None);
    }
    Ok(Some(Record::Other(plain_other(alloc, state, other)?)))
}

fn plain_other(alloc: Global, state: &State, other: &Other) -> Result<Other, AllocError>
    ensures { IfOk result (λ o. o ≡ plain.plain_other state.now.records other.now) }
{
    Ok(Other {
        tag: other.tag.copy(alloc)?,
        value: plain_value(alloc, state, &other.value)?,
        carried: kept_lines(alloc, state, &other.carried)?,
    })
}
