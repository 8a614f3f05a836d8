//! The commands on events.

ghost use Rattle.std.specs.Prelude.{◌≡◌, ◌↔◌, [], IfOk, IsTrue, false, option_map};
ghost use Rattle.archive_state.specs.Looks.{CountsFailures};
ghost use Rattle.archive_state.specs.Views.{On};
ghost use Rattle.record_kinds.specs.Model as model;
ghost use Rattle.command_checks.specs.Applied.{Plans};
ghost use Rattle.command_checks.specs.Checks as checks;
ghost use Rattle.command_checks.specs.Exact.{IsExact};
ghost use Rattle.archive_steps.specs.Steps as steps;

use crate::families::check_person;
use crate::making::{creates, kept_if, replaces, unchanged};
use archive_state::{Changes, View};
use command_checks::{check_place, date_in, event_at, tag_of, text_in};
use commands::{Field, GivenDate};
use record_fields::Date;
use record_kinds::{Event, EventPlace, Participant, Record};
use record_text::{RefusalKind, Tag, Text};
use std::alloc::{AllocError, Global};

/// A new event of a person or a family.
pub(crate) fn new_event<V: View>(
    alloc: Global,
    view: &mut V,
    owner: u32,
    tag: &Field,
    value: &Field,
    date: &Option<GivenDate>,
    place: Option<u32>,
) -> Result<Changes, RefusalKind>
    ensures decides { On V.View view.old view.new
        (λ c. Plans c result (steps.new_event c owner tag.now value.now date.now place)) }
    ensures exact { On V.View view.old view.new (λ c. IfOk result (IsExact c)) }
    ensures counts { CountsFailures (V.failed view.old) (V.failed view.new) result }
{
    let tag = text_in(alloc, tag)?;
    let value = text_in(alloc, value)?;
    let date = date_in(alloc, date)?;
    let tag = tag_of(alloc, view, owner, place, tag.as_str())?;
    let event = plain_event(alloc, owner, tag, value, date, place);
    creates(alloc, view, Record::Event(event))
}

/// Another value, date or place of an event.
#[tactic(auto, using(crate::proofs::Exactness::same_event))]
pub(crate) fn amend_event<V: View>(
    alloc: Global,
    view: &mut V,
    number: u32,
    value: &Field,
    date: &Option<GivenDate>,
    place: Option<u32>,
) -> Result<Changes, RefusalKind>
    ensures decides { On V.View view.old view.new
        (λ c. Plans c result (steps.amend_event c number value.now date.now place)) }
    ensures exact { On V.View view.old view.new (λ c. IfOk result (IsExact c)) }
    ensures counts { CountsFailures (V.failed view.old) (V.failed view.new) result }
{
    let value = text_in(alloc, value)?;
    let date = date_in(alloc, date)?;
    let event = event_at(alloc, view, number)?;
    let event = kept_if(event, check_place(alloc, view, place))?;
    if has_fields(&event, &value, &date, place) {
        drop(event);
        return unchanged(alloc, view);
    }
    let event = with_fields(alloc, event, value, date, place);
    replaces(alloc, view, number, Record::Event(event))
}

/// A further participant of an event.

pub(crate) fn add_participant<V: View>(
    alloc: Global,
    view: &mut V,
    number: u32,
    person: u32,
    role: &Field,
) -> Result<Changes, RefusalKind>
    ensures decides { On V.View view.old view.new
        (λ c. Plans c result (steps.add_participant c number person role.now)) }
    ensures exact { On V.View view.old view.new (λ c. IfOk result (IsExact c)) }
    ensures counts { CountsFailures (V.failed view.old) (V.failed view.new) result }
{
    let role = text_in(alloc, role)?;
    let event = event_at(alloc, view, number)?;
    let event = kept_if(event, check_person(alloc, view, person))?;
    let event = with_participant(alloc, event, person, role)?;
    replaces(alloc, view, number, Record::Event(event))
}

fn plain_event(
    alloc: Global,
    owner: u32,
    tag: Tag,
    value: Text,
    date: Option<Date>,
    place: Option<u32>,
) -> Event
    ensures { result ≡ record {
      owner = owner;
      tag = tag;
      value = value;
      date = date;
      place = option_map steps.plain_place place;
      participants = [];
      carried = [];
    } }
{
    Event {
        owner,
        tag,
        value,
        date,
        place: plain_place(alloc, place),
        participants: Vec::new(alloc),
        carried: Vec::new(alloc),
    }
}

fn plain_place(alloc: Global, place: Option<u32>) -> Option<EventPlace>
    ensures { result ≡ option_map steps.plain_place place }
{
    match place {
        Some(place) => Some(EventPlace {
            place,
            carried: Vec::new(alloc),
        }),
        None => None,
    }
}

/// Whether the event has the fields that are given already.
fn has_fields(event: &Event, value: &Text, date: &Option<Date>, place: Option<u32>) -> bool
    ensures { IsTrue result ↔ (steps.with_fields value.now date.now place event.now ≡ event.now) }
{
    has_value(value, &event.value) && has_date(date, &event.date) && has_place(place, &event.place)
}

/// Whether no value is given, or the one that is there.
fn has_value(value: &Text, old: &Text) -> bool
    ensures { IsTrue result ↔ (steps.or_kept_text value.now old.now ≡ old.now) }
{
    value.as_str().is_empty() || value.as_str() == old.as_str()
}

/// Whether no date is given, or the one that is there.
fn has_date(date: &Option<Date>, old: &Option<Date>) -> bool
    ensures { IsTrue result ↔ (steps.or_kept_date date.now old.now ≡ old.now) }
{
    match (date, old) {
        (None, _) => true,
        (Some(date), Some(old)) => date.as_str() == old.as_str(),
        (Some(_), None) => false,
    }
}

/// Whether no place is given, or the one that is there.
fn has_place(place: Option<u32>, old: &Option<EventPlace>) -> bool
    ensures { IsTrue result ↔ (steps.or_kept_place place old.now ≡ old.now) }
{
    match (place, old) {
        (None, _) => true,
        (Some(place), Some(old)) => place == old.place,
        (Some(_), None) => false,
    }
}

/// The event with the fields that are given; the others stay.
fn with_fields(
    alloc: Global,
    event: Event,
    value: Text,
    date: Option<Date>,
    place: Option<u32>,
) -> Event
    ensures { result ≡ steps.with_fields value date place event }
{
    let mut event = event;
    if !value.as_str().is_empty() {
        event.value = value;
    }
    if let Some(date) = date {
        event.date = Some(date);
    }
    let old = event.place.take();
    event.place = or_kept_place(alloc, place, old);
    event
}

/// The place that is given, with the carried lines of the one before; or the one before.
fn or_kept_place(alloc: Global, place: Option<u32>, old: Option<EventPlace>) -> Option<EventPlace>
    ensures { result ≡ steps.or_kept_place place old }
{
    match (place, old) {
        (None, old) => old,
        (Some(place), None) => plain_place(alloc, Some(place)),
        (Some(place), Some(old)) => Some(at_place(old, place)),
    }
}

/// Another place, with the same carried lines.
fn at_place(old: EventPlace, place: u32) -> EventPlace
    ensures { result ≡ record old { place = place } }
{
    let mut at = old;
    at.place = place;
    at
}

/// Adds a participant after the others.
fn with_participant(
    alloc: Global,
    event: Event,
    person: u32,
    role: Text,
) -> Result<Event, AllocError>
    ensures { IfOk result (λ e. e ≡ steps.with_participant person role event) }
{
    let mut event = event;
    let added = event.participants.push(Participant {
        person,
        role,
        carried: Vec::new(alloc),
    });
    Ok(kept_if(event, added)?)
}
