//! Events as branches.

ghost use Rattle.std.specs.Prelude.{◌≡◌, ◌++◌, IfOk, OnOk, option_map};
ghost use Rattle.record_fields.specs.Dated.{date_text, date_from};
ghost use Rattle.stored_lines.specs.Levels.{AreShallow};
ghost use Rattle.records.specs.Shallow.{InPlaceLine, InParticipant, InEvent};
ghost use Rattle.records.specs.Stored.{participant_tree, event_tree, place_line, when_trees};
ghost use Rattle.records.specs.Reading.{
  shallow_lines,
  participant_from,
  event_from,
  event_place_from,
  text_from,
  first,
  under,
  tag_or_event,
  text_or_empty,
  text_at as text_of_first,
  rest,
};
ghost use Rattle.records.specs.declared.field.Field.TheVariants as field;

use crate::field::Field;
use crate::part::{Part, parts_at, push_parts};
use crate::reading::{children_of, first_under, lines_at, number_or_zero, text_at, text_or_none};
use crate::writing::{push_lines, push_text};
use record_fields::Date;
use record_kinds::{Event, EventPlace, Participant};
use record_text::{Tag, Text};
use std::alloc::{AllocError, Global};
use stored_lines::{Branch, Carried};

impl Part for Participant {
    ghost kept_as = { participant_tree };

    ghost read_of = { participant_from shallow_lines };

    ghost is_shallow = { InParticipant AreShallow };

    fn write(&self, alloc: Global) -> Result<Branch, AllocError> {
        let mut below = Vec::new(alloc);
        push_lines(alloc, &mut below, Field::Carried, &self.carried)?;
        let text = Some(self.role.copy(alloc)?);
        Field::Participant.branch(alloc, text, Some(self.person), below)
    }

    fn read(alloc: Global, branch: &Branch) -> Result<Participant, AllocError> {
        let parts = children_of(branch);
        Ok(Participant {
            person: number_or_zero(branch.target),
            role: text_or_none(alloc, &branch.text)?,
            carried: lines_at(alloc, parts, Field::Carried)?,
        })
    }
}

impl Part for Event {
    ghost kept_as = { event_tree };

    ghost read_of = { event_from shallow_lines };

    ghost is_shallow = { InEvent AreShallow };

    fn write(&self, alloc: Global) -> Result<Branch, AllocError> {
        let mut below = Vec::new(alloc);
        below.push(Branch {
            tag: self.tag.copy(alloc)?,
            text: Some(self.value.copy(alloc)?),
            target: None,
            children: Vec::new(alloc),
        })?;
        push_when(
            alloc,
            &mut below,
            date_words(alloc, &self.date)?,
            &self.place,
        )?;
        push_parts(alloc, &mut below, &self.participants)?;
        push_lines(alloc, &mut below, Field::Carried, &self.carried)?;
        Field::Event.branch(alloc, None, Some(self.owner), below)
    }

    fn read(alloc: Global, branch: &Branch) -> Result<Event, AllocError> {
        let parts = children_of(branch);
        let fields = after_first(parts);
        Ok(Event {
            owner: number_or_zero(branch.target),
            tag: first_tag(alloc, parts)?,
            value: first_text(alloc, parts)?,
            date: date_at(alloc, fields)?,
            place: place_at(alloc, fields)?,
            participants: parts_at(alloc, fields, Field::Participant)?,
            carried: lines_at(alloc, fields, Field::Carried)?,
        })
    }
}

/// Adds the line of a date and the place of an event, where there is one of them.
pub(crate) fn push_when(
    alloc: Global,
    below: &mut Vec<Branch>,
    date: Option<Text>,
    place: &Option<EventPlace>,
) -> Result<(), AllocError>
    ensures added { OnOk result (below.new.items ≡ below.old.items ++ when_trees date place.now) }
    ensures shallow { IfOk result (λ _. InPlaceLine AreShallow place.now) }
{
    let Some(place) = place else {
        return push_text(alloc, below, Field::Date, date);
    };
    below.push(line_of_place(alloc, date, place)?)?;
    Ok(())
}

/// The line of the place of an event, with the date where there is one.
fn line_of_place(
    alloc: Global,
    date: Option<Text>,
    place: &EventPlace,
) -> Result<Branch, AllocError>
    ensures kept { IfOk result (λ b. b ≡ place_line date place.now) }
    ensures shallow { IfOk result (λ _. AreShallow place.now.carried) }
{
    let mut below = Vec::new(alloc);
    push_lines(alloc, &mut below, Field::Carried, &place.carried)?;
    Field::Date.branch(alloc, date, Some(place.place), below)
}

/// The spelling of a date, where there is one.
pub(crate) fn date_words(alloc: Global, date: &Option<Date>) -> Result<Option<Text>, AllocError>
    ensures { IfOk result (λ t. t ≡ option_map date_text date.now) }
{
    match date {
        None => Ok(None),
        Some(date) => Ok(Some(date.text(alloc)?)),
    }
}

/// The date on the line of one. `None`: there is none in canonical spelling.
pub(crate) fn date_at(alloc: Global, branches: &[Branch]) -> Result<Option<Date>, AllocError>
    ensures { IfOk result (λ d. d ≡ date_from (text_from field.Date branches.now)) }
{
    match &text_at(alloc, branches, Field::Date)? {
        None => Ok(None),
        Some(text) => Date::of_text(alloc, text),
    }
}

/// The place on the line of a date.
pub(crate) fn place_at(alloc: Global, branches: &[Branch]) -> Result<Option<EventPlace>, AllocError>
    ensures { IfOk result (λ p. p ≡ event_place_from shallow_lines (first (under field.Date branches.now))) }
{
    let Some(line) = first_under(branches, Field::Date) else {
        return Ok(None);
    };
    let Some(place) = line.target else {
        return Ok(None);
    };
    let carried = lines_at(alloc, children_of(line), Field::Carried)?;
    Ok(Some(EventPlace { place, carried }))
}

/// The tag of the first line.
fn first_tag(alloc: Global, branches: &[Branch]) -> Result<Tag, AllocError>
    ensures { IfOk result (λ t. t ≡ tag_or_event (first branches.now)) }
{
    if branches.is_empty() {
        return Field::Event.tag(alloc);
    }
    let line = &branches[0];
    line.tag.copy(alloc)
}

/// The text of the first line, empty where there is none.
fn first_text(alloc: Global, branches: &[Branch]) -> Result<Text, AllocError>
    ensures { IfOk result (λ t. t ≡ text_or_empty (text_of_first (first branches.now))) }
{
    if branches.is_empty() {
        return Ok(Text::empty(alloc));
    }
    let line = &branches[0];
    text_or_none(alloc, &line.text)
}

/// The lines after the first one.
fn after_first(branches: &[Branch]) -> &[Branch]
    ensures { result.now ≡ rest branches.now }
{
    if branches.is_empty() {
        branches
    } else {
        &branches[1..]
    }
}
