//! Events with what they own.

ghost use Rattle.std.specs.Prelude.{◌≡◌, ◌∷◌, IfOk, false, string_bytes};
ghost use Rattle.stored_lines.specs.Line.{Lines};
ghost use Rattle.record_shapes.specs.Forms.{Known as KnownOf, text_of as text_on};
ghost use Rattle.record_shapes.specs.Fields as fields;
ghost use Rattle.record_shapes.specs.Paths as paths;
ghost use Rattle.record_shapes.specs.Reading as reading;
ghost use Rattle.node_reading.specs.Drafts as drafts;

use crate::dates::date_of;
use crate::fields::{is_first, is_same};
use crate::located::locate;
use crate::participants::participant_of;
use crate::sources::citation_of;
use field_rows::{EventRow, Known, event_row, into_below, into_text, take_apart};
use record_kinds::{Citation, Event, EventPlace, Participant};
use record_shapes::Field;
use record_text::{Tag, Text};
use std::alloc::{AllocError, Global};
use stored_lines::Carried;

/// What an event owns, or what is to be made for it.
#[derive(Drop)]
pub enum EventPart {
    Citation(Citation),
    /// The place of the event is to be found by this path, or made.
    Sought(String),
}

/// An event with what it owns, in the order of its lines. The owners are for the caller, and where a part is a path
/// that is sought, the number of the place too, which is 0 till then.
#[derive(Drop)]
pub struct EventDraft {
    pub event: Event,
    pub parts: Vec<EventPart>,
}

/// What lines of an event tell.
#[derive(Drop)]
pub(crate) struct EventLines {
    pub(crate) date: Option<Text>,
    pub(crate) place: Option<EventPlace>,
    pub(crate) participants: Vec<Participant>,
    pub(crate) carried: Vec<Carried>,
    pub(crate) parts: Vec<EventPart>,
}

/// The event of a line.
pub(crate) fn event_of<K: Known>(
    alloc: Global,
    known: &K,
    line: Carried,
) -> Result<EventDraft, AllocError>
    ensures { IfOk result (λ d. drafts.event_tree d ≡ reading.event_draft (K.known known.now) line) }
{
    let line = take_apart(alloc, line);
    let told = event_lines(alloc, known, line.below)?;
    finished(alloc, line.tag, line.text, told)
}

/// The event of its tag, its text and what its lines tell.
fn finished(alloc: Global, tag: Tag, text: Text, told: EventLines) -> Result<EventDraft, AllocError>
    ensures { IfOk result (λ d. drafts.event_tree d ≡ drafts.told_tree tag text (drafts.seen told)) }
{
    let EventLines {
        date,
        place,
        participants,
        carried,
        parts,
    } = told;
    Ok(EventDraft {
        event: Event {
            owner: 0,
            tag,
            value: text,
            date: date_of(alloc, date)?,
            place,
            participants,
            carried,
        },
        parts,
    })
}

/// What the lines of an event tell.
fn event_lines<K: Known>(
    alloc: Global,
    known: &K,
    lines: Vec<Carried>,
) -> Result<EventLines, AllocError>
    ensures { IfOk result (λ e. drafts.seen e ≡ drafts.event_with (K.known known.now) drafts.none_seen lines.items) }
{
    let mut told = EventLines {
        date: None,
        place: None,
        participants: Vec::new(alloc),
        carried: Vec::new(alloc),
        parts: Vec::new(alloc),
    };
    'lines: for line in lines {
        match event_row(alloc, known, &line)? {
            EventRow::Place(path) => take_place(alloc, known, &mut told, path, line)?,
            EventRow::Line(field) => take_line(alloc, &mut told, field, line)?,
        }
    }
    Ok(told)
}

/// Takes a line that is not that of a place.
fn take_line(
    alloc: Global,
    told: &mut EventLines,
    field: Field,
    line: Carried,
) -> Result<(), AllocError>
    ensures { IfOk result (λ _. (known : KnownOf) (ts : Lines) → field ≡ fields.event_field known line
        → fields.is_same field fields.a_place ≡ false
        → drafts.event_with known (drafts.seen told.new) ts
        ≡ drafts.event_with known (drafts.seen told.old) (line ∷ ts)) }
{
    if is_first(field, Field::Date, &told.date) {
        told.date = Some(into_text(alloc, line));
        return Ok(());
    }
    if is_same(field, Field::Participant) {
        told.participants.push(participant_of(alloc, line)?)?;
        return Ok(());
    }
    if is_same(field, Field::Citation) {
        told.parts
            .push(EventPart::Citation(citation_of(alloc, line)?))?;
        return Ok(());
    }
    told.carried.push(line)?;
    Ok(())
}

/// Takes the line of a place with that path.
fn take_place<K: Known>(
    alloc: Global,
    known: &K,
    told: &mut EventLines,
    path: String,
    line: Carried,
) -> Result<(), AllocError>
    ensures { IfOk result (λ _. (ts : Lines) → fields.event_field (K.known known.now) line ≡ fields.a_place
        → string_bytes path ≡ paths.normal (text_on line)
        → drafts.event_with (K.known known.now) (drafts.seen told.new) ts
        ≡ drafts.event_with (K.known known.now) (drafts.seen told.old) (line ∷ ts)) }
{
    if told.place.is_some() {
        told.carried.push(line)?;
        return Ok(());
    }
    let located = locate(alloc, known, path.as_str(), into_below(line))?;
    match located.number {
        Some(number) => told.place = Some(EventPlace {
            place: number,
            carried: located.carried,
        }),
        None => {
            told.place = Some(EventPlace {
                place: 0,
                carried: located.carried,
            });
            told.parts.push(EventPart::Sought(path))?;
        }
    }
    Ok(())
}
