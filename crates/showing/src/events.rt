//! The fields of events.

ghost use Rattle.std.specs.Prelude.{◌≡◌, ◌++◌, OnOk, Some, string_bytes};
ghost use Rattle.std.specs.List.{flat_map};
ghost use Rattle.showing.specs.Fields as fields;

use crate::fields::{push_below, push_date, push_number, push_text};
use record_kinds::{Event, EventPlace, Participant};
use std::alloc::{AllocError, Global};

pub(crate) fn push_event(alloc: Global, out: &mut String, event: &Event) -> Result<(), AllocError>
    ensures { OnOk result (string_bytes out.new ≡ string_bytes out.old ++ fields.event_fields event.now) }
{
    push_own(out, event)?;
    push_place(alloc, out, &event.place)?;
    push_participants(alloc, out, &event.participants)?;
    push_below(alloc, out, 2, &event.carried)
}

/// The owner, the tag, the value and the date.
fn push_own(out: &mut String, event: &Event) -> Result<(), AllocError>
    ensures { OnOk result (string_bytes out.new ≡ string_bytes out.old ++ fields.own_fields event.now) }
{
    push_number(out, "of", event.owner)?;
    push_text(out, "tag", event.tag.as_str())?;
    push_text(out, "value", event.value.as_str())?;
    push_date(out, &event.date)
}

fn push_place(alloc: Global, out: &mut String, place: &Option<EventPlace>) -> Result<(), AllocError>
    ensures { OnOk result (string_bytes out.new ≡ string_bytes out.old ++ fields.event_place_field place.now) }
{
    match place {
        None => Ok(()),
        Some(place) => push_place_lines(alloc, out, place),
    }
}

fn push_place_lines(alloc: Global, out: &mut String, place: &EventPlace) -> Result<(), AllocError>
    ensures { OnOk result (string_bytes out.new ≡ string_bytes out.old
        ++ fields.event_place_field (Some place.now)) }
{
    push_number(out, "place", place.place)?;
    push_below(alloc, out, 3, &place.carried)
}

fn push_participants(
    alloc: Global,
    out: &mut String,
    participants: &[Participant],
) -> Result<(), AllocError>
    ensures { OnOk result (string_bytes out.new ≡ string_bytes out.old
        ++ flat_map fields.participant_field participants.now) }
{
    'each: for participant in participants {
        push_participant(alloc, out, participant)?;
    }
    Ok(())
}

fn push_participant(
    alloc: Global,
    out: &mut String,
    participant: &Participant,
) -> Result<(), AllocError>
    ensures { OnOk result (string_bytes out.new ≡ string_bytes out.old ++ fields.participant_field participant.now) }
{
    push_number(out, "with", participant.person)?;
    push_text(out, "role", participant.role.as_str())?;
    push_below(alloc, out, 3, &participant.carried)
}
