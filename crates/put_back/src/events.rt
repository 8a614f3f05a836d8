//! What is put back of an event.

ghost use Rattle.std.specs.Prelude.{◌≡◌, ◌++◌, OnOk};
ghost use Rattle.std.specs.List.{flat_map, list_any};
ghost use Rattle.put_back.specs.Events as events;

use crate::row::{Row, date_cell, push_cells, put, put_number};
use record_kinds::{Event, EventPlace, Participant};
use std::alloc::{AllocError, Global};

pub(crate) fn push_event(
    alloc: Global,
    out: &mut Vec<Row>,
    number: u32,
    old: &Event,
    now: &Event,
) -> Result<(), AllocError>
    ensures { OnOk result (out.new.items ≡ out.old.items ++ events.event_back number old.now now.now) }
{
    push_own(alloc, out, number, old, now)?;
    push_participants(alloc, out, number, &old.participants, &now.participants)
}

/// The tag, the value, the date and the place.
fn push_own(
    alloc: Global,
    out: &mut Vec<Row>,
    number: u32,
    old: &Event,
    now: &Event,
) -> Result<(), AllocError>
    ensures { OnOk result (out.new.items ≡ out.old.items ++ events.own_back number old.now now.now) }
{
    put(
        alloc,
        out,
        number,
        "tag",
        old.tag.as_str(),
        now.tag.as_str(),
    )?;
    put(
        alloc,
        out,
        number,
        "value",
        old.value.as_str(),
        now.value.as_str(),
    )?;
    put(
        alloc,
        out,
        number,
        "date",
        date_cell(&old.date),
        date_cell(&now.date),
    )?;
    put_number(
        alloc,
        out,
        number,
        "place",
        place_of(&old.place),
        place_of(&now.place),
    )
}

fn place_of(place: &Option<EventPlace>) -> Option<u32>
    ensures { result ≡ events.place_of place.now }
{
    match place {
        None => None,
        Some(place) => Some(place.place),
    }
}

fn push_participants(
    alloc: Global,
    out: &mut Vec<Row>,
    number: u32,
    old: &[Participant],
    now: &[Participant],
) -> Result<(), AllocError>
    ensures { OnOk result (out.new.items
        ≡ out.old.items ++ flat_map (events.participant_back number now.now) old.now) }
{
    'each: for participant in old {
        push_participant(alloc, out, number, participant, now)?;
    }
    Ok(())
}

fn push_participant(
    alloc: Global,
    out: &mut Vec<Row>,
    number: u32,
    old: &Participant,
    now: &[Participant],
) -> Result<(), AllocError>
    ensures { OnOk result (out.new.items ≡ out.old.items ++ events.participant_back number now.now old.now) }
{
    if has_participant(now, old) {
        return Ok(());
    }
    let event = number.to_string(alloc)?;
    let person = old.person.to_string(alloc)?;
    push_cells(
        alloc,
        out,
        &[
            "participant",
            event.as_str(),
            person.as_str(),
            old.role.as_str(),
        ],
    )
}

fn has_participant(participants: &[Participant], wanted: &Participant) -> bool
    ensures { result ≡ list_any (events.is_same wanted.now) participants.now }
{
    participants.iter().any(|it| is_same(wanted, it))
}

fn is_same(one: &Participant, other: &Participant) -> bool
    ensures { result ≡ events.is_same one.now other.now }
{
    one.person == other.person && one.role.as_str() == other.role.as_str()
}
