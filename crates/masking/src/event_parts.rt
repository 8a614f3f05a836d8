//! Events and register entries as they are shown.

ghost use Rattle.std.specs.Prelude.{◌≡◌, IfOk, map, not};
ghost use Rattle.std.specs.List.{filter};
ghost use Rattle.std.specs.Ordering.{nat_cmp};
ghost use Rattle.std.specs.BTreeSet as set;
ghost use Rattle.record_kinds.specs.Model as model;
ghost use Rattle.masking.specs.Masking as masking;

use crate::parts::{Part, copied_date, shown_part, shown_parts};
use record_kinds::{Entry, Event, EventPlace, Link, Mention, Participant};
use std::alloc::{AllocError, Global};
use std::collections::BTreeSet;

impl Part for EventPlace {
    ghost shown = { masking.shown_event_place };

    fn shown(&self, alloc: Global) -> Result<EventPlace, AllocError> {
        Ok(EventPlace {
            place: self.place,
            carried: Vec::new(alloc),
        })
    }
}

impl Part for Participant {
    ghost shown = { masking.shown_participant };

    fn shown(&self, alloc: Global) -> Result<Participant, AllocError> {
        Ok(Participant {
            person: self.person,
            role: self.role.copy(alloc)?,
            carried: Vec::new(alloc),
        })
    }
}

/// What is shown of the participants of an event: those who are not living.
fn shown_participants(
    alloc: Global,
    living: &BTreeSet<u32>,
    participants: &[Participant],
) -> Result<Vec<Participant>, AllocError>
    ensures { IfOk result (λ made. made.items ≡ map masking.shown_participant
        (filter (λ (p : model.Participant). not (set.contains nat_cmp living.now p.person)) participants.now)) }
{
    let mut made = Vec::new(alloc);
    'participants: for participant in participants {
        if !living.contains(&participant.person) {
            made.push(participant.shown(alloc)?)?;
        }
    }
    Ok(made)
}

/// What is shown of an event that is not gone.
pub(crate) fn shown_event(
    alloc: Global,
    living: &BTreeSet<u32>,
    event: &Event,
) -> Result<Event, AllocError>
    ensures { IfOk result (λ e. e ≡ masking.shown_event (set.contains nat_cmp living.now) event.now) }
{
    Ok(Event {
        owner: event.owner,
        tag: event.tag.copy(alloc)?,
        value: event.value.copy(alloc)?,
        date: copied_date(alloc, &event.date)?,
        place: shown_part(alloc, &event.place)?,
        participants: shown_participants(alloc, living, &event.participants)?,
        carried: Vec::new(alloc),
    })
}

impl Part for Link {
    ghost shown = { λ l. l };

    fn shown(&self, alloc: Global) -> Result<Link, AllocError> {
        Ok(Link {
            person: self.person,
            reason: self.reason.copy(alloc)?,
        })
    }
}

impl Part for Mention {
    ghost shown = { λ m. m };

    fn shown(&self, alloc: Global) -> Result<Mention, AllocError> {
        Ok(Mention {
            role: self.role,
            name: self.name.copy(alloc)?,
            link: shown_part(alloc, &self.link)?,
        })
    }
}

impl Part for Entry {
    ghost shown = { λ e. e };

    fn shown(&self, alloc: Global) -> Result<Entry, AllocError> {
        Ok(Entry {
            source: self.source,
            kind: self.kind,
            page: self.page.copy(alloc)?,
            item: self.item,
            date: copied_date(alloc, &self.date)?,
            place: self.place,
            text: self.text.copy(alloc)?,
            mentions: shown_parts(alloc, &self.mentions)?,
        })
    }
}
