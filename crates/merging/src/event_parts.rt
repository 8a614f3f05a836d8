//! Events and register entries with their numbers changed.

ghost use Rattle.std.specs.Prelude.{◌≡◌, IfOk};
ghost use Rattle.archive_state.specs.Merging as merging;

use crate::redirecting::{
    Renamed, lines_with, maybe_number, number_with, renamed_all, renamed_part,
};
use record_fields::Date;
use record_kinds::{Entry, Event, EventPlace, Link, Mention, Participant};
use std::alloc::{AllocError, Global};

impl Renamed for EventPlace {
    ghost with = { merging.event_place_with };

    fn renamed(&self, alloc: Global, keep: u32, gone: u32) -> Result<EventPlace, AllocError> {
        Ok(EventPlace {
            place: number_with(self.place, keep, gone),
            carried: lines_with(alloc, &self.carried, keep, gone)?,
        })
    }
}

impl Renamed for Participant {
    ghost with = { merging.participant_with };

    fn renamed(&self, alloc: Global, keep: u32, gone: u32) -> Result<Participant, AllocError> {
        Ok(Participant {
            person: number_with(self.person, keep, gone),
            role: self.role.copy(alloc)?,
            carried: lines_with(alloc, &self.carried, keep, gone)?,
        })
    }
}

impl Renamed for Event {
    ghost with = { merging.event_with };

    fn renamed(&self, alloc: Global, keep: u32, gone: u32) -> Result<Event, AllocError> {
        Ok(Event {
            owner: number_with(self.owner, keep, gone),
            tag: self.tag.copy(alloc)?,
            value: self.value.copy(alloc)?,
            date: copied_date(alloc, &self.date)?,
            place: renamed_part(alloc, &self.place, keep, gone)?,
            participants: renamed_all(alloc, &self.participants, keep, gone)?,
            carried: lines_with(alloc, &self.carried, keep, gone)?,
        })
    }
}

impl Renamed for Link {
    ghost with = { merging.link_with };

    fn renamed(&self, alloc: Global, keep: u32, gone: u32) -> Result<Link, AllocError> {
        Ok(Link {
            person: number_with(self.person, keep, gone),
            reason: self.reason.copy(alloc)?,
        })
    }
}

impl Renamed for Mention {
    ghost with = { merging.mention_with };

    fn renamed(&self, alloc: Global, keep: u32, gone: u32) -> Result<Mention, AllocError> {
        Ok(Mention {
            role: self.role,
            name: self.name.copy(alloc)?,
            link: renamed_part(alloc, &self.link, keep, gone)?,
        })
    }
}

impl Renamed for Entry {
    ghost with = { merging.entry_with };

    fn renamed(&self, alloc: Global, keep: u32, gone: u32) -> Result<Entry, AllocError> {
        Ok(Entry {
            source: number_with(self.source, keep, gone),
            kind: self.kind,
            page: self.page.copy(alloc)?,
            item: self.item,
            date: copied_date(alloc, &self.date)?,
            place: maybe_number(self.place, keep, gone),
            text: self.text.copy(alloc)?,
            mentions: renamed_all(alloc, &self.mentions, keep, gone)?,
        })
    }
}

/// The same date in memory of its own, where there is one.
fn copied_date(alloc: Global, date: &Option<Date>) -> Result<Option<Date>, AllocError>
    ensures { IfOk result (λ d. d ≡ date.now) }
{
    match date {
        None => Ok(None),
        Some(date) => Ok(Some(date.copy(alloc)?)),
    }
}
