//! Events and register entries with numbers for positions.

ghost use Rattle.archive_state.specs.Merging as merging;

use crate::lines::renumber_lines;
use crate::renumbering::{Renumber, maybe_number, number_of, renumber_all, renumber_part};
use record_kinds::{Entry, Event, EventPlace, Link, Mention, Participant};
use std::alloc::{AllocError, Global};

impl Renumber for EventPlace {
    ghost with = { merging.event_place_with };

    fn renumber(&mut self, alloc: Global, numbers: &[u32]) -> Result<(), AllocError> {
        self.place = number_of(numbers, self.place);
        renumber_lines(alloc, &mut self.carried, numbers)?;
        Ok(())
    }
}

impl Renumber for Participant {
    ghost with = { merging.participant_with };

    fn renumber(&mut self, alloc: Global, numbers: &[u32]) -> Result<(), AllocError> {
        self.person = number_of(numbers, self.person);
        renumber_lines(alloc, &mut self.carried, numbers)?;
        Ok(())
    }
}

impl Renumber for Event {
    ghost with = { merging.event_with };

    fn renumber(&mut self, alloc: Global, numbers: &[u32]) -> Result<(), AllocError> {
        self.owner = number_of(numbers, self.owner);
        renumber_part(alloc, &mut self.place, numbers)?;
        renumber_all(alloc, &mut self.participants, numbers)?;
        renumber_lines(alloc, &mut self.carried, numbers)?;
        Ok(())
    }
}

impl Renumber for Link {
    ghost with = { merging.link_with };

    fn renumber(&mut self, alloc: Global, numbers: &[u32]) -> Result<(), AllocError> {
        self.person = number_of(numbers, self.person);
        Ok(())
    }
}

impl Renumber for Mention {
    ghost with = { merging.mention_with };

    fn renumber(&mut self, alloc: Global, numbers: &[u32]) -> Result<(), AllocError> {
        renumber_part(alloc, &mut self.link, numbers)?;
        Ok(())
    }
}

impl Renumber for Entry {
    ghost with = { merging.entry_with };

    fn renumber(&mut self, alloc: Global, numbers: &[u32]) -> Result<(), AllocError> {
        self.source = number_of(numbers, self.source);
        self.place = maybe_number(numbers, self.place);
        renumber_all(alloc, &mut self.mentions, numbers)?;
        Ok(())
    }
}
