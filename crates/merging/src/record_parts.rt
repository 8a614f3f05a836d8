//! A record of whatever kind with its numbers changed.

ghost use Rattle.archive_state.specs.Merging as merging;

use crate::redirecting::Renamed;
use record_kinds::Record;
use std::alloc::{AllocError, Global};

impl Renamed for Record {
    ghost with = { merging.record_with };

    fn renamed(&self, alloc: Global, keep: u32, gone: u32) -> Result<Record, AllocError> {
        match self {
            Record::Place(place) => Ok(Record::Place(place.renamed(alloc, keep, gone)?)),
            Record::Repo(repo) => Ok(Record::Repo(repo.renamed(alloc, keep, gone)?)),
            Record::Source(source) => Ok(Record::Source(source.renamed(alloc, keep, gone)?)),
            Record::Person(person) => Ok(Record::Person(person.renamed(alloc, keep, gone)?)),
            Record::Family(family) => Ok(Record::Family(family.renamed(alloc, keep, gone)?)),
            Record::Citation(citation) => {
                Ok(Record::Citation(citation.renamed(alloc, keep, gone)?))
            }
            Record::Event(event) => Ok(Record::Event(event.renamed(alloc, keep, gone)?)),
            Record::Entry(entry) => Ok(Record::Entry(entry.renamed(alloc, keep, gone)?)),
            Record::Other(other) => Ok(Record::Other(other.renamed(alloc, keep, gone)?)),
        }
    }
}
