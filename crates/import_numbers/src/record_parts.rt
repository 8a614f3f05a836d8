//! A record of whatever kind with numbers for positions.

ghost use Rattle.std.specs.Prelude.{◌≡◌, OnOk};
ghost use Rattle.archive_state.specs.Merging as merging;
ghost use Rattle.import_definitions.specs.Numbers.{number_at};

use crate::renumbering::Renumber;
use record_kinds::Record;
use std::alloc::{AllocError, Global};

/// Puts the number of each position in its place, also where it is the owner.
pub fn renumber(alloc: Global, found: &mut Record, numbers: &[u32]) -> Result<(), AllocError>
    ensures { OnOk result (found.new ≡ merging.record_with (number_at numbers.now) found.old) }
{
    match found {
        Record::Place(place) => place.renumber(alloc, numbers),
        Record::Repo(repo) => repo.renumber(alloc, numbers),
        Record::Source(source) => source.renumber(alloc, numbers),
        Record::Person(person) => person.renumber(alloc, numbers),
        Record::Family(family) => family.renumber(alloc, numbers),
        Record::Citation(citation) => citation.renumber(alloc, numbers),
        Record::Event(event) => event.renumber(alloc, numbers),
        Record::Entry(entry) => entry.renumber(alloc, numbers),
        Record::Other(other) => other.renumber(alloc, numbers),
    }
}
