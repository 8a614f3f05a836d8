//! Records as branches, each kind by its word.

ghost use Rattle.std.specs.Prelude.{◌≡◌, IfOk};
ghost use Rattle.records.specs.Shallow.{IsShallow};
ghost use Rattle.records.specs.Stored.{record_tree};
ghost use Rattle.records.specs.Reading.{shallow_lines, record_from};

use crate::field::Field;
use crate::part::Part;
use crate::reading::has_word;
use record_kinds::{Citation, Entry, Event, Family, Other, Person, Place, Record, Repo, Source};
use std::alloc::{AllocError, Global};
use stored_lines::Branch;

/// The branch of a record.
pub(crate) fn branch_of_record(alloc: Global, record: &Record) -> Result<Branch, AllocError>
    ensures kept { IfOk result (λ b. b ≡ record_tree «record».now) }
    ensures shallow { IfOk result (λ _. IsShallow «record».now) }
{
    match record {
        Record::Place(place) => place.write(alloc),
        Record::Repo(repo) => repo.write(alloc),
        Record::Source(source) => source.write(alloc),
        Record::Person(person) => person.write(alloc),
        Record::Family(family) => family.write(alloc),
        Record::Citation(citation) => citation.write(alloc),
        Record::Event(event) => event.write(alloc),
        Record::Entry(entry) => entry.write(alloc),
        Record::Other(other) => other.write(alloc),
    }
}

/// The record of a branch. `None`: its word is that of no kind. Of a branch that no record is kept as it
/// is what the fields say.
pub(crate) fn record_in(alloc: Global, branch: &Branch) -> Result<Option<Record>, AllocError>
    ensures { IfOk result (λ r. r ≡ record_from shallow_lines branch.now) }
{
    let found = if has_word(branch, Field::Place) {
        Record::Place(Place::read(alloc, branch)?)
    } else if has_word(branch, Field::Repo) {
        Record::Repo(Repo::read(alloc, branch)?)
    } else if has_word(branch, Field::Source) {
        Record::Source(Source::read(alloc, branch)?)
    } else if has_word(branch, Field::Person) {
        Record::Person(Person::read(alloc, branch)?)
    } else if has_word(branch, Field::Family) {
        Record::Family(Family::read(alloc, branch)?)
    } else if has_word(branch, Field::Citation) {
        Record::Citation(Citation::read(alloc, branch)?)
    } else if has_word(branch, Field::Event) {
        Record::Event(Event::read(alloc, branch)?)
    } else if has_word(branch, Field::Entry) {
        Record::Entry(Entry::read(alloc, branch)?)
    } else if has_word(branch, Field::Other) {
        Record::Other(Other::read(alloc, branch)?)
    } else {
        return Ok(None);
    };
    Ok(Some(found))
}
