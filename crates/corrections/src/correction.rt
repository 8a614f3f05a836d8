//! Corrections of records of every kind.

ghost use Rattle.std.specs.Prelude.{◌≡◌, IfOk};
ghost use Rattle.corrections.specs.Corrections as corrections;
ghost use Rattle.corrections.specs.Fields as fields;

use crate::entries::entry_with;
use crate::events::event_with;
use crate::field::{Field, TextField};
use crate::persons::person_with;
use crate::places::{place_named, repo_named};
use crate::sources::{citation_with, source_with};
use record_fields::{Date, Item, Quality, Sex};
use record_kinds::Record;
use record_text::{RefusalKind, Tag, Text};
use std::alloc::{AllocError, Global};

/// A field with the value that is put in place of its own.
#[derive(Drop)]
pub enum Correction {
    /// `None`: the sex is taken away.
    Sex(Option<Sex>),
    /// A tag that the events of the owner may have: that is for the caller to judge.
    Tag(Tag),
    /// `None`: the date is taken away.
    Date(Option<Date>),
    /// The number of a place: that it is one is for the caller to judge. `None`: the place is taken away.
    Place(Option<u32>),
    /// The number of a repository: that it is one is for the caller to judge. `None`: it is taken away.
    Repository(Option<u32>),
    /// `None`: the quality is taken away.
    Quality(Option<Quality>),
    Item(Item),
    Text(TextField, Text),
}

impl Correction {
    /// The field that is corrected.
    pub fn field(&self) -> Field
        ensures { result ≡ fields.field_of self.now }
    {
        match self {
            Correction::Sex(_) => Field::Sex,
            Correction::Tag(_) => Field::Tag,
            Correction::Date(_) => Field::Date,
            Correction::Place(_) => Field::Place,
            Correction::Repository(_) => Field::Repository,
            Correction::Quality(_) => Field::Quality,
            Correction::Item(_) => Field::Item,
            Correction::Text(field, _) => Field::Text(*field),
        }
    }
}

/// The record with the value put in place of the field's. All else of it stays, carried lines too, but for those of a
/// place, a repository or a name that is taken away. Refused by what the record says itself: a field that it has not
/// (64); a name of a place that is empty or not normal, a repository taken away from its call number, a call number
/// without a repository (58); a word that is no role of the kind of entry (62).
pub fn corrected(
    alloc: Global,
    record: Record,
    correction: Correction,
) -> Result<Result<Record, RefusalKind>, AllocError>
    ensures { IfOk result (λ outcome. outcome ≡ corrections.corrected correction «record») }
{
    match record {
        Record::Person(person) => match person_with(person, correction) {
            Ok(person) => Ok(Ok(Record::Person(person))),
            Err(refused) => Ok(Err(refused)),
        },
        Record::Event(event) => match event_with(alloc, event, correction) {
            Ok(event) => Ok(Ok(Record::Event(event))),
            Err(refused) => Ok(Err(refused)),
        },
        Record::Place(place) => match place_named(alloc, place, correction)? {
            Ok(place) => Ok(Ok(Record::Place(place))),
            Err(refused) => Ok(Err(refused)),
        },
        Record::Repo(repo) => match repo_named(repo, correction) {
            Ok(repo) => Ok(Ok(Record::Repo(repo))),
            Err(refused) => Ok(Err(refused)),
        },
        Record::Source(source) => match source_with(alloc, source, correction)? {
            Ok(source) => Ok(Ok(Record::Source(source))),
            Err(refused) => Ok(Err(refused)),
        },
        Record::Citation(citation) => match citation_with(citation, correction) {
            Ok(citation) => Ok(Ok(Record::Citation(citation))),
            Err(refused) => Ok(Err(refused)),
        },
        Record::Entry(entry) => match entry_with(entry, correction) {
            Ok(entry) => Ok(Ok(Record::Entry(entry))),
            Err(refused) => Ok(Err(refused)),
        },
        Record::Family(_) | Record::Other(_) => Ok(Err(RefusalKind::NoSuchField)),
    }
}
