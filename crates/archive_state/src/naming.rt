//! Whether a record names a number: all its fields and all its carried lines are looked at.

ghost use Rattle.std.specs.Prelude.{◌≡◌, List};
ghost use Rattle.std.specs.List.{flat_map};
ghost use Rattle.archive_state.specs.Links.{
  Link,
  is_among,
  value_links,
  place_line_links,
  line_links,
  links,
  place_links,
  repo_links,
  holding_links,
  source_links,
  name_links,
  person_links,
  partner_links,
  child_links,
  family_links,
  citation_links,
  event_place_links,
  participant_links,
  event_links,
  mention_links,
  entry_links,
  other_links,
};

use record_kinds::{
    Child, Citation, Entry, Event, EventPlace, Family, Holding, Mention, Name, Other, Participant,
    Partner, Person, Place, Record, Repo, Source,
};
use stored_lines::{Carried, Value};

/// Whether the number stands in the record, in a field or on a carried line.
pub fn is_naming(record: &Record, number: u32) -> bool
    ensures { result ≡ is_among number (links «record».now) }
{
    match record {
        Record::Place(place) => place.names(number),
        Record::Repo(repo) => repo.names(number),
        Record::Source(source) => source.names(number),
        Record::Person(person) => person.names(number),
        Record::Family(family) => family.names(number),
        Record::Citation(citation) => citation.names(number),
        Record::Event(event) => event.names(number),
        Record::Entry(entry) => entry.names(number),
        Record::Other(other) => other.names(number),
    }
}

/// What has numbers in it.
trait Linked: Drop {
    ghost links_of: { Self → List Link };

    /// Whether it has the number.
    fn names(&self, number: u32) -> bool
        ensures { result ≡ is_among number (links_of self.now) };
}

/// Whether one of them has the number.
fn one_names<T: Linked>(items: &[T], number: u32) -> bool
    ensures { result ≡ is_among number (flat_map T.links_of items.now) }
{
    'items: for item in items {
        if item.names(number) {
            return true;
        }
    }
    false
}

/// Whether the number stands on the line or on one below it.
#[tactic(auto, using(crate::proofs::LinkLinks::forest_flat, crate::proofs::LinkLinks::among_both))]
fn line_names(line: &Carried, number: u32) -> bool
    ensures { result ≡ is_among number (line_links line.now) }
{
    if let Value::Ref(target) = line.value {
        if target == number {
            return true;
        }
    }
    'children: for child in &line.children {
        if line_names(child, number) {
            return true;
        }
    }
    false
}

impl Linked for Carried {
    ghost links_of = { line_links };

    fn names(&self, number: u32) -> bool {
        line_names(self, number)
    }
}

impl Linked for Place {
    ghost links_of = { place_links };

    fn names(&self, number: u32) -> bool {
        self.parent == Some(number) || one_names(&self.carried, number)
    }
}

impl Linked for Repo {
    ghost links_of = { repo_links };

    fn names(&self, number: u32) -> bool {
        one_names(&self.carried, number)
    }
}

impl Linked for Holding {
    ghost links_of = { holding_links };

    fn names(&self, number: u32) -> bool {
        self.repo == number || one_names(&self.carried, number)
    }
}

impl Linked for Source {
    ghost links_of = { source_links };

    fn names(&self, number: u32) -> bool {
        one_names(&self.holdings, number) || one_names(&self.carried, number)
    }
}

impl Linked for Name {
    ghost links_of = { name_links };

    fn names(&self, number: u32) -> bool {
        one_names(&self.carried, number)
    }
}

impl Linked for Person {
    ghost links_of = { person_links };

    fn names(&self, number: u32) -> bool {
        one_names(&self.names, number) || one_names(&self.carried, number)
    }
}

impl Linked for Partner {
    ghost links_of = { partner_links };

    fn names(&self, number: u32) -> bool {
        self.person == number
            || one_names(&self.carried, number)
            || one_names(&self.carried_by_person, number)
    }
}

impl Linked for Child {
    ghost links_of = { child_links };

    fn names(&self, number: u32) -> bool {
        self.person == number
            || one_names(&self.carried, number)
            || one_names(&self.carried_by_person, number)
    }
}

impl Linked for Family {
    ghost links_of = { family_links };

    fn names(&self, number: u32) -> bool {
        one_names(&self.partners, number)
            || one_names(&self.children, number)
            || one_names(&self.carried, number)
    }
}

impl Linked for Citation {
    ghost links_of = { citation_links };

    fn names(&self, number: u32) -> bool {
        self.owner == number || self.source == number || one_names(&self.carried, number)
    }
}

impl Linked for EventPlace {
    ghost links_of = { event_place_links };

    fn names(&self, number: u32) -> bool {
        self.place == number || one_names(&self.carried, number)
    }
}

impl Linked for Participant {
    ghost links_of = { participant_links };

    fn names(&self, number: u32) -> bool {
        self.person == number || one_names(&self.carried, number)
    }
}

/// Whether the place of an event has the number.
fn place_names(place: &Option<EventPlace>, number: u32) -> bool
    ensures { result ≡ is_among number (place_line_links place.now) }
{
    match place {
        Some(place) => place.names(number),
        None => false,
    }
}

impl Linked for Event {
    ghost links_of = { event_links };

    fn names(&self, number: u32) -> bool {
        self.owner == number
            || place_names(&self.place, number)
            || one_names(&self.participants, number)
            || one_names(&self.carried, number)
    }
}

impl Linked for Mention {
    ghost links_of = { mention_links };

    fn names(&self, number: u32) -> bool {
        match &self.link {
            Some(link) => link.person == number,
            None => false,
        }
    }
}

impl Linked for Entry {
    ghost links_of = { entry_links };

    fn names(&self, number: u32) -> bool {
        self.source == number || self.place == Some(number) || one_names(&self.mentions, number)
    }
}

/// Whether the value is the number.
fn value_names(value: &Value, number: u32) -> bool
    ensures { result ≡ is_among number (value_links «value».now) }
{
    match value {
        Value::Ref(target) => *target == number,
        Value::Text(_) => false,
    }
}

impl Linked for Other {
    ghost links_of = { other_links };

    fn names(&self, number: u32) -> bool {
        value_names(&self.value, number) || one_names(&self.carried, number)
    }
}
