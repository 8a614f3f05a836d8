//! Whether each number in each part of a record is one that is given out.

ghost use Rattle.std.specs.Prelude.{◌≡◌, ◌↔◌, List, IsTrue};
ghost use Rattle.std.specs.List.{flat_map};
ghost use Rattle.archive_state.specs.Links.{
  Link,
  value_links,
  place_line_links,
  field_links,
  line_links,
  place_links,
  repo_links,
  holding_links,
  source_links,
  name_links,
  person_links,
  partner_links,
  child_links,
  family_links,
  citation_links,
  event_place_links,
  participant_links,
  event_links,
  mention_links,
  entry_links,
  other_links,
  links,
  names,
  a_place,
};
ghost use Rattle.record_shapes.specs.Lists.{EachOf};
ghost use Rattle.archive_state.specs.Sound.{IsNumber};
ghost use Rattle.audit.specs.Below as numbered;

use record_kinds::{
    Child, Citation, Entry, Event, EventPlace, Family, Holding, Mention, Name, Other, Participant,
    Partner, Person, Place, Record, Repo, Source,
};
use stored_lines::{Carried, Value};

/// What has numbers in it.
trait Numbered: Drop {
    ghost links_of: { Self → List Link };

    /// Whether each of its numbers is from 1 and below the next one.
    fn is_below(&self, next: u64) -> bool
        ensures { result ≡ numbered.are_below next (links_of self.now) };
}

/// Whether this is so of all of them.
#[tactic(auto, using(crate::proofs::Below::both_below))]
fn all_below<T: Numbered>(items: &[T], next: u64) -> bool
    ensures { result ≡ numbered.are_below next (flat_map T.links_of items.now) }
{
    'items: for item in items {
        if !item.is_below(next) {
            return false;
        }
    }
    true
}

/// Whether it is so of the line and of those below it.
#[tactic(auto, using(archive_state::proofs::LinkLinks::forest_flat, crate::proofs::Below::both_below))]
fn line_below(line: &Carried, next: u64) -> bool
    ensures { result ≡ numbered.are_below next (line_links line.now) }
{
    if !value_below(&line.value, next) {
        return false;
    }
    'children: for child in &line.children {
        if !line_below(child, next) {
            return false;
        }
    }
    true
}

fn value_below(value: &Value, next: u64) -> bool
    ensures { result ≡ numbered.are_below next (value_links «value».now) }
{
    match value {
        Value::Ref(target) => is_number(*target, next),
        Value::Text(_) => true,
    }
}

/// Whether the number is from 1 and below the next one.
fn is_number(number: u32, next: u64) -> bool
    ensures { result ≡ numbered.is_number next number }
{
    0 < number && u64::from(number) < next
}

fn field_below(number: Option<u32>, next: u64) -> bool
    ensures { result ≡ numbered.are_below next (field_links a_place number) }
{
    match number {
        Some(number) => is_number(number, next),
        None => true,
    }
}

fn place_below(place: &Option<EventPlace>, next: u64) -> bool
    ensures { result ≡ numbered.are_below next (place_line_links place.now) }
{
    match place {
        Some(place) => place.is_below(next),
        None => true,
    }
}

/// Whether each number in the record is from 1 and below the next one.
fn record_below(record: &Record, next: u64) -> bool
    ensures { result ≡ numbered.are_below next (links «record».now) }
{
    match record {
        Record::Place(place) => place.is_below(next),
        Record::Repo(repo) => repo.is_below(next),
        Record::Source(source) => source.is_below(next),
        Record::Person(person) => person.is_below(next),
        Record::Family(family) => family.is_below(next),
        Record::Citation(citation) => citation.is_below(next),
        Record::Event(event) => event.is_below(next),
        Record::Entry(entry) => entry.is_below(next),
        Record::Other(other) => other.is_below(next),
    }
}

/// Whether each number in the record is from 1 and below the next one. Takes no memory.

pub(crate) fn has_numbers_below(record: &Record, next: u64) -> bool
    ensures { IsTrue result ↔ EachOf (IsNumber next) (names «record».now) }
{
    record_below(record, next)
}

impl Numbered for Carried {
    ghost links_of = { line_links };

    fn is_below(&self, next: u64) -> bool {
        line_below(self, next)
    }
}

#[tactic(auto, using(crate::proofs::Below::both_below))]
impl Numbered for Place {
    ghost links_of = { place_links };

    fn is_below(&self, next: u64) -> bool {
        field_below(self.parent, next) && all_below(&self.carried, next)
    }
}

#[tactic(auto, using(crate::proofs::Below::both_below))]
impl Numbered for Repo {
    ghost links_of = { repo_links };

    fn is_below(&self, next: u64) -> bool {
        all_below(&self.carried, next)
    }
}

#[tactic(auto, using(crate::proofs::Below::both_below))]
impl Numbered for Holding {
    ghost links_of = { holding_links };

    fn is_below(&self, next: u64) -> bool {
        is_number(self.repo, next) && all_below(&self.carried, next)
    }
}

#[tactic(auto, using(crate::proofs::Below::both_below))]
impl Numbered for Source {
    ghost links_of = { source_links };

    fn is_below(&self, next: u64) -> bool {
        all_below(&self.holdings, next) && all_below(&self.carried, next)
    }
}

#[tactic(auto, using(crate::proofs::Below::both_below))]
impl Numbered for Name {
    ghost links_of = { name_links };

    fn is_below(&self, next: u64) -> bool {
        all_below(&self.carried, next)
    }
}

#[tactic(auto, using(crate::proofs::Below::both_below))]
impl Numbered for Person {
    ghost links_of = { person_links };

    fn is_below(&self, next: u64) -> bool {
        all_below(&self.names, next) && all_below(&self.carried, next)
    }
}

#[tactic(auto, using(crate::proofs::Below::both_below))]
impl Numbered for Partner {
    ghost links_of = { partner_links };

    fn is_below(&self, next: u64) -> bool {
        is_number(self.person, next)
            && all_below(&self.carried, next)
            && all_below(&self.carried_by_person, next)
    }
}

#[tactic(auto, using(crate::proofs::Below::both_below))]
impl Numbered for Child {
    ghost links_of = { child_links };

    fn is_below(&self, next: u64) -> bool {
        is_number(self.person, next)
            && all_below(&self.carried, next)
            && all_below(&self.carried_by_person, next)
    }
}

#[tactic(auto, using(crate::proofs::Below::both_below))]
impl Numbered for Family {
    ghost links_of = { family_links };

    fn is_below(&self, next: u64) -> bool {
        all_below(&self.partners, next)
            && all_below(&self.children, next)
            && all_below(&self.carried, next)
    }
}

#[tactic(auto, using(crate::proofs::Below::both_below))]
impl Numbered for Citation {
    ghost links_of = { citation_links };

    fn is_below(&self, next: u64) -> bool {
        is_number(self.owner, next)
            && is_number(self.source, next)
            && all_below(&self.carried, next)
    }
}

#[tactic(auto, using(crate::proofs::Below::both_below))]
impl Numbered for EventPlace {
    ghost links_of = { event_place_links };

    fn is_below(&self, next: u64) -> bool {
        is_number(self.place, next) && all_below(&self.carried, next)
    }
}

#[tactic(auto, using(crate::proofs::Below::both_below))]
impl Numbered for Participant {
    ghost links_of = { participant_links };

    fn is_below(&self, next: u64) -> bool {
        is_number(self.person, next) && all_below(&self.carried, next)
    }
}

#[tactic(auto, using(crate::proofs::Below::both_below))]
impl Numbered for Event {
    ghost links_of = { event_links };

    fn is_below(&self, next: u64) -> bool {
        is_number(self.owner, next)
            && place_below(&self.place, next)
            && all_below(&self.participants, next)
            && all_below(&self.carried, next)
    }
}

#[tactic(auto, using(crate::proofs::Below::both_below))]
impl Numbered for Entry {
    ghost links_of = { entry_links };

    fn is_below(&self, next: u64) -> bool {
        is_number(self.source, next)
            && field_below(self.place, next)
            && all_below(&self.mentions, next)
    }
}

#[tactic(auto, using(crate::proofs::Below::both_below))]
impl Numbered for Other {
    ghost links_of = { other_links };

    fn is_below(&self, next: u64) -> bool {
        value_below(&self.value, next) && all_below(&self.carried, next)
    }
}

impl Numbered for Mention {
    ghost links_of = { mention_links };

    fn is_below(&self, next: u64) -> bool {
        match &self.link {
            Some(link) => is_number(link.person, next),
            None => true,
        }
    }
}
