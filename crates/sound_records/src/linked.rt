//! The first number in each part of a record that does not name what it has to name.

ghost use Rattle.std.specs.Prelude.{◌≡◌, List, option_map};
ghost use Rattle.std.specs.List.{flat_map};
ghost use Rattle.archive_state.specs.Links.{
  Link,
  value_links,
  place_line_links,
  field_links,
  line_links,
  place_links,
  repo_links,
  holding_links,
  source_links,
  name_links,
  person_links,
  partner_links,
  child_links,
  family_links,
  citation_links,
  event_place_links,
  participant_links,
  event_links,
  mention_links,
  entry_links,
  other_links,
};
ghost use Rattle.sound_records.specs.Standing as standing;

use crate::demand::{Demand, Unmet, first_of, look_at};
use archive_state::State;
use record_kinds::{
    Child, Citation, Entry, Event, EventPlace, Family, Holding, Mention, Name, Other, Participant,
    Partner, Person, Place, Repo, Source,
};
use stored_lines::{Carried, Value};

/// What has numbers in it.
pub(crate) trait Linked: Drop {
    ghost links_of: { Self → List Link };

    /// Its first number that does not name what it has to name.
    fn first_unmet(&self, state: &State, may_miss: bool) -> Option<Unmet>
        ensures { option_map standing.link_of result
            ≡ standing.first_unmet may_miss state.now.records (links_of self.now) };
}

/// The first of them all.
#[tactic(auto, using(crate::proofs::Firsts::first_both))]
fn first_in<T: Linked>(state: &State, may_miss: bool, items: &[T]) -> Option<Unmet>
    ensures { option_map standing.link_of result
        ≡ standing.first_unmet may_miss state.now.records (flat_map T.links_of items.now) }
{
    'items: for item in items {
        if let Some(found) = item.first_unmet(state, may_miss) {
            return Some(found);
        }
    }
    None
}

/// The first on the line and on those below it.
#[tactic(auto, using(crate::proofs::Firsts::first_both, archive_state::proofs::LinkLinks::forest_flat))]
fn first_on(state: &State, may_miss: bool, line: &Carried) -> Option<Unmet>
    ensures { option_map standing.link_of result
        ≡ standing.first_unmet may_miss state.now.records (line_links line.now) }
{
    if let Some(found) = in_value(state, may_miss, &line.value) {
        return Some(found);
    }
    'children: for child in &line.children {
        if let Some(found) = first_on(state, may_miss, child) {
            return Some(found);
        }
    }
    None
}

/// That of a value.
fn in_value(state: &State, may_miss: bool, value: &Value) -> Option<Unmet>
    ensures { option_map standing.link_of result
        ≡ standing.first_unmet may_miss state.now.records (value_links «value».now) }
{
    match value {
        Value::Ref(target) => look_at(state, may_miss, *target, Demand::Level0),
        Value::Text(_) => None,
    }
}

/// That of a number that may be missing.
fn in_field(state: &State, may_miss: bool, number: Option<u32>, demand: Demand) -> Option<Unmet>
    ensures { option_map standing.link_of result
        ≡ standing.first_unmet may_miss state.now.records (field_links (standing.wanted_of demand) number) }
{
    match number {
        Some(number) => look_at(state, may_miss, number, demand),
        None => None,
    }
}

/// That of the place of an event.
fn in_place(state: &State, may_miss: bool, place: &Option<EventPlace>) -> Option<Unmet>
    ensures { option_map standing.link_of result
        ≡ standing.first_unmet may_miss state.now.records (place_line_links place.now) }
{
    match place {
        Some(place) => place.first_unmet(state, may_miss),
        None => None,
    }
}

impl Linked for Carried {
    ghost links_of = { line_links };

    fn first_unmet(&self, state: &State, may_miss: bool) -> Option<Unmet> {
        first_on(state, may_miss, self)
    }
}

#[tactic(auto, using(crate::proofs::Firsts::first_both))]
impl Linked for Place {
    ghost links_of = { place_links };

    fn first_unmet(&self, state: &State, may_miss: bool) -> Option<Unmet> {
        first_of(
            in_field(state, may_miss, self.parent, Demand::Place),
            first_in(state, may_miss, &self.carried),
        )
    }
}

#[tactic(auto, using(crate::proofs::Firsts::first_both))]
impl Linked for Repo {
    ghost links_of = { repo_links };

    fn first_unmet(&self, state: &State, may_miss: bool) -> Option<Unmet> {
        first_in(state, may_miss, &self.carried)
    }
}

#[tactic(auto, using(crate::proofs::Firsts::first_both))]
impl Linked for Holding {
    ghost links_of = { holding_links };

    fn first_unmet(&self, state: &State, may_miss: bool) -> Option<Unmet> {
        first_of(
            look_at(state, may_miss, self.repo, Demand::Repo),
            first_in(state, may_miss, &self.carried),
        )
    }
}

#[tactic(auto, using(crate::proofs::Firsts::first_both))]
impl Linked for Source {
    ghost links_of = { source_links };

    fn first_unmet(&self, state: &State, may_miss: bool) -> Option<Unmet> {
        first_of(
            first_in(state, may_miss, &self.holdings),
            first_in(state, may_miss, &self.carried),
        )
    }
}

#[tactic(auto, using(crate::proofs::Firsts::first_both))]
impl Linked for Name {
    ghost links_of = { name_links };

    fn first_unmet(&self, state: &State, may_miss: bool) -> Option<Unmet> {
        first_in(state, may_miss, &self.carried)
    }
}

#[tactic(auto, using(crate::proofs::Firsts::first_both))]
impl Linked for Person {
    ghost links_of = { person_links };

    fn first_unmet(&self, state: &State, may_miss: bool) -> Option<Unmet> {
        first_of(
            first_in(state, may_miss, &self.names),
            first_in(state, may_miss, &self.carried),
        )
    }
}

#[tactic(auto, using(crate::proofs::Firsts::first_both))]
impl Linked for Partner {
    ghost links_of = { partner_links };

    fn first_unmet(&self, state: &State, may_miss: bool) -> Option<Unmet> {
        first_of(
            look_at(state, may_miss, self.person, Demand::Person),
            first_of(
                first_in(state, may_miss, &self.carried),
                first_in(state, may_miss, &self.carried_by_person),
            ),
        )
    }
}

#[tactic(auto, using(crate::proofs::Firsts::first_both))]
impl Linked for Child {
    ghost links_of = { child_links };

    fn first_unmet(&self, state: &State, may_miss: bool) -> Option<Unmet> {
        first_of(
            look_at(state, may_miss, self.person, Demand::Person),
            first_of(
                first_in(state, may_miss, &self.carried),
                first_in(state, may_miss, &self.carried_by_person),
            ),
        )
    }
}

#[tactic(auto, using(crate::proofs::Firsts::first_both))]
impl Linked for Family {
    ghost links_of = { family_links };

    fn first_unmet(&self, state: &State, may_miss: bool) -> Option<Unmet> {
        first_of(
            first_in(state, may_miss, &self.partners),
            first_of(
                first_in(state, may_miss, &self.children),
                first_in(state, may_miss, &self.carried),
            ),
        )
    }
}

#[tactic(auto, using(crate::proofs::Firsts::first_both))]
impl Linked for Citation {
    ghost links_of = { citation_links };

    fn first_unmet(&self, state: &State, may_miss: bool) -> Option<Unmet> {
        first_of(
            look_at(state, may_miss, self.owner, Demand::Cited),
            first_of(
                look_at(state, may_miss, self.source, Demand::Source),
                first_in(state, may_miss, &self.carried),
            ),
        )
    }
}

#[tactic(auto, using(crate::proofs::Firsts::first_both))]
impl Linked for EventPlace {
    ghost links_of = { event_place_links };

    fn first_unmet(&self, state: &State, may_miss: bool) -> Option<Unmet> {
        first_of(
            look_at(state, may_miss, self.place, Demand::Place),
            first_in(state, may_miss, &self.carried),
        )
    }
}

#[tactic(auto, using(crate::proofs::Firsts::first_both))]
impl Linked for Participant {
    ghost links_of = { participant_links };

    fn first_unmet(&self, state: &State, may_miss: bool) -> Option<Unmet> {
        first_of(
            look_at(state, may_miss, self.person, Demand::Person),
            first_in(state, may_miss, &self.carried),
        )
    }
}

#[tactic(auto, using(crate::proofs::Firsts::first_both))]
impl Linked for Event {
    ghost links_of = { event_links };

    fn first_unmet(&self, state: &State, may_miss: bool) -> Option<Unmet> {
        first_of(
            look_at(state, may_miss, self.owner, Demand::Holder),
            first_of(
                in_place(state, may_miss, &self.place),
                first_of(
                    first_in(state, may_miss, &self.participants),
                    first_in(state, may_miss, &self.carried),
                ),
            ),
        )
    }
}

#[tactic(auto, using(crate::proofs::Firsts::first_both))]
impl Linked for Entry {
    ghost links_of = { entry_links };

    fn first_unmet(&self, state: &State, may_miss: bool) -> Option<Unmet> {
        first_of(
            look_at(state, may_miss, self.source, Demand::Source),
            first_of(
                in_field(state, may_miss, self.place, Demand::Place),
                first_in(state, may_miss, &self.mentions),
            ),
        )
    }
}

#[tactic(auto, using(crate::proofs::Firsts::first_both))]
impl Linked for Other {
    ghost links_of = { other_links };

    fn first_unmet(&self, state: &State, may_miss: bool) -> Option<Unmet> {
        first_of(
            in_value(state, may_miss, &self.value),
            first_in(state, may_miss, &self.carried),
        )
    }
}

impl Linked for Mention {
    ghost links_of = { mention_links };

    fn first_unmet(&self, state: &State, may_miss: bool) -> Option<Unmet> {
        match &self.link {
            Some(link) => look_at(state, may_miss, link.person, Demand::Person),
            None => None,
        }
    }
}
