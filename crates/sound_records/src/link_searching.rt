//! The first number in a record that does not name what it has to name.

ghost use Rattle.std.specs.Prelude.{◌≡◌, option_map, MatchOption};
ghost use Rattle.archive_state.specs.Links.{links};
ghost use Rattle.record_shapes.specs.Lists.{EachOf};
ghost use Rattle.sound_records.specs.Standing as standing;

use crate::demand::Unmet;
use crate::linked::Linked;
use archive_state::State;
use record_kinds::Record;

/// The first number in the record that does not name a record of the kind that is demanded there. `may_miss`: a number
/// that names no record at all is passed over. `None`: each names what it has to name. Takes no memory.
pub fn first_unmet(state: &State, may_miss: bool, record: &Record) -> Option<Unmet>
    ensures { MatchOption result
        (EachOf (standing.Meets may_miss state.now.records) (links «record».now))
        (λ u. standing.IsUnmet may_miss state.now.records (links «record».now) (standing.link_of u)) }
{
    first(state, may_miss, record)
}

fn first(state: &State, may_miss: bool, record: &Record) -> Option<Unmet>
    ensures { option_map standing.link_of result
        ≡ standing.first_unmet may_miss state.now.records (links «record».now) }
{
    match record {
        Record::Place(place) => place.first_unmet(state, may_miss),
        Record::Repo(repo) => repo.first_unmet(state, may_miss),
        Record::Source(source) => source.first_unmet(state, may_miss),
        Record::Person(person) => person.first_unmet(state, may_miss),
        Record::Family(family) => family.first_unmet(state, may_miss),
        Record::Citation(citation) => citation.first_unmet(state, may_miss),
        Record::Event(event) => event.first_unmet(state, may_miss),
        Record::Entry(entry) => entry.first_unmet(state, may_miss),
        Record::Other(other) => other.first_unmet(state, may_miss),
    }
}
