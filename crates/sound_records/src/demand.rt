//! What a number has to name.

ghost use Rattle.std.specs.Prelude.{◌≡◌, option_map};
ghost use Rattle.archive_state.specs.Links.{is_wanted};
ghost use Rattle.sound_records.specs.Standing as standing;

use archive_state::State;
use record_kinds::Record;

/// What a number in a record has to name.
#[derive(Clone, Copy, Debug, PartialEq, Eq)]
pub enum Demand {
    Place,
    Repo,
    Source,
    Person,
    /// What has events: a person or a family.
    Holder,
    /// What a citation may be of: a person, a family or an event.
    Cited,
    /// A record that is written at level 0: any but an event or a citation.
    Level0,
}

/// A number that does not name what it has to name.
#[derive(Clone, Copy, Debug, PartialEq, Eq)]
pub struct Unmet {
    pub number: u32,
    pub demand: Demand,
}

/// The number, where it does not name what is demanded.
pub(crate) fn look_at(state: &State, may_miss: bool, number: u32, demand: Demand) -> Option<Unmet>
    ensures { option_map standing.link_of result
        ≡ standing.unmet may_miss state.now.records (number, standing.wanted_of demand) }
{
    if is_met(state, may_miss, number, demand) {
        None
    } else {
        Some(Unmet { number, demand })
    }
}

fn is_met(state: &State, may_miss: bool, number: u32, demand: Demand) -> bool
    ensures { result ≡ standing.meets may_miss state.now.records (number, standing.wanted_of demand) }
{
    match state.record(number) {
        Some(found) => is_demanded(demand, found),
        None => may_miss,
    }
}

/// Whether the record is of the kind that is demanded.
fn is_demanded(demand: Demand, found: &Record) -> bool
    ensures { result ≡ is_wanted (standing.wanted_of demand) found.now }
{
    match demand {
        Demand::Place => matches!(found, Record::Place(_)),
        Demand::Repo => matches!(found, Record::Repo(_)),
        Demand::Source => matches!(found, Record::Source(_)),
        Demand::Person => matches!(found, Record::Person(_)),
        Demand::Holder => matches!(found, Record::Person(_) | Record::Family(_)),
        Demand::Cited => matches!(
            found,
            Record::Person(_) | Record::Family(_) | Record::Event(_)
        ),
        Demand::Level0 => !matches!(found, Record::Event(_) | Record::Citation(_)),
    }
}

/// The first of two.
pub(crate) fn first_of(one: Option<Unmet>, other: Option<Unmet>) -> Option<Unmet>
    ensures { option_map standing.link_of result
        ≡ standing.first_of (option_map standing.link_of one) (option_map standing.link_of other) }
{
    match one {
        Some(found) => Some(found),
        None => other,
    }
}
