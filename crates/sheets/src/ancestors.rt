//! The parents of a person, and the dates that a pedigree shows.

ghost use Rattle.std.specs.Prelude.{◌≡◌, Some, map, option_copied};
ghost use Rattle.std.specs.FinMap as maps;
ghost use Rattle.record_kinds.specs.declared.record.Record.TheVariants as kind;
ghost use Rattle.gedcom_export.specs.Index.{IsArranged};
ghost use Rattle.gedcom_export.specs.declared.index_owned.Owned as owned;
ghost use Rattle.sheets.specs.Indexed.{indexed};
ghost use Rattle.sheets.specs.Pedigrees as pedigrees;

use archive_state::State;
use gedcom_export::{Index, Owned};
use record_fields::{Date, Partnership};
use record_kinds::{Event, Partner, Record};

/// The first husband, or wife, of the lowest family where the person is a child. Takes no memory.
pub fn parent_of(state: &State, index: &Index, partnership: Partnership, person: u32) -> Option<u32>
    requires { IsArranged index.now }
    ensures { result ≡ pedigrees.parent (indexed state.now.records index.now) partnership person }
{
    match index.child_in(person).first() {
        None => None,
        Some(membership) => partner_as(state, partnership, membership.side.family),
    }
}

fn partner_as(state: &State, partnership: Partnership, family: u32) -> Option<u32>
    ensures { result ≡ pedigrees.partner_as partnership (maps.get state.now.records family) }
{
    match state.record(family) {
        Some(Record::Family(family)) => first_as(partnership, &family.partners),
        _ => None,
    }
}

fn first_as(partnership: Partnership, partners: &[Partner]) -> Option<u32>
    ensures { result ≡ pedigrees.first_as partnership partners.now }
{
    'partners: for partner in partners {
        if is_as(partner, partnership) {
            return Some(partner.person);
        }
    }
    None
}

fn is_as(partner: &Partner, partnership: Partnership) -> bool
    ensures { result ≡ pedigrees.is_as partner.now.partnership partnership }
{
    partner.partnership == partnership
}

/// The date of the lowest event of the person with that tag and a date. Takes no memory.
pub(crate) fn date_of<'a>(
    state: &'a State,
    index: &Index,
    tag: &str,
    person: u32,
) -> Option<&'a Date>
    requires { IsArranged index.now }
    ensures { option_copied result
        ≡ pedigrees.date_of (indexed state.now.records index.now) tag.now person }
{
    first_date(state, tag, index.events_of(person))
}

fn first_date<'a>(state: &'a State, tag: &str, events: &[Owned]) -> Option<&'a Date>
    ensures { option_copied result ≡ pedigrees.first_date (maps.get state.now.records) tag.now
        (map (λ (o : owned.Owned). o.number) events.now) }
{
    'events: for event in events {
        if let Some(date) = date_at(state, tag, event.number) {
            return Some(date);
        }
    }
    None
}

fn date_at<'a>(state: &'a State, tag: &str, number: u32) -> Option<&'a Date>
    ensures { option_copied result ≡ pedigrees.date_as tag.now (maps.get state.now.records number) }
{
    match state.record(number) {
        Some(Record::Event(event)) => date_if(event, tag),
        _ => None,
    }
}

/// The date of an event, where it has that tag.
fn date_if<'a>(event: &'a Event, tag: &str) -> Option<&'a Date>
    ensures { option_copied result ≡ pedigrees.date_as tag.now (Some (kind.Event event.now)) }
{
    if event.tag.as_str() == tag {
        event.date.as_ref()
    } else {
        None
    }
}
