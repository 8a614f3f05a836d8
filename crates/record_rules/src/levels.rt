//! How deep the lines of a record go.

ghost use Rattle.std.specs.Prelude.{◌≡◌, ◌≤◌, ◌↔◌, IsTrue, IfSome, None, option_map};
ghost use Rattle.stored_lines.specs.Levels.{levels as levels_of};
ghost use Rattle.record_kinds.specs.Model as model;
ghost use Rattle.record_kinds.specs.declared.record.Record.TheVariants as kind;
ghost use Rattle.record_shapes.specs.Lists.{EachOf};
ghost use Rattle.record_shapes.specs.Levels as levels;

use record_kinds::{
    Child, Event, EventPlace, Family, Holding, Name, Participant, Partner, Person, Record, Source,
};
use stored_lines::Carried;

/// The most levels below a record that is written at level 0, so that no line of it is below level 98.
const BELOW_RECORD: u32 = 98;

/// The same below a field of such a record, and below an event of it.
const BELOW_FIELD: u32 = 97;

/// The same below a field of an event.
const BELOW_EVENT_FIELD: u32 = 96;

/// Whether no line of the record is below level 98 in a file. A citation stands as deep as what it is of.
pub fn has_room(owner: Option<&Record>, record: &Record) -> bool
    ensures { IsTrue result ↔ levels.HasRoom (option_map (λ r. r.now) owner.entry) «record».now }
{
    match record {
        Record::Place(place) => are_within(&place.carried, BELOW_RECORD),
        Record::Repo(repo) => are_within(&repo.carried, BELOW_RECORD),
        Record::Source(source) => source_has_room(source),
        Record::Person(person) => person_has_room(person),
        Record::Family(family) => family_has_room(family),
        Record::Citation(citation) => are_within(&citation.carried, room_below(owner)),
        Record::Event(event) => event_has_room(event),
        Record::Entry(_) => true,
        Record::Other(other) => are_within(&other.carried, BELOW_RECORD),
    }
}

/// How many levels are left below a citation of that record.
fn room_below(owner: Option<&Record>) -> u32
    ensures { result ≡ levels.room_below (option_map (λ r. r.now) owner.entry) }
{
    match owner {
        Some(Record::Event(_)) => BELOW_EVENT_FIELD,
        _ => BELOW_FIELD,
    }
}

fn source_has_room(source: &Source) -> bool
    ensures { IsTrue result ↔ (EachOf (λ (h : model.Holding). levels.AreWithin 97 h.carried) source.now.holdings
        × levels.AreWithin 98 source.now.carried) }
{
    source
        .holdings
        .iter()
        .all(|h| are_within(&h.carried, BELOW_FIELD))
        && are_within(&source.carried, BELOW_RECORD)
}

fn person_has_room(person: &Person) -> bool
    ensures { IsTrue result ↔ (EachOf (λ (n : model.Name). levels.AreWithin 97 n.carried) person.now.names
        × levels.AreWithin 98 person.now.carried) }
{
    person
        .names
        .iter()
        .all(|n| are_within(&n.carried, BELOW_FIELD))
        && are_within(&person.carried, BELOW_RECORD)
}

fn family_has_room(family: &Family) -> bool
    ensures { IsTrue result ↔ levels.HasRoom None (kind.Family family.now) }
{
    partners_have_room(&family.partners)
        && children_have_room(&family.children)
        && are_within(&family.carried, BELOW_RECORD)
}

fn partners_have_room(partners: &[Partner]) -> bool
    ensures { IsTrue result ↔ EachOf (λ (p : model.Partner).
        levels.AreWithin 97 p.carried × levels.AreWithin 97 p.carried_by_person) partners.now }
{
    partners.iter().all(partner_has_room)
}

fn children_have_room(children: &[Child]) -> bool
    ensures { IsTrue result ↔ EachOf (λ (c : model.Child).
        levels.AreWithin 97 c.carried × levels.AreWithin 97 c.carried_by_person) children.now }
{
    children.iter().all(child_has_room)
}

fn partner_has_room(partner: &Partner) -> bool
    ensures { IsTrue result ↔ (levels.AreWithin 97 partner.now.carried
        × levels.AreWithin 97 partner.now.carried_by_person) }
{
    are_within(&partner.carried, BELOW_FIELD) && are_within(&partner.carried_by_person, BELOW_FIELD)
}

fn child_has_room(child: &Child) -> bool
    ensures { IsTrue result ↔ (levels.AreWithin 97 child.now.carried
        × levels.AreWithin 97 child.now.carried_by_person) }
{
    are_within(&child.carried, BELOW_FIELD) && are_within(&child.carried_by_person, BELOW_FIELD)
}

fn event_has_room(event: &Event) -> bool
    ensures { IsTrue result ↔ levels.HasRoom None (kind.Event event.now) }
{
    place_has_room(&event.place)
        && event
            .participants
            .iter()
            .all(|p| are_within(&p.carried, BELOW_EVENT_FIELD))
        && are_within(&event.carried, BELOW_FIELD)
}

fn place_has_room(place: &Option<EventPlace>) -> bool
    ensures { IsTrue result ↔ IfSome place.now (λ (p : model.EventPlace). levels.AreWithin 96 p.carried) }
{
    match place {
        Some(place) => are_within(&place.carried, BELOW_EVENT_FIELD),
        None => true,
    }
}

/// Whether the lines have no more levels than that.
fn are_within(lines: &[Carried], most: u32) -> bool
    ensures { IsTrue result ↔ levels.AreWithin most lines.now }
{
    'lines: for line in lines {
        if !is_within(line, most) {
            return false;
        }
    }
    true
}

fn is_within(line: &Carried, most: u32) -> bool
    ensures { IsTrue result ↔ (levels_of line.now ≤ most) }
{
    if most == 0 {
        return false;
    }
    'children: for child in &line.children {
        if !is_within(child, most - 1) {
            return false;
        }
    }
    true
}
