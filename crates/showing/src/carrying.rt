//! All carried lines of a record.

ghost use Rattle.std.specs.Prelude.{◌≡◌, ◌++◌, IfOk, OnOk, string_bytes};
ghost use Rattle.std.specs.List.{flat_map};
ghost use Rattle.record_kinds.specs.declared.record.Record.TheVariants as kind;
ghost use Rattle.showing.specs.Carried as carried;

use crate::fields::push_below;
use record_kinds::{
    Child, Event, EventPlace, Family, Holding, Name, Participant, Partner, Person, Record, Source,
};
use std::alloc::{AllocError, Global};
use stored_lines::Carried;

/// All carried lines of a record as they are shown, those of one part after those of the other, and at one level.
pub fn carried_text(alloc: Global, record: &Record) -> Result<String, AllocError>
    ensures { IfOk result (λ s. string_bytes s ≡ carried.carried_text «record».now) }
{
    let mut out = String::new(alloc);
    push_record(alloc, &mut out, record)?;
    Ok(out)
}

fn push_record(alloc: Global, out: &mut String, record: &Record) -> Result<(), AllocError>
    ensures { OnOk result (string_bytes out.new ≡ string_bytes out.old ++ carried.carried_text «record».now) }
{
    match record {
        Record::Person(person) => push_person(alloc, out, person),
        Record::Family(family) => push_family(alloc, out, family),
        Record::Event(event) => push_event(alloc, out, event),
        Record::Place(place) => push_part(alloc, out, &place.carried),
        Record::Repo(repo) => push_part(alloc, out, &repo.carried),
        Record::Source(source) => push_source(alloc, out, source),
        Record::Citation(citation) => push_part(alloc, out, &citation.carried),
        Record::Entry(_) => Ok(()),
        Record::Other(other) => push_part(alloc, out, &other.carried),
    }
}

fn push_part(alloc: Global, out: &mut String, lines: &[Carried]) -> Result<(), AllocError>
    ensures { OnOk result (string_bytes out.new ≡ string_bytes out.old ++ carried.part lines.now) }
{
    push_below(alloc, out, 1, lines)
}

fn push_person(alloc: Global, out: &mut String, person: &Person) -> Result<(), AllocError>
    ensures { OnOk result (string_bytes out.new
        ≡ string_bytes out.old ++ carried.carried_text (kind.Person person.now)) }
{
    push_names(alloc, out, &person.names)?;
    push_part(alloc, out, &person.carried)
}

fn push_family(alloc: Global, out: &mut String, family: &Family) -> Result<(), AllocError>
    ensures { OnOk result (string_bytes out.new
        ≡ string_bytes out.old ++ carried.carried_text (kind.Family family.now)) }
{
    push_partners(alloc, out, &family.partners)?;
    push_children(alloc, out, &family.children)?;
    push_part(alloc, out, &family.carried)
}

fn push_event(alloc: Global, out: &mut String, event: &Event) -> Result<(), AllocError>
    ensures { OnOk result (string_bytes out.new
        ≡ string_bytes out.old ++ carried.carried_text (kind.Event event.now)) }
{
    push_event_place(alloc, out, &event.place)?;
    push_participants(alloc, out, &event.participants)?;
    push_part(alloc, out, &event.carried)
}

fn push_source(alloc: Global, out: &mut String, source: &Source) -> Result<(), AllocError>
    ensures { OnOk result (string_bytes out.new
        ≡ string_bytes out.old ++ carried.carried_text (kind.Source source.now)) }
{
    push_holdings(alloc, out, &source.holdings)?;
    push_part(alloc, out, &source.carried)
}

fn push_event_place(
    alloc: Global,
    out: &mut String,
    place: &Option<EventPlace>,
) -> Result<(), AllocError>
    ensures { OnOk result (string_bytes out.new ≡ string_bytes out.old ++ carried.of_event_place place.now) }
{
    match place {
        None => Ok(()),
        Some(place) => push_part(alloc, out, &place.carried),
    }
}

fn push_names(alloc: Global, out: &mut String, names: &[Name]) -> Result<(), AllocError>
    ensures { OnOk result (string_bytes out.new
        ≡ string_bytes out.old ++ flat_map carried.of_name names.now) }
{
    'each: for name in names {
        push_name(alloc, out, name)?;
    }
    Ok(())
}

fn push_name(alloc: Global, out: &mut String, name: &Name) -> Result<(), AllocError>
    ensures { OnOk result (string_bytes out.new ≡ string_bytes out.old ++ carried.of_name name.now) }
{
    push_part(alloc, out, &name.carried)
}

fn push_partners(alloc: Global, out: &mut String, partners: &[Partner]) -> Result<(), AllocError>
    ensures { OnOk result (string_bytes out.new
        ≡ string_bytes out.old ++ flat_map carried.of_partner partners.now) }
{
    'each: for partner in partners {
        push_partner(alloc, out, partner)?;
    }
    Ok(())
}

fn push_partner(alloc: Global, out: &mut String, partner: &Partner) -> Result<(), AllocError>
    ensures { OnOk result (string_bytes out.new ≡ string_bytes out.old ++ carried.of_partner partner.now) }
{
    push_part(alloc, out, &partner.carried)?;
    push_part(alloc, out, &partner.carried_by_person)
}

fn push_children(alloc: Global, out: &mut String, children: &[Child]) -> Result<(), AllocError>
    ensures { OnOk result (string_bytes out.new
        ≡ string_bytes out.old ++ flat_map carried.of_child children.now) }
{
    'each: for child in children {
        push_child(alloc, out, child)?;
    }
    Ok(())
}

fn push_child(alloc: Global, out: &mut String, child: &Child) -> Result<(), AllocError>
    ensures { OnOk result (string_bytes out.new ≡ string_bytes out.old ++ carried.of_child child.now) }
{
    push_part(alloc, out, &child.carried)?;
    push_part(alloc, out, &child.carried_by_person)
}

fn push_participants(
    alloc: Global,
    out: &mut String,
    participants: &[Participant],
) -> Result<(), AllocError>
    ensures { OnOk result (string_bytes out.new
        ≡ string_bytes out.old ++ flat_map carried.of_participant participants.now) }
{
    'each: for participant in participants {
        push_participant(alloc, out, participant)?;
    }
    Ok(())
}

fn push_participant(
    alloc: Global,
    out: &mut String,
    participant: &Participant,
) -> Result<(), AllocError>
    ensures { OnOk result (string_bytes out.new ≡ string_bytes out.old ++ carried.of_participant participant.now) }
{
    push_part(alloc, out, &participant.carried)
}

fn push_holdings(alloc: Global, out: &mut String, holdings: &[Holding]) -> Result<(), AllocError>
    ensures { OnOk result (string_bytes out.new
        ≡ string_bytes out.old ++ flat_map carried.of_holding holdings.now) }
{
    'each: for holding in holdings {
        push_holding(alloc, out, holding)?;
    }
    Ok(())
}

fn push_holding(alloc: Global, out: &mut String, holding: &Holding) -> Result<(), AllocError>
    ensures { OnOk result (string_bytes out.new ≡ string_bytes out.old ++ carried.of_holding holding.now) }
{
    push_part(alloc, out, &holding.carried)
}
