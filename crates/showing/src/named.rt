//! The numbers that the fields of a record name.

ghost use Rattle.std.specs.Prelude.{◌≡◌, ◌++◌, ◌∷◌, [], IfOk, OnOk, map};
ghost use Rattle.std.specs.List.{flat_map};
ghost use Rattle.record_kinds.specs.Model as model;
ghost use Rattle.record_kinds.specs.declared.record.Record.TheVariants as kind;
ghost use Rattle.showing.specs.Named as names;

use record_kinds::{
    Child, Citation, Entry, Event, EventPlace, Family, Holding, Link, Mention, Participant,
    Partner, Record,
};
use std::alloc::{AllocError, Global};

/// The numbers that the fields of a record name, in order.
pub(crate) fn named(alloc: Global, record: &Record) -> Result<Vec<u32>, AllocError>
    ensures { IfOk result (λ v. v.items ≡ names.named «record».now) }
{
    let mut numbers = Vec::new(alloc);
    push_named(&mut numbers, record)?;
    Ok(numbers)
}

fn push_named(numbers: &mut Vec<u32>, record: &Record) -> Result<(), AllocError>
    ensures { OnOk result (numbers.new.items ≡ numbers.old.items ++ names.named «record».now) }
{
    match record {
        Record::Family(family) => push_family(numbers, family),
        Record::Event(event) => push_event(numbers, event),
        Record::Place(place) => push_one(numbers, place.parent),
        Record::Source(source) => push_repos(numbers, &source.holdings),
        Record::Citation(citation) => push_citation(numbers, citation),
        Record::Entry(entry) => push_entry(numbers, entry),
        _ => Ok(()),
    }
}

fn push(numbers: &mut Vec<u32>, number: u32) -> Result<(), AllocError>
    ensures { OnOk result (numbers.new.items ≡ numbers.old.items ++ number ∷ []) }
{
    numbers.push(number)?;
    Ok(())
}

fn push_one(numbers: &mut Vec<u32>, number: Option<u32>) -> Result<(), AllocError>
    ensures { OnOk result (numbers.new.items ≡ numbers.old.items ++ names.one number) }
{
    match number {
        None => Ok(()),
        Some(number) => push(numbers, number),
    }
}

fn push_family(numbers: &mut Vec<u32>, family: &Family) -> Result<(), AllocError>
    ensures { OnOk result (numbers.new.items ≡ numbers.old.items ++ names.named (kind.Family family.now)) }
{
    push_partners(numbers, &family.partners)?;
    push_children(numbers, &family.children)
}

fn push_partners(numbers: &mut Vec<u32>, partners: &[Partner]) -> Result<(), AllocError>
    ensures { OnOk result (numbers.new.items
        ≡ numbers.old.items ++ map (λ (p : model.Partner). p.person) partners.now) }
{
    'each: for partner in partners {
        push(numbers, partner.person)?;
    }
    Ok(())
}

fn push_children(numbers: &mut Vec<u32>, children: &[Child]) -> Result<(), AllocError>
    ensures { OnOk result (numbers.new.items
        ≡ numbers.old.items ++ map (λ (c : model.Child). c.person) children.now) }
{
    'each: for child in children {
        push(numbers, child.person)?;
    }
    Ok(())
}

fn push_event(numbers: &mut Vec<u32>, event: &Event) -> Result<(), AllocError>
    ensures { OnOk result (numbers.new.items ≡ numbers.old.items ++ names.named (kind.Event event.now)) }
{
    push(numbers, event.owner)?;
    push_event_place(numbers, &event.place)?;
    push_participants(numbers, &event.participants)
}

fn push_event_place(numbers: &mut Vec<u32>, place: &Option<EventPlace>) -> Result<(), AllocError>
    ensures { OnOk result (numbers.new.items ≡ numbers.old.items ++ names.event_place place.now) }
{
    match place {
        None => Ok(()),
        Some(place) => push(numbers, place.place),
    }
}

fn push_participants(numbers: &mut Vec<u32>, participants: &[Participant]) -> Result<(), AllocError>
    ensures { OnOk result (numbers.new.items
        ≡ numbers.old.items ++ map (λ (p : model.Participant). p.person) participants.now) }
{
    'each: for participant in participants {
        push(numbers, participant.person)?;
    }
    Ok(())
}

fn push_repos(numbers: &mut Vec<u32>, holdings: &[Holding]) -> Result<(), AllocError>
    ensures { OnOk result (numbers.new.items
        ≡ numbers.old.items ++ map (λ (h : model.Holding). h.repo) holdings.now) }
{
    'each: for holding in holdings {
        push(numbers, holding.repo)?;
    }
    Ok(())
}

fn push_citation(numbers: &mut Vec<u32>, citation: &Citation) -> Result<(), AllocError>
    ensures { OnOk result (numbers.new.items ≡ numbers.old.items ++ names.named (kind.Citation citation.now)) }
{
    push(numbers, citation.owner)?;
    push(numbers, citation.source)
}

fn push_entry(numbers: &mut Vec<u32>, entry: &Entry) -> Result<(), AllocError>
    ensures { OnOk result (numbers.new.items ≡ numbers.old.items ++ names.named (kind.Entry entry.now)) }
{
    push(numbers, entry.source)?;
    push_one(numbers, entry.place)?;
    push_mentions(numbers, &entry.mentions)
}

fn push_mentions(numbers: &mut Vec<u32>, mentions: &[Mention]) -> Result<(), AllocError>
    ensures { OnOk result (numbers.new.items
        ≡ numbers.old.items ++ flat_map (λ (x : model.Mention). names.linked x.link) mentions.now) }
{
    'each: for mention in mentions {
        push_link(numbers, &mention.link)?;
    }
    Ok(())
}

fn push_link(numbers: &mut Vec<u32>, link: &Option<Link>) -> Result<(), AllocError>
    ensures { OnOk result (numbers.new.items ≡ numbers.old.items ++ names.linked link.now) }
{
    match link {
        None => Ok(()),
        Some(link) => push(numbers, link.person),
    }
}
