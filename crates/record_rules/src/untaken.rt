//! Carried lines that no field of their part would take.

ghost use Rattle.std.specs.Prelude.{◌≡◌, ◌&&◌, not, IfOk, false};
ghost use Rattle.std.specs.List.{list_all};
ghost use Rattle.record_kinds.specs.Model as model;
ghost use Rattle.record_kinds.specs.declared.record.Record.TheVariants as kind;
ghost use Rattle.record_shapes.specs.Fields as fields;
ghost use Rattle.record_shapes.specs.Untaken as untaken;
ghost use Rattle.record_rules.specs.Judged as judged;

use field_rows::{
    EventRow, Known, citation_field, event_row, family_field, holding_field, parent_field,
    participant_field, person_field, repo_field, source_field,
};
use record_kinds::{
    Citation, Event, Family, Holding, Participant, Person, Place, Record, Repo, Source,
};
use record_shapes::Field;
use std::alloc::{AllocError, Global};
use stored_lines::Carried;

/// Whether no field of its part, read before it, would take a carried line of the record. `earlier` knows the paths of
/// the places before it.
pub fn has_untaken<E: Known, K: Known>(
    alloc: Global,
    earlier: &E,
    known: &K,
    record: &Record,
) -> Result<bool, AllocError>
    ensures { IfOk result (λ b. b ≡ judged.has_untaken (E.known earlier.now) (K.known known.now) «record».now) }
{
    match record {
        Record::Place(place) => Ok(place_has_untaken(earlier, place)),
        Record::Repo(repo) => Ok(repo_has_untaken(repo)),
        Record::Source(source) => Ok(source_has_untaken(known, source)),
        Record::Person(person) => Ok(person_has_untaken(known, person)),
        Record::Family(family) => Ok(family_has_untaken(known, family)),
        Record::Citation(citation) => Ok(citation_has_untaken(citation)),
        Record::Event(event) => event_has_untaken(alloc, known, event),
        Record::Entry(_) | Record::Other(_) => Ok(true),
    }
}

fn place_has_untaken<E: Known>(earlier: &E, place: &Place) -> bool
    ensures { result ≡ judged.are_untaken (fields.parent_field (E.known earlier.now) place.now.name)
        (untaken.place_leaves place.now) place.now.carried }
{
    place.carried.iter().all(|line| place_leaves(
        place,
        parent_field(earlier, place.name.as_str(), line),
    ))
}

/// Whether the place leaves a line of that field.
fn place_leaves(place: &Place, field: Field) -> bool
    ensures { result ≡ untaken.place_leaves place.now field }
{
    match field {
        Field::Carried => true,
        Field::Parent => place.parent.is_some(),
        _ => false,
    }
}

fn repo_has_untaken(repo: &Repo) -> bool
    ensures { result ≡ judged.are_untaken fields.repo_field (untaken.repo_leaves repo.now) repo.now.carried }
{
    repo.carried
        .iter()
        .all(|line| repo_leaves(repo, repo_field(line)))
}

fn repo_leaves(repo: &Repo, field: Field) -> bool
    ensures { result ≡ untaken.repo_leaves repo.now field }
{
    match field {
        Field::Carried => true,
        Field::Name => repo.name.is_some(),
        _ => false,
    }
}

fn source_has_untaken<K: Known>(known: &K, source: &Source) -> bool
    ensures { result ≡ judged.has_untaken (K.known known.now) (K.known known.now) (kind.Source source.now) }
{
    holdings_have_untaken(&source.holdings) && source_lines_untaken(known, source)
}

fn holdings_have_untaken(holdings: &[Holding]) -> bool
    ensures { result ≡ list_all (λ (h : model.Holding). judged.are_untaken fields.holding_field
        (untaken.holding_leaves h) h.carried) holdings.now }
{
    holdings.iter().all(holding_has_untaken)
}

fn source_lines_untaken<K: Known>(known: &K, source: &Source) -> bool
    ensures { result ≡ judged.are_untaken (fields.source_field (K.known known.now)) (untaken.source_leaves source.now)
        source.now.carried }
{
    source
        .carried
        .iter()
        .all(|line| source_leaves(source, source_field(known, line)))
}

fn source_leaves(source: &Source, field: Field) -> bool
    ensures { result ≡ untaken.source_leaves source.now field }
{
    match field {
        Field::Carried => true,
        Field::Title => source.title.is_some(),
        Field::Author => source.author.is_some(),
        Field::Publisher => source.publisher.is_some(),
        _ => false,
    }
}

fn holding_has_untaken(holding: &Holding) -> bool
    ensures { result ≡ judged.are_untaken fields.holding_field (untaken.holding_leaves holding.now)
        holding.now.carried }
{
    holding
        .carried
        .iter()
        .all(|line| holding_leaves(holding, holding_field(line)))
}

fn holding_leaves(holding: &Holding, field: Field) -> bool
    ensures { result ≡ untaken.holding_leaves holding.now field }
{
    match field {
        Field::Carried => true,
        Field::CallNumber => holding.call_number.is_some(),
        _ => false,
    }
}

fn person_has_untaken<K: Known>(known: &K, person: &Person) -> bool
    ensures { result ≡ judged.are_untaken (fields.person_field (K.known known.now)) (untaken.person_leaves person.now)
        person.now.carried }
{
    person
        .carried
        .iter()
        .all(|line| person_leaves(person, person_field(known, line)))
}

fn person_leaves(person: &Person, field: Field) -> bool
    ensures { result ≡ untaken.person_leaves person.now field }
{
    match field {
        Field::Carried => true,
        Field::Sex => person.sex.is_some(),
        _ => false,
    }
}

fn family_has_untaken<K: Known>(known: &K, family: &Family) -> bool
    ensures { result ≡ judged.are_untaken (fields.family_field (K.known known.now)) (λ x. untaken.family_leaves x)
        family.now.carried }
{
    family
        .carried
        .iter()
        .all(|line| is_carried(family_field(known, line)))
}

fn is_carried(field: Field) -> bool
    ensures { result ≡ untaken.family_leaves field }
{
    match field {
        Field::Carried => true,
        _ => false,
    }
}

fn citation_has_untaken(citation: &Citation) -> bool
    ensures { result ≡ judged.are_untaken fields.citation_field (untaken.citation_leaves citation.now)
        citation.now.carried }
{
    citation
        .carried
        .iter()
        .all(|line| citation_leaves(citation, citation_field(line)))
}

fn citation_leaves(citation: &Citation, field: Field) -> bool
    ensures { result ≡ untaken.citation_leaves citation.now field }
{
    match field {
        Field::Carried => true,
        Field::Page => citation.page.is_some(),
        Field::Quality => citation.quality.is_some(),
        _ => false,
    }
}

fn event_has_untaken<K: Known>(alloc: Global, known: &K, event: &Event) -> Result<bool, AllocError>
    ensures { IfOk result (λ b. b ≡ judged.has_untaken (K.known known.now) (K.known known.now)
        (kind.Event event.now)) }
{
    if !participants_have_untaken(&event.participants) {
        return Ok(false);
    }
    event_lines_untaken(alloc, known, event)
}

fn participants_have_untaken(participants: &[Participant]) -> bool
    ensures { result ≡ list_all (λ (p : model.Participant). judged.are_untaken fields.participant_field
        (untaken.participant_leaves p) p.carried) participants.now }
{
    participants.iter().all(participant_has_untaken)
}

fn participant_has_untaken(participant: &Participant) -> bool
    ensures { result ≡ judged.are_untaken fields.participant_field (untaken.participant_leaves participant.now)
        participant.now.carried }
{
    participant.carried.iter().all(|line| participant_leaves(participant, participant_field(line)))
}

fn participant_leaves(participant: &Participant, field: Field) -> bool
    ensures { result ≡ untaken.participant_leaves participant.now field }
{
    match field {
        Field::Carried => true,
        Field::Role => !participant.role.as_str().is_empty(),
        _ => false,
    }
}

fn event_lines_untaken<K: Known>(
    alloc: Global,
    known: &K,
    event: &Event,
) -> Result<bool, AllocError>
    ensures { IfOk result (λ b. b ≡ judged.are_untaken (fields.event_field (K.known known.now))
        (untaken.event_leaves event.now) event.now.carried) }
{
    'lines: for line in &event.carried {
        if !event_leaves_line(alloc, known, event, line)? {
            return Ok(false);
        }
    }
    Ok(true)
}

fn event_leaves_line<K: Known>(
    alloc: Global,
    known: &K,
    event: &Event,
    line: &Carried,
) -> Result<bool, AllocError>
    ensures { IfOk result (λ b. b ≡ untaken.event_leaves event.now (fields.event_field (K.known known.now) line.now)) }
{
    match event_row(alloc, known, line)? {
        EventRow::Place(path) => {
            drop(path);
            Ok(event.place.is_some())
        }
        EventRow::Line(field) => Ok(event_leaves(event, field)),
    }
}

fn event_leaves(event: &Event, field: Field) -> bool
    ensures { result ≡ untaken.event_leaves event.now field }
{
    match field {
        Field::Carried => true,
        Field::Date => event.date.is_some(),
        Field::Place => event.place.is_some(),
        _ => false,
    }
}
