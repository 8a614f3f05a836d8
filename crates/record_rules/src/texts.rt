//! The texts in a record.

ghost use Rattle.std.specs.Prelude.{◌≡◌, ◌++◌, ◌↔◌, IsTrue, map};
ghost use Rattle.std.specs.List.{list_all};
ghost use Rattle.stored_lines.specs.Line.{Line};
ghost use Rattle.record_kinds.specs.Model as model;
ghost use Rattle.record_text.specs.Text.{IsText};
ghost use Rattle.record_shapes.specs.Lists.{EachOf};
ghost use Rattle.archive_state.specs.Texts as texts;
ghost use Rattle.record_rules.specs.Judged as judged;

use crate::lines::{Judge, carried_fit};
use record_fields::Date;
use record_kinds::{
    Entry, Event, Holding, Link, Mention, Name, Participant, Person, Record, Source,
};
use record_text::Text;
use stored_lines::{Carried, Value};

/// The most bytes that a text has.
const MAX_BYTES: usize = 1_048_576;

/// Whether each text in the record is UTF-8 without U+0000 and CR, of at most 1,048,576 bytes. Our types see to it, but
/// for dates, whose spelling is looked at.
pub fn has_texts(record: &Record) -> bool
    ensures { IsTrue result ↔ EachOf IsText (texts.own_texts «record».now ++ texts.carried_texts «record».now) }
{
    are_texts(record)
}

#[tactic(auto, using(crate::proofs::Leaves::texts_all))]
fn are_texts(record: &Record) -> bool
    ensures { result ≡ judged.has_texts «record».now }
{
    has_own_texts(record) && carried_fit(&Texts, record)
}

/// The same of the texts that are fields.
fn has_own_texts(record: &Record) -> bool
    ensures { result ≡ list_all judged.is_text (texts.own_texts «record».now) }
{
    match record {
        Record::Place(place) => is_text(&place.name),
        Record::Repo(repo) => is_text_if_there(&repo.name),
        Record::Source(source) => source_has_texts(source),
        Record::Person(person) => person_has_texts(person),
        Record::Family(_) => true,
        Record::Citation(citation) => is_text_if_there(&citation.page),
        Record::Event(event) => event_has_texts(event),
        Record::Entry(entry) => entry_has_texts(entry),
        Record::Other(other) => is_text_value(&other.value),
    }
}

#[tactic(auto, using(crate::proofs::Leaves::name_texts))]
fn person_has_texts(person: &Person) -> bool
    ensures { result ≡ list_all judged.is_text (map (λ (n : model.Name). n.text) person.now.names) }
{
    names_have_texts(&person.names)
}

fn names_have_texts(names: &[Name]) -> bool
    ensures { result ≡ list_all (λ (n : model.Name). judged.is_text n.text) names.now }
{
    names.iter().all(|name| is_text(&name.text))
}

#[tactic(auto, using(crate::proofs::Leaves::source_all))]
fn source_has_texts(source: &Source) -> bool
    ensures { result ≡ list_all judged.is_text (texts.source_texts source.now) }
{
    is_text_if_there(&source.title)
        && is_text_if_there(&source.author)
        && is_text_if_there(&source.publisher)
        && holdings_have_texts(&source.holdings)
}

fn holdings_have_texts(holdings: &[Holding]) -> bool
    ensures { result ≡ list_all (λ (h : model.Holding). list_all judged.is_text (texts.there h.call_number))
        holdings.now }
{
    holdings
        .iter()
        .all(|holding| is_text_if_there(&holding.call_number))
}

#[tactic(auto, using(crate::proofs::Leaves::event_all))]
fn event_has_texts(event: &Event) -> bool
    ensures { result ≡ list_all judged.is_text (texts.event_texts event.now) }
{
    is_text(&event.value) && is_text_date(&event.date) && roles_are_texts(&event.participants)
}

fn roles_are_texts(participants: &[Participant]) -> bool
    ensures { result ≡ list_all (λ (p : model.Participant). judged.is_text p.role) participants.now }
{
    participants
        .iter()
        .all(|participant| is_text(&participant.role))
}

#[tactic(auto, using(crate::proofs::Flat::all_both, crate::proofs::Leaves::mentions_texts))]
fn entry_has_texts(entry: &Entry) -> bool
    ensures { result ≡ list_all judged.is_text (texts.entry_texts entry.now) }
{
    is_text(&entry.page)
        && is_text(&entry.text)
        && is_text_date(&entry.date)
        && mentions_have_texts(&entry.mentions)
}

fn mentions_have_texts(mentions: &[Mention]) -> bool
    ensures { result ≡ list_all (λ (m : model.Mention). list_all judged.is_text (texts.mention_texts m)) mentions.now }
{
    mentions.iter().all(mention_has_texts)
}

fn mention_has_texts(mention: &Mention) -> bool
    ensures { result ≡ list_all judged.is_text (texts.mention_texts mention.now) }
{
    is_text(&mention.name) && is_text_reason(&mention.link)
}

fn is_text_reason(link: &Option<Link>) -> bool
    ensures { result ≡ list_all judged.is_text (texts.reason_texts link.now) }
{
    match link {
        Some(link) => is_text(&link.reason),
        None => true,
    }
}

fn is_text_date(date: &Option<Date>) -> bool
    ensures { result ≡ list_all judged.is_text (texts.date_texts date.now) }
{
    match date {
        Some(date) => is_text_str(date.as_str()),
        None => true,
    }
}

fn is_text_if_there(text: &Option<Text>) -> bool
    ensures { result ≡ list_all judged.is_text (texts.there text.now) }
{
    match text {
        Some(text) => is_text(text),
        None => true,
    }
}

fn is_text_value(value: &Value) -> bool
    ensures { result ≡ list_all judged.is_text (texts.value_texts «value».now) }
{
    match value {
        Value::Text(text) => is_text(text),
        Value::Ref(_) => true,
    }
}

/// A `Text` is one: nothing is looked at.
#[tactic(auto, using(crate::proofs::Leaves::text_passes))]
fn is_text(text: &Text) -> bool
    ensures { result ≡ judged.is_text text.now }
{
    let _ = text.as_str();
    true
}

fn is_text_str(words: &str) -> bool
    ensures { result ≡ judged.is_text words.now }
{
    is_plain(words)
}

fn is_plain(words: &str) -> bool
    ensures { IsTrue result ↔ IsText words.now }
{
    let bytes = words.as_bytes();
    bytes.len() <= MAX_BYTES && !bytes.contains(&0) && !bytes.contains(&b'\r')
}

/// What is asked of the value of a line.
struct Texts;

impl Judge for Texts {
    ghost fit = { λ j (l : Line). list_all judged.is_text (texts.value_texts l.value) };

    fn fits(&self, line: &Carried) -> bool {
        is_text_value(&line.value)
    }
}
