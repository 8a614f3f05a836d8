//! The fields of records, the word of each, and which a record has.

ghost use Rattle.std.specs.Prelude.{◌≡◌, ◌≢◌, ◌++◌, IfOk, MatchOption, decimal};
ghost use Rattle.corrections.specs.Fields as fields;
ghost use Rattle.corrections.specs.declared.field.Field.{Field};
ghost use Rattle.corrections.specs.declared.position.Position.{Position};

use crate::position::Position;
use record_kinds::Record;
use std::alloc::{AllocError, Global};

/// A field of records, as a correction names it. Its word says what type its value has: each variant but `Tag` and
/// `Text` has one of its own, and these two have a text.
#[derive(Clone, Copy, Debug, PartialEq, Eq)]
pub enum Field {
    /// The sex of a person.
    Sex,
    /// What happened in an event.
    Tag,
    /// The date of an event or an entry.
    Date,
    /// The number of the place of an event or an entry.
    Place,
    /// The number of the first repository of a source.
    Repository,
    /// The quality of a citation.
    Quality,
    /// The number of an entry on its page.
    Item,
    Text(TextField),
}

/// A field whose value is a text.
#[derive(Clone, Copy, Debug, PartialEq, Eq)]
pub enum TextField {
    /// What stands after the tag of an event.
    Value,
    /// The name of a place or a repository.
    Name,
    /// The title of a source.
    Title,
    Author,
    Publisher,
    /// The call number in the first repository of a source.
    CallNumber,
    /// The page of a citation or an entry.
    Page,
    /// What stands in the register.
    Text,
    /// The name of a person or a mention, by its place in the list.
    NameAt(Position),
    /// The role of a mention, by its place in the list.
    RoleAt(Position),
}

impl Field {
    /// The field whose word it is. `None`: it is the word of none. Refused only if there is no memory.
    pub fn from_word(alloc: Global, word: &str) -> Result<Option<Field>, AllocError>
        ensures { IfOk result (λ found. MatchOption found
            ((f : Field) → word.now ≢ fields.field_word f) (λ f. word.now ≡ fields.field_word f)) }
    {
        if let Some(field) = Field::of_plain_word(word) {
            return Ok(Some(field));
        }
        if let Some(place) = place_after(alloc, "name ", word)? {
            return Ok(Some(Field::Text(TextField::NameAt(place))));
        }
        if let Some(place) = place_after(alloc, "role ", word)? {
            return Ok(Some(Field::Text(TextField::RoleAt(place))));
        }
        Ok(None)
    }

    /// The field without a place in a list whose word it is.
    fn of_plain_word(word: &str) -> Option<Field>
        ensures { result ≡ fields.plain_field_of word.now }
    {
        match word {
            "sex" => Some(Field::Sex),
            "tag" => Some(Field::Tag),
            "date" => Some(Field::Date),
            "place" => Some(Field::Place),
            "repository" => Some(Field::Repository),
            "quality" => Some(Field::Quality),
            "item" => Some(Field::Item),
            "value" => Some(Field::Text(TextField::Value)),
            "name" => Some(Field::Text(TextField::Name)),
            "title" => Some(Field::Text(TextField::Title)),
            "author" => Some(Field::Text(TextField::Author)),
            "publisher" => Some(Field::Text(TextField::Publisher)),
            "call number" => Some(Field::Text(TextField::CallNumber)),
            "page" => Some(Field::Text(TextField::Page)),
            "text" => Some(Field::Text(TextField::Text)),
            _ => None,
        }
    }
}

/// The place in a list that stands after a front. `None`: the word is no front with a place after it.
fn place_after(alloc: Global, front: &str, word: &str) -> Result<Option<Position>, AllocError>
    ensures { IfOk result (λ found. MatchOption found
        ((p : Position) → word.now ≢ front.now ++ decimal p.number) (λ p. word.now ≡ front.now ++ decimal p.number)) }
{
    match word.strip_prefix(front) {
        Some(words) => Position::of_words(alloc, words),
        None => Ok(None),
    }
}

/// Whether the record has the field.
pub fn has_field(record: &Record, field: Field) -> bool
    ensures { result ≡ fields.has_field «record».now field }
{
    match record {
        Record::Person(person) => has_person_field(person.names.len(), field),
        Record::Event(_) => has_event_field(field),
        Record::Place(_) | Record::Repo(_) => matches!(field, Field::Text(TextField::Name)),
        Record::Source(_) => has_source_field(field),
        Record::Citation(_) => { matches!(field, Field::Quality | Field::Text(TextField::Page)) }
        Record::Entry(entry) => has_entry_field(entry.mentions.len(), field),
        Record::Family(_) | Record::Other(_) => false,
    }
}

/// Whether a person of so many names has the field.
fn has_person_field(names: usize, field: Field) -> bool
    ensures { result ≡ fields.has_person_field names field }
{
    match field {
        Field::Sex => true,
        Field::Text(TextField::NameAt(at)) => at.number as usize <= names,
        _ => false,
    }
}

fn has_event_field(field: Field) -> bool
    ensures { result ≡ fields.has_event_field field }
{
    matches!(
        field,
        Field::Tag | Field::Date | Field::Place | Field::Text(TextField::Value)
    )
}

fn has_source_field(field: Field) -> bool
    ensures { result ≡ fields.has_source_field field }
{
    match field {
        Field::Repository => true,
        Field::Text(text) => matches!(
            text,
            TextField::Title | TextField::Author | TextField::Publisher | TextField::CallNumber
        ),
        _ => false,
    }
}

/// Whether an entry of so many mentions has the field.
fn has_entry_field(mentions: usize, field: Field) -> bool
    ensures { result ≡ fields.has_entry_field mentions field }
{
    match field {
        Field::Item | Field::Date | Field::Place => true,
        Field::Text(TextField::Page | TextField::Text) => true,
        Field::Text(TextField::NameAt(at) | TextField::RoleAt(at)) => at.number as usize
            <= mentions,
        _ => false,
    }
}
