//! The fields of a row after its verb: the name of each, and what it is.

use commands::Verb;

/// What a field is.
#[derive(Clone, Copy, Debug, PartialEq, Eq)]
pub(crate) enum Use {
    /// The number of a record or a slip.
    Record,
    /// The same, or nothing.
    RecordOrNone,
    /// The place of a mention or a participant.
    Number,
    Sex,
    SexOrNone,
    Partnership,
    QualityOrNone,
    Kind,
    Item,
    Text,
    Date,
    /// The word of a field of a record.
    Field,
    /// What that field has: the word says which of these.
    Value,
}

/// A field of a verb.
#[derive(Clone, Copy, Debug, PartialEq, Eq)]
pub(crate) struct Column {
    pub name: &'static str,
    pub what: Use,
}

const fn named(name: &'static str, what: Use) -> Column {
    Column { name, what }
}

/// The field of a verb at a place, from 0. `None`: the verb has no such field.
pub(crate) fn column_at(verb: Verb, at: usize) -> Option<Column> {
    match verb {
        Verb::Person | Verb::Name | Verb::Sex => of_person(verb, at),
        Verb::Family | Verb::Child | Verb::Merge => of_family(verb, at),
        Verb::Partner | Verb::Unpartner | Verb::Unchild => of_member(verb, at),
        Verb::Event | Verb::Amend | Verb::Participant | Verb::Unparticipant => of_event(verb, at),
        Verb::Place | Verb::Repo | Verb::Source | Verb::Citation => of_source(verb, at),
        Verb::Entry => of_entry(at),
        Verb::Link | Verb::Unlink => of_link(verb, at),
        Verb::Undo => first(at, "slip"),
        Verb::Remove => first(at, "number"),
        Verb::Correct => of_correction(at),
    }
}

fn first(at: usize, name: &'static str) -> Option<Column> {
    match at {
        0 => Some(named(name, Use::Record)),
        _ => None,
    }
}

fn of_correction(at: usize) -> Option<Column> {
    match at {
        0 => Some(named("number", Use::Record)),
        1 => Some(named("field", Use::Field)),
        2 => Some(named("value", Use::Value)),
        _ => None,
    }
}

/// What the value of a correction is, by the word of its field.
pub(crate) fn use_of(word: &str) -> Use {
    match word {
        "sex" => Use::SexOrNone,
        "quality" => Use::QualityOrNone,
        "date" => Use::Date,
        "place" | "repository" => Use::RecordOrNone,
        "item" => Use::Item,
        _ => Use::Text,
    }
}

fn of_person(verb: Verb, at: usize) -> Option<Column> {
    match (verb, at) {
        (Verb::Person, 0) => Some(named("name", Use::Text)),
        (Verb::Person, 1) => Some(named("sex", Use::SexOrNone)),
        (Verb::Name, 0) | (Verb::Sex, 0) => Some(named("person", Use::Record)),
        (Verb::Name, 1) => Some(named("name", Use::Text)),
        (Verb::Sex, 1) => Some(named("sex", Use::Sex)),
        _ => None,
    }
}

fn of_family(verb: Verb, at: usize) -> Option<Column> {
    match (verb, at) {
        (Verb::Family, 0) => Some(named("husband", Use::RecordOrNone)),
        (Verb::Family, 1) => Some(named("wife", Use::RecordOrNone)),
        (Verb::Child, 0) => Some(named("family", Use::Record)),
        (Verb::Child, 1) => Some(named("person", Use::Record)),
        (Verb::Merge, 0) => Some(named("person that stays", Use::Record)),
        (Verb::Merge, 1) => Some(named("person that is gone", Use::Record)),
        _ => None,
    }
}

fn of_member(verb: Verb, at: usize) -> Option<Column> {
    match (verb, at) {
        (_, 0) => Some(named("family", Use::Record)),
        (Verb::Partner, 1) => Some(named("role", Use::Partnership)),
        (Verb::Unpartner, 1) | (Verb::Unchild, 1) | (Verb::Partner, 2) => Some(named(
            "person",
            Use::Record,
        )),
        _ => None,
    }
}

fn of_event(verb: Verb, at: usize) -> Option<Column> {
    match (verb, at) {
        (Verb::Event, 0) => Some(named("owner", Use::Record)),
        (Verb::Event, 1) => Some(named("tag", Use::Text)),
        (Verb::Event, 2) | (Verb::Amend, 1) => Some(named("value", Use::Text)),
        (Verb::Event, 3) | (Verb::Amend, 2) => Some(named("date", Use::Date)),
        (Verb::Event, 4) | (Verb::Amend, 3) => Some(named("place", Use::RecordOrNone)),
        (Verb::Amend, 0) | (Verb::Participant, 0) | (Verb::Unparticipant, 0) => Some(named(
            "event",
            Use::Record,
        )),
        (Verb::Participant, 1) => Some(named("person", Use::Record)),
        (Verb::Participant, 2) => Some(named("role", Use::Text)),
        (Verb::Unparticipant, 1) => Some(named("participant", Use::Number)),
        _ => None,
    }
}

fn of_source(verb: Verb, at: usize) -> Option<Column> {
    match (verb, at) {
        (Verb::Place, 0) | (Verb::Repo, 0) => Some(named("name", Use::Text)),
        (Verb::Place, 1) => Some(named("parent", Use::RecordOrNone)),
        (Verb::Source, 0) => Some(named("title", Use::Text)),
        (Verb::Source, 1) => Some(named("author", Use::Text)),
        (Verb::Source, 2) => Some(named("publisher", Use::Text)),
        (Verb::Source, 3) => Some(named("repository", Use::RecordOrNone)),
        (Verb::Source, 4) => Some(named("call number", Use::Text)),
        (Verb::Citation, 0) => Some(named("owner", Use::Record)),
        (Verb::Citation, 1) => Some(named("source", Use::Record)),
        (Verb::Citation, 2) => Some(named("page", Use::Text)),
        (Verb::Citation, 3) => Some(named("quality", Use::QualityOrNone)),
        _ => None,
    }
}

/// Where the mentions of an entry begin.
pub(crate) const MENTIONS: usize = 7;

fn of_entry(at: usize) -> Option<Column> {
    match at {
        0 => Some(named("source", Use::Record)),
        1 => Some(named("kind", Use::Kind)),
        2 => Some(named("page", Use::Text)),
        3 => Some(named("item", Use::Item)),
        4 => Some(named("date", Use::Date)),
        5 => Some(named("place", Use::RecordOrNone)),
        6 => Some(named("text", Use::Text)),
        _ if at % 2 == MENTIONS % 2 => Some(named("role", Use::Text)),
        _ => Some(named("name", Use::Text)),
    }
}

fn of_link(verb: Verb, at: usize) -> Option<Column> {
    match (verb, at) {
        (Verb::Link, 0) | (Verb::Unlink, 0) => Some(named("entry", Use::Record)),
        (Verb::Link, 1) | (Verb::Unlink, 1) => Some(named("mention", Use::Number)),
        (Verb::Link, 2) => Some(named("person", Use::Record)),
        (Verb::Link, 3) => Some(named("reason", Use::Text)),
        _ => None,
    }
}

/// The names of a verb's fields, in their order.
pub(crate) fn names_of(verb: Verb) -> &'static str {
    match verb {
        Verb::Person => "name, sex",
        Verb::Name => "person, name",
        Verb::Sex => "person, sex",
        Verb::Family => "husband, wife",
        Verb::Child => "family, person",
        Verb::Event => "owner, tag, value, date, place",
        Verb::Amend => "event, value, date, place",
        Verb::Participant => "event, person, role",
        Verb::Place => "name, parent",
        Verb::Repo => "name",
        Verb::Source => "title, author, publisher, repository, call number",
        Verb::Citation => "owner, source, page, quality",
        Verb::Entry => {
            "source, kind, page, item, date, place, text, and role and name of each mention, 1 to 100"
        }
        Verb::Link => "entry, mention, person, reason",
        Verb::Unlink => "entry, mention",
        Verb::Merge => "person that stays, person that is gone",
        Verb::Undo => "slip",
        Verb::Remove => "number",
        Verb::Partner => "family, role, person",
        Verb::Unpartner => "family, person",
        Verb::Unchild => "family, person",
        Verb::Unparticipant => "event, participant",
        Verb::Correct => "number, field, value",
    }
}
