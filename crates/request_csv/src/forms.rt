//! Which field of a row is to blame.

use crate::columns::{Column, MENTIONS, Use, column_at, use_of};
use crate::finding::{Finding, Place};
use crate::types::{is_sign, wanted};
use commands::Verb;
use csv::ByteRecord;
use record_fields::Role;

/// Where the fields after the verb begin.
const FIELDS: usize = 2;

/// The most bytes of a text.
const MOST: usize = 1_048_576;

/// The field at a place, from 0. `None`: there is none, or it is not UTF-8.
fn text_at(row: &ByteRecord, at: usize) -> Option<&str> {
    match row.get(at) {
        Some(field) => match str::from_utf8(field) {
            Ok(text) => Some(text),
            Err(_) => None,
        },
        None => None,
    }
}

/// The verb of a row. `None`: it has none.
fn verb_of(row: &ByteRecord) -> Option<Verb> {
    match text_at(row, 1) {
        Some(word) => Verb::from_word(word),
        None => None,
    }
}

/// The name and the use of the field at a place, from 0.
fn column_of(verb: Option<Verb>, at: usize) -> Option<Column> {
    match verb {
        Some(verb) if at >= FIELDS => column_at(verb, at - FIELDS),
        _ => None,
    }
}

/// The field at a place, from 0, and what it is. `None`: the verb has none there, or it is not UTF-8.
fn use_at(row: &ByteRecord, verb: Option<Verb>, at: usize) -> Option<(Use, &str)> {
    match (column_of(verb, at), text_at(row, at)) {
        (Some(column), Some(text)) => Some((said_use(row, column.what), text)),
        _ => None,
    }
}

/// What a field is; the value of a correction is what the word before it says.
fn said_use(row: &ByteRecord, what: Use) -> Use {
    match (what, text_at(row, FIELDS + 1)) {
        (Use::Value, Some(word)) => use_of(word),
        _ => what,
    }
}

/// The place of the field at a place from 0, with its name.
fn place(verb: Option<Verb>, at: usize) -> Place {
    let name = match at {
        0 => "token",
        1 => "verb",
        _ => match column_of(verb, at) {
            Some(column) => column.name,
            None => "one too many",
        },
    };
    Place {
        number: at.saturating_add(1),
        name,
    }
}

/// 90: a field that is not UTF-8, or else one that is not of its type.
pub(crate) fn bad_row(row: &ByteRecord) -> Finding {
    let verb = verb_of(row);
    for at in 0..row.len() {
        if text_at(row, at).is_none() {
            return Finding::Field {
                at: place(verb, at),
                what: "it is not UTF-8",
            };
        }
    }
    for at in 0..row.len() {
        if let Some(what) = type_fault(row, verb, at) {
            return Finding::Field {
                at: place(verb, at),
                what,
            };
        }
    }
    Finding::Row {
        what: "a field is not of its type",
    }
}

/// What is wrong with the type of a field. `None`: nothing.
fn type_fault(row: &ByteRecord, verb: Option<Verb>, at: usize) -> Option<&'static str> {
    match use_at(row, verb, at) {
        Some((what, text)) => wanted(what, text),
        None => None,
    }
}

/// 93: the token.
pub(crate) fn bad_token(row: &ByteRecord) -> Finding {
    let what = match text_at(row, 0) {
        Some("") => "it is empty",
        Some(token) if token.len() > 64 => "it has more than 64 characters",
        _ => "it has another character than those from ! to ~",
    };
    Finding::Field {
        at: place(None, 0),
        what,
    }
}

/// 91: the verb.
pub(crate) fn unknown_verb() -> Finding {
    Finding::Field {
        at: place(None, 1),
        what: "there is no such verb; verbs are small letters",
    }
}

/// 92: how many fields there are.
pub(crate) fn field_count(row: &ByteRecord) -> Finding {
    match verb_of(row) {
        Some(verb) => Finding::Count {
            verb,
            has: row.len().saturating_sub(FIELDS),
        },
        None => Finding::Row {
            what: "there is no field after the token",
        },
    }
}

/// 58: a field that is no text, or else what the verb forbids.
pub(crate) fn bad_text(row: &ByteRecord) -> Finding {
    let verb = verb_of(row);
    for at in FIELDS..row.len() {
        if let Some(what) = text_fault(row, verb, at) {
            return Finding::Field {
                at: place(verb, at),
                what,
            };
        }
    }
    match verb {
        Some(Verb::Place) => place_fault(row, verb),
        Some(Verb::Source) => Finding::Field {
            at: place(verb, FIELDS + 4),
            what: "it comes without a repository",
        },
        Some(Verb::Link) => Finding::Field {
            at: place(verb, FIELDS + 3),
            what: "it is empty",
        },
        Some(Verb::Event) => no_part(verb, FIELDS + 4),
        Some(Verb::Amend) => no_part(verb, FIELDS + 3),
        Some(Verb::Entry) => no_part(verb, FIELDS + 5),
        Some(Verb::Correct) => field(row, FIELDS + 2, forbidden_value(row)),
        _ => Finding::Row {
            what: "a field is no text",
        },
    }
}

/// Why a correction has no such value. The word of its field says which rule it breaks.
fn forbidden_value(row: &ByteRecord) -> &'static str {
    match text_at(row, FIELDS + 1) {
        Some("name") =>
            "it is empty or not normal, or with it a path passes the limits or has no part",
        Some("repository") => "its call number stands",
        Some("call number") => "there is no repository",
        _ => "no part of the path of this place has a name",
    }
}

fn no_part(verb: Option<Verb>, at: usize) -> Finding {
    Finding::Field {
        at: place(verb, at),
        what: "no part of the path of this place has a name, or a text is over 1,048,576 bytes",
    }
}

fn place_fault(row: &ByteRecord, verb: Option<Verb>) -> Finding {
    let what = match text_at(row, FIELDS) {
        Some("") => "it is empty",
        _ => "it is not normal, or its path passes the limits",
    };
    Finding::Field {
        at: place(verb, FIELDS),
        what,
    }
}

/// Why a field is no text. `None`: it is one, or is none that has to be one. A date may be longer than a text.
fn text_fault(row: &ByteRecord, verb: Option<Verb>, at: usize) -> Option<&'static str> {
    match use_at(row, verb, at) {
        Some((Use::Text, text)) if text.len() > MOST => Some("it has more than 1048576 bytes"),
        Some((Use::Text | Use::Date, text)) => character_fault(text),
        _ => None,
    }
}

fn character_fault(text: &str) -> Option<&'static str> {
    if text.as_bytes().iter().any(|b| *b == 0) {
        return Some("it has the character U+0000");
    }
    if text.as_bytes().iter().any(|b| *b == 13) {
        return Some("it has a carriage return (U+000D)");
    }
    None
}

/// 50 and 51: a number of a record. Where the row has two, either may be meant.
pub(crate) fn bad_number(row: &ByteRecord, what: &'static str) -> Finding {
    let verb = verb_of(row);
    let mut seen: Option<usize> = None;
    for at in FIELDS..row.len() {
        if is_record_number(row, verb, at) {
            match seen {
                None => seen = Some(at),
                Some(first) => {
                    return Finding::Fields {
                        first: place(verb, first),
                        word: "or",
                        second: place(verb, at),
                        what,
                    };
                }
            }
        }
    }
    match seen {
        Some(at) => Finding::Field {
            at: place(verb, at),
            what,
        },
        None => Finding::Row { what },
    }
}

/// 50: the same, or a token of which nothing is kept.
pub(crate) fn no_such(row: &ByteRecord) -> Finding {
    let verb = verb_of(row);
    for at in FIELDS..row.len() {
        if is_record_number(row, verb, at) && text_at(row, at).is_some_and(is_sign) {
            return bad_number(
                row,
                "nothing has this number, or no row that made something was done under this token",
            );
        }
    }
    bad_number(row, "nothing has this number")
}

fn is_record_number(row: &ByteRecord, verb: Option<Verb>, at: usize) -> bool {
    match use_at(row, verb, at) {
        Some((Use::Record | Use::RecordOrNone, text)) => !text.is_empty(),
        _ => false,
    }
}

/// 62: the tag of an event, or a role of an entry.
pub(crate) fn not_of_kind(row: &ByteRecord) -> Finding {
    let verb = verb_of(row);
    if verb == Some(Verb::Correct) {
        return field(
            row,
            FIELDS + 2,
            "it is no tag of the owner, or no role of the entry's kind",
        );
    }
    if verb != Some(Verb::Entry) {
        return Finding::Field {
            at: place(verb, FIELDS + 1),
            what: "the owner has no events of this tag",
        };
    }
    for at in (FIELDS + MENTIONS)..row.len() {
        if at % 2 == (FIELDS + MENTIONS) % 2 && is_no_role(row, at) {
            return Finding::Field {
                at: place(verb, at),
                what: "there is no such role",
            };
        }
    }
    Finding::Row {
        what: "a role of a mention is none of the kind of the entry",
    }
}

fn is_no_role(row: &ByteRecord, at: usize) -> bool {
    match text_at(row, at) {
        Some(word) => Role::from_word(word).is_none(),
        None => false,
    }
}

/// 59: the person.
pub(crate) fn already_in_family(row: &ByteRecord) -> Finding {
    let at = match verb_of(row) {
        Some(Verb::Partner) => FIELDS + 2,
        _ => FIELDS + 1,
    };
    field(row, at, "the family has this person already")
}

/// 64: the field of a correction, or the participant.
pub(crate) fn no_such_field(row: &ByteRecord) -> Finding {
    let what = match verb_of(row) {
        Some(Verb::Correct) => "the record has no such field, or not so many",
        _ => "the event has not so many participants",
    };
    field(row, FIELDS + 1, what)
}

/// 65: the person.
pub(crate) fn not_member(row: &ByteRecord) -> Finding {
    let what = match verb_of(row) {
        Some(Verb::Unchild) => "the family has no such child",
        _ => "the family has no such partner",
    };
    field(row, FIELDS + 1, what)
}

/// The field at a place, from 0, with what is wrong with it.
pub(crate) fn field(row: &ByteRecord, at: usize, what: &'static str) -> Finding {
    Finding::Field {
        at: place(verb_of(row), at),
        what,
    }
}

/// Two fields that are wrong together.
pub(crate) fn fields(row: &ByteRecord, first: usize, second: usize, what: &'static str) -> Finding {
    let verb = verb_of(row);
    Finding::Fields {
        first: place(verb, first),
        word: "and",
        second: place(verb, second),
        what,
    }
}
