//! What is wrong with a row, and its words.

use crate::columns::names_of;
use commands::Verb;
use std::alloc::{AllocError, Global};

/// A field of a row: its place from 1, the token's being 1, and its name.
#[derive(Clone, Copy, Debug, PartialEq, Eq)]
pub(crate) struct Place {
    pub number: usize,
    pub name: &'static str,
}

/// What is wrong with a row.
#[derive(Clone, Copy, Debug, PartialEq, Eq)]
pub(crate) enum Finding {
    /// No single field is to blame.
    Row {
        what: &'static str,
    },
    /// This field is.
    Field {
        at: Place,
        what: &'static str,
    },
    /// One of these two is, and the row does not tell which (`or`), or both are together (`and`).
    Fields {
        first: Place,
        word: &'static str,
        second: Place,
        what: &'static str,
    },
    /// The count of the fields after the verb.
    Count {
        verb: Verb,
        has: usize,
    },
}

impl Finding {
    /// In words, without a line end.
    pub(crate) fn words(self, alloc: Global) -> Result<String, AllocError> {
        match self {
            Finding::Row { what } => String::from_str(alloc, what),
            Finding::Field { at, what } => field_words(alloc, at, what),
            Finding::Fields {
                first,
                word,
                second,
                what,
            } => fields_words(alloc, first, word, second, what),
            Finding::Count { verb, has } => count_words(alloc, verb, has),
        }
    }
}

fn field_words(alloc: Global, at: Place, what: &str) -> Result<String, AllocError> {
    let Place { number, name } = at;
    format!(in alloc; "field {number} ({name}): {what}")
}

fn fields_words(
    alloc: Global,
    first: Place,
    word: &str,
    second: Place,
    what: &str,
) -> Result<String, AllocError> {
    let Place { number, name } = first;
    let (other, title) = (second.number, second.name);
    format!(in alloc; "field {number} ({name}) {word} field {other} ({title}): {what}")
}

fn count_words(alloc: Global, verb: Verb, has: usize) -> Result<String, AllocError> {
    let word = verb.as_str();
    let names = names_of(verb);
    format!(in alloc; "the fields of {word} are {names}; after the verb the row has {has}")
}
