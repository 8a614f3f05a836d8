//! What a field of a row has to be.

use crate::columns::Use;
use record_fields::{EntryKind, Item, Partnership, Quality, Sex};

/// What is wanted of a field that it is not. `None`: it is all that is wanted.
pub(crate) fn wanted(what: Use, text: &str) -> Option<&'static str> {
    match what {
        Use::Record | Use::RecordOrNone if is_sign(text) => token_fault(text),
        Use::Record | Use::Number if !is_number(text) => Some("no number from 1 to 4294967295"),
        Use::RecordOrNone if !text.is_empty() && !is_number(text) => Some(
            "neither empty nor a number from 1 to 4294967295",
        ),
        Use::Sex if Sex::from_word(text).is_none() => Some("none of M, F and U"),
        Use::SexOrNone if !text.is_empty() && Sex::from_word(text).is_none() => Some(
            "neither empty nor M, F or U",
        ),
        Use::Partnership if Partnership::from_word(text).is_none() => Some(
            "neither husband nor wife",
        ),
        Use::QualityOrNone if !text.is_empty() && Quality::from_word(text).is_none() => Some(
            "neither empty nor 0, 1, 2 or 3",
        ),
        Use::Kind if EntryKind::from_word(text).is_none() => Some(
            "none of BAPTISM, MARRIAGE and BURIAL",
        ),
        Use::Item if !is_item(text) => Some("no number from 1 to 999999"),
        Use::Field if !is_field(text) => Some("no field of a record"),
        _ => None,
    }
}

/// Whether a field begins as a reference does.
pub(crate) fn is_sign(text: &str) -> bool {
    text.as_bytes().first() == Some(&b'@')
}

/// Why a field that begins with `@` is no reference. `None`: it is one.
fn token_fault(text: &str) -> Option<&'static str> {
    let printed = text.as_bytes().iter().all(|b| b'!' <= *b && *b <= b'~');
    if printed && 1 < text.len() && text.len() <= 65 {
        None
    } else {
        Some("no token is after the @")
    }
}

/// Whether a field is 1 to 10 digits of value 1 to 4,294,967,295.
fn is_number(text: &str) -> bool {
    number_of(text).is_some()
}

/// Whether a field is such a number of at most 999,999.
fn is_item(text: &str) -> bool {
    match number_of(text) {
        Some(number) => Item::new(number).is_some(),
        None => false,
    }
}

fn number_of(text: &str) -> Option<u32> {
    if text.len() > 10 || !text.as_bytes().iter().all(|b| b.is_ascii_digit()) {
        return None;
    }
    match text.parse::<u32>() {
        Ok(number) if number != 0 => Some(number),
        _ => None,
    }
}

/// Whether a field is the word of a field of records.
fn is_field(text: &str) -> bool {
    match text {
        "sex" | "tag" | "date" | "place" | "repository" | "quality" | "item" | "value" => true,
        "name" | "title" | "author" | "publisher" | "call number" | "page" | "text" => true,
        _ => is_placed(text, "name ") || is_placed(text, "role "),
    }
}

/// Whether these words are the front and a place in a list, from 1.
fn is_placed(text: &str, front: &str) -> bool {
    match text.strip_prefix(front) {
        Some(place) => place.as_bytes().first() != Some(&b'0') && is_number(place),
        None => false,
    }
}
