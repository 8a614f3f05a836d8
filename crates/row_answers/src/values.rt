//! Values made of words, and written again.

use receipts::Token;
use record_fields::{Date, EntryKind, Item, Partnership, Quality, Role, Sex};
use record_text::{RefusalKind, Tag, Text, display, surname, surname_key};
use row_words::{Answer, optional_text};
use std::alloc::{AllocError, Global};
use stored_lines::copied;

/// Says what a word is as a value of that kind, or that it is none.
pub(crate) fn say_value(
    alloc: Global,
    kind: &str,
    word: &str,
    out: &mut Answer,
) -> Result<(), AllocError> {
    match kind {
        "text" => say_as_text(alloc, word, out),
        "tag" => say_as_tag(alloc, word, out),
        "token" => say_as_token(alloc, word, out),
        "date" => say_date(alloc, Date::try_new(alloc, word), out),
        "item" => say_item(alloc, Item::of_words(alloc, word), out),
        "number" => say_item(alloc, Ok(item_of(word)), out),
        "first" => say_item(alloc, Ok(Some(Item::first())), out),
        "display" => say_made(display(alloc, word), out),
        "key" => say_made(surname_key(alloc, word), out),
        "surname" => {
            out.say_words("", surname(word));
            Ok(())
        }
        _ => {
            say_named(kind, word, out);
            Ok(())
        }
    }
}

/// A string that was made.
fn say_made(made: Result<String, AllocError>, out: &mut Answer) -> Result<(), AllocError> {
    out.say_words("", made?.as_str());
    Ok(())
}

/// A text and its copy.
fn say_as_text(alloc: Global, word: &str, out: &mut Answer) -> Result<(), AllocError> {
    match Text::try_new(String::from_str(alloc, word)?) {
        Some(text) => {
            out.say_words("", text.as_str());
            out.say_words("", text.copy(alloc)?.as_str());
        }
        None => out.say_line("none"),
    }
    Ok(())
}

/// A tag and its copy.
fn say_as_tag(alloc: Global, word: &str, out: &mut Answer) -> Result<(), AllocError> {
    match Tag::try_new(String::from_str(alloc, word)?) {
        Some(tag) => {
            out.say_words("", tag.as_str());
            out.say_words("", tag.copy(alloc)?.as_str());
        }
        None => out.say_line("none"),
    }
    Ok(())
}

/// A token, its copy and its string.
fn say_as_token(alloc: Global, word: &str, out: &mut Answer) -> Result<(), AllocError> {
    match Token::try_new(String::from_str(alloc, word)?) {
        Some(token) => {
            out.say_words("", token.as_str());
            out.say_words("", token.copy(alloc)?.as_str());
            out.say_words("", token.into_string().as_str());
        }
        None => out.say_line("none"),
    }
    Ok(())
}

/// A date; the date that its text is, and the one of its value; its copy.
fn say_date(
    alloc: Global,
    made: Result<Option<Date>, AllocError>,
    out: &mut Answer,
) -> Result<(), AllocError> {
    match made? {
        Some(date) => {
            say_spelt(Ok(Some(date.copy(alloc)?)), out)?;
            say_spelt(of_its_text(alloc, &date), out)?;
            say_spelt(of_its_value(alloc, &date), out)?;
            say_spelt(Ok(Some(date)), out)
        }
        None => say_spelt(Ok(None), out),
    }
}

fn say_spelt(made: Result<Option<Date>, AllocError>, out: &mut Answer) -> Result<(), AllocError> {
    match made? {
        Some(date) => out.say_words("", date.as_str()),
        None => out.say_line("none"),
    }
    Ok(())
}

fn of_its_text(alloc: Global, date: &Date) -> Result<Option<Date>, AllocError> {
    let text = date.text(alloc)?;
    Date::of_text(alloc, &text)
}

fn of_its_value(alloc: Global, date: &Date) -> Result<Option<Date>, AllocError> {
    let value = date.value(alloc)?;
    Date::of_value(alloc, &value)
}

/// The item of a number of any size.
fn item_of(word: &str) -> Option<Item> {
    Item::new(word.parse::<u32>().ok()?)
}

/// The number of an item and its text.
fn say_item(
    alloc: Global,
    made: Result<Option<Item>, AllocError>,
    out: &mut Answer,
) -> Result<(), AllocError> {
    match made? {
        Some(item) => {
            out.say_number("", Some(item.number));
            out.say_words("", item.text(alloc)?.as_str());
        }
        None => out.say_line("none"),
    }
    Ok(())
}

/// A value that has a word of its own: its name and its word.
fn say_named(kind: &str, word: &str, out: &mut Answer) {
    match kind {
        "quality" => match Quality::from_word(word) {
            Some(quality) => out.say_named(&quality, quality.as_str()),
            None => out.say_line("none"),
        },
        "sex" => match Sex::from_word(word) {
            Some(sex) => out.say_named(&sex, sex.as_str()),
            None => out.say_line("none"),
        },
        "partnership" => match Partnership::from_word(word) {
            Some(partnership) => out.say_named(&partnership, partnership.as_str()),
            None => out.say_line("none"),
        },
        "kind" => match EntryKind::from_word(word) {
            Some(kind) => out.say_named(&kind, kind.as_str()),
            None => out.say_line("none"),
        },
        "role" => match Role::from_word(word) {
            Some(role) => out.say_named(&role, role.as_str()),
            None => out.say_line("none"),
        },
        _ => out.say_line("no such row"),
    }
}

/// Says the copy of a text after the sign `=`, or of none.
pub(crate) fn say_copied(alloc: Global, word: &str, out: &mut Answer) -> Result<(), RefusalKind> {
    let text = optional_text(alloc, word)?;
    out.say_text("", &copied(alloc, &text)?);
    Ok(())
}
