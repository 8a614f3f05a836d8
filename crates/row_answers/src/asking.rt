//! Rows that ask what an archive holds: of a state itself, and through a view.

use crate::reading::say_gone;
use archive_state::{Slip, State, View};
use receipts::Token;
use record_fields::{EntryKind, Item};
use record_kinds::Record;
use record_text::{RefusalKind, Text};
use row_words::{Answer, number, say_found, say_receipt, say_slip, text, token_of, word};
use std::alloc::{AllocError, Global};

/// What is asked.
#[derive(Drop)]
pub enum Question {
    Record(u32),
    Referrers(u32),
    /// The place of a path.
    Place(Text),
    Entry(Key),
    Receipt(Token),
    Slip(u32),
    Next,
    /// How many calls failed; only a view is asked, and tables answer nothing.
    Failures,
}

/// What a register entry is found by.
#[derive(Drop)]
pub struct Key {
    pub source: u32,
    pub kind: EntryKind,
    pub page: Text,
    pub item: Item,
}

/// The question of a row. 58, 90, 93: a word of it is no text, not of its kind, no token.
pub fn question_of(alloc: Global, words: &[String]) -> Result<Question, RefusalKind> {
    let at = number(words, 2);
    match word(words, 1) {
        "record" => Ok(Question::Record(at)),
        "referrers" => Ok(Question::Referrers(at)),
        "place" => Ok(Question::Place(text(alloc, word(words, 2))?)),
        "entry" => Ok(Question::Entry(key_of(alloc, words)?)),
        "receipt" => Ok(Question::Receipt(token_of(alloc, word(words, 2))?)),
        "slip" => Ok(Question::Slip(at)),
        "next" => Ok(Question::Next),
        _ => Ok(Question::Failures),
    }
}

/// The key of a row. 90: a word is not of its kind.
fn key_of(alloc: Global, words: &[String]) -> Result<Key, RefusalKind> {
    let Some(kind) = EntryKind::from_word(word(words, 3)) else {
        return Err(RefusalKind::BadRow);
    };
    let Some(item) = Item::new(number(words, 5)) else {
        return Err(RefusalKind::BadRow);
    };
    let page = text(alloc, word(words, 4))?;
    Ok(Key {
        source: number(words, 2),
        kind,
        page,
        item,
    })
}

/// Says what the state itself answers.
pub(crate) fn ask_state(
    alloc: Global,
    state: &State,
    question: &Question,
    out: &mut Answer,
) -> Result<(), RefusalKind> {
    match question {
        Question::Record(at) => Ok(say_found(alloc, state.record(*at), out)?),
        Question::Referrers(at) => {
            out.say_numbers("referrers", &state.referrers(alloc, *at)?);
            Ok(())
        }
        Question::Slip(at) => Ok(say_slip(alloc, state.slip(*at), out)?),
        _ => {
            ask_index(state, question, out);
            Ok(())
        }
    }
}

/// Says what the state answers without memory.
fn ask_index(state: &State, question: &Question, out: &mut Answer) {
    match question {
        Question::Place(path) => out.say_number("", state.place_at(path)),
        Question::Entry(key) => {
            out.say_number(
                "",
                state.entry_at(key.source, key.kind, &key.page, key.item),
            )
        }
        Question::Receipt(token) => say_receipt(state.receipt(token), out),
        _ => out.say_count(state.next()),
    }
}

/// Says what a view answers.
pub(crate) fn ask<V: View>(
    alloc: Global,
    view: &mut V,
    question: &Question,
    out: &mut Answer,
) -> Result<(), RefusalKind> {
    match question {
        Question::Record(at) => say_record_of(alloc, view.record_at(alloc, *at), out),
        Question::Slip(at) => say_slip_of(alloc, view.slip(alloc, *at), out),
        Question::Referrers(at) => say_referrers(view.referrers(alloc, *at), out),
        Question::Place(path) => say_number_of(view.place_at(alloc, path), out),
        Question::Entry(key) => {
            let found = view.entry_at(alloc, key.source, key.kind, &key.page, key.item);
            say_number_of(found, out)
        }
        Question::Receipt(token) => {
            say_receipt(view.receipt(alloc, token)?.as_ref(), out);
            Ok(())
        }
        Question::Next => {
            out.say_count(view.next(alloc)?);
            Ok(())
        }
        Question::Failures => {
            out.say_count(view.failures());
            Ok(())
        }
    }
}

/// Says the lines of a record that was answered.
pub fn say_record_of(
    alloc: Global,
    found: Result<Option<Record>, RefusalKind>,
    out: &mut Answer,
) -> Result<(), RefusalKind> {
    Ok(say_gone(alloc, found?, out)?)
}

/// Says a slip that was answered.
pub fn say_slip_of(
    alloc: Global,
    found: Result<Option<Slip>, RefusalKind>,
    out: &mut Answer,
) -> Result<(), RefusalKind> {
    Ok(say_gone_slip(alloc, found?, out)?)
}

/// Says the numbers of referrers that were answered.
pub fn say_referrers(
    found: Result<Vec<u32>, RefusalKind>,
    out: &mut Answer,
) -> Result<(), RefusalKind> {
    out.say_numbers("referrers", &found?);
    Ok(())
}

/// Says a number that was answered, or that there is none.
pub fn say_number_of(
    found: Result<Option<u32>, RefusalKind>,
    out: &mut Answer,
) -> Result<(), RefusalKind> {
    out.say_number("", found?);
    Ok(())
}

/// Says a slip that is given away.
pub(crate) fn say_gone_slip(
    alloc: Global,
    gone: Option<Slip>,
    out: &mut Answer,
) -> Result<(), AllocError> {
    let said = say_slip(alloc, gone.as_ref(), out);
    drop(gone);
    said
}
