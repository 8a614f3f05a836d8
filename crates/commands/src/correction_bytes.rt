//! The bytes of corrections.

ghost use Rattle.std.specs.Prelude.{◌≡◌, ◌++◌, IfOk, decimal, string_bytes};
ghost use Rattle.corrections.specs.Fields.{field_word, text_field_word};
ghost use Rattle.commands.specs.Bytes.{bytes_of, given_words, value_words};
ghost use Rattle.commands.specs.declared.command.Command.TheVariants as command;
ghost use Rattle.commands.specs.declared.row_command.RowCommand.TheVariants as row_command;

use crate::correction::{GivenCorrection, GivenValue};
use crate::digest::{date_or_empty, digit_or_empty, letter_or_empty, number_or_empty};
use crate::rows::verb_row;
use crate::verb::Verb;
use corrections::{Field as RecordField, Position, TextField};
use std::alloc::{AllocError, Global};

pub(crate) fn correct_bytes(
    alloc: Global,
    number: u32,
    given: &GivenCorrection,
) -> Result<Vec<u8>, AllocError>
    ensures { IfOk result (λ bytes. bytes.items ≡ bytes_of (command.Row (row_command.Correct number given.now))) }
{
    let number = number.to_string(alloc)?;
    let field = word_of(alloc, given.field())?;
    let value = words_of(alloc, given)?;
    let fields = [number.as_str(), field.as_str(), value.as_str()];
    verb_row(alloc, Verb::Correct, &fields)
}

/// The word of a field.
fn word_of(alloc: Global, field: RecordField) -> Result<String, AllocError>
    ensures { IfOk result (λ word. string_bytes word ≡ field_word field) }
{
    match field {
        RecordField::Sex => String::from_str(alloc, "sex"),
        RecordField::Tag => String::from_str(alloc, "tag"),
        RecordField::Date => String::from_str(alloc, "date"),
        RecordField::Place => String::from_str(alloc, "place"),
        RecordField::Repository => String::from_str(alloc, "repository"),
        RecordField::Quality => String::from_str(alloc, "quality"),
        RecordField::Item => String::from_str(alloc, "item"),
        RecordField::Text(field) => text_word(alloc, field),
    }
}

/// The word of a field whose value is a text.
fn text_word(alloc: Global, field: TextField) -> Result<String, AllocError>
    ensures { IfOk result (λ word. string_bytes word ≡ text_field_word field) }
{
    match field {
        TextField::Value => String::from_str(alloc, "value"),
        TextField::Name => String::from_str(alloc, "name"),
        TextField::Title => String::from_str(alloc, "title"),
        TextField::Author => String::from_str(alloc, "author"),
        TextField::Publisher => String::from_str(alloc, "publisher"),
        TextField::CallNumber => String::from_str(alloc, "call number"),
        TextField::Page => String::from_str(alloc, "page"),
        TextField::Text => String::from_str(alloc, "text"),
        TextField::NameAt(at) => placed_word(alloc, "name ", at),
        TextField::RoleAt(at) => placed_word(alloc, "role ", at),
    }
}

/// A word that ends with a place in a list.
fn placed_word(alloc: Global, front: &str, at: Position) -> Result<String, AllocError>
    ensures { IfOk result (λ word. string_bytes word ≡ front.now ++ decimal at.number) }
{
    let number = at.number.to_string(alloc)?;
    let mut word = String::from_str(alloc, front)?;
    word.push_str(number.as_str())?;
    Ok(word)
}

/// The words of a correction's value.
fn words_of(alloc: Global, given: &GivenCorrection) -> Result<String, AllocError>
    ensures { IfOk result (λ words. string_bytes words ≡ given_words given.now) }
{
    match given {
        GivenCorrection::Tag(words) => String::from_str(alloc, words.as_str()),
        GivenCorrection::Value(value) => value_words(alloc, value),
    }
}

fn value_words(alloc: Global, value: &GivenValue) -> Result<String, AllocError>
    ensures { IfOk result (λ words. string_bytes words ≡ value_words value.now) }
{
    match value {
        GivenValue::Sex(sex) => String::from_str(alloc, letter_or_empty(*sex)),
        GivenValue::Date(date) => String::from_str(alloc, date_or_empty(date)),
        GivenValue::Place(number) => number_or_empty(alloc, *number),
        GivenValue::Repository(number) => number_or_empty(alloc, *number),
        GivenValue::Quality(quality) => String::from_str(alloc, digit_or_empty(*quality)),
        GivenValue::Item(item) => item.number.to_string(alloc),
        GivenValue::Text(_, words) => String::from_str(alloc, words.as_str()),
    }
}
