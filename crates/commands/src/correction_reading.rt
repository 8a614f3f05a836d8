//! Rows of corrections, read as commands.

ghost use Rattle.std.specs.Prelude.{◌≡◌, ◌∷◌, []};
ghost use Rattle.record_text.specs.declared.refusal.RefusalKind.TheVariants.{BadRow};
ghost use Rattle.commands.specs.Dated.{given_of};
ghost use Rattle.commands.specs.Rows.{Decided, field_in, given_in, ok_or, read_fields};
ghost use Rattle.commands.specs.declared.verb.Verb.TheVariants as verb;

use crate::correction::{GivenCorrection, GivenValue};
use crate::entry_reading::item_in;
use crate::reading::{
    date_or_none, number_in, number_or_none, quality_or_none, sex_or_none, words_in,
};
use crate::row_command::RowCommand;
use corrections::Field as RecordField;
use record_text::RefusalKind;
use std::alloc::Global;

pub(crate) fn correct(
    alloc: Global,
    number: &str,
    field: &str,
    value: &str,
) -> Result<RowCommand, RefusalKind>
    ensures { Decided result (λ r. r
        ≡ read_fields given_of verb.Correct (number.now ∷ field.now ∷ value.now ∷ [])) }
{
    let number = number_in(number)?;
    let field = field_in(alloc, field)?;
    let given = given_in(alloc, field, value)?;
    Ok(RowCommand::Correct { number, given })
}

/// The field of a word.
fn field_in(alloc: Global, word: &str) -> Result<RecordField, RefusalKind>
    ensures { Decided result (λ r. r ≡ field_in word.now) }
{
    let found = RecordField::from_word(alloc, word)?;
    field_found(found)
}

fn field_found(found: Option<RecordField>) -> Result<RecordField, RefusalKind>
    ensures { result ≡ ok_or BadRow found }
{
    match found {
        Some(field) => Ok(field),
        None => Err(RefusalKind::BadRow),
    }
}

/// The correction of a field, of the words of its value.
fn given_in(alloc: Global, field: RecordField, value: &str) -> Result<GivenCorrection, RefusalKind>
    ensures { Decided result (λ r. r ≡ given_in given_of field value.now) }
{
    match field {
        RecordField::Tag => Ok(GivenCorrection::Tag(words_in(alloc, value)?)),
        RecordField::Sex => {
            let sex = sex_or_none(value)?;
            Ok(GivenCorrection::Value(GivenValue::Sex(sex)))
        }
        RecordField::Date => {
            let date = date_or_none(alloc, value)?;
            Ok(GivenCorrection::Value(GivenValue::Date(date)))
        }
        RecordField::Place => {
            let place = number_or_none(value)?;
            Ok(GivenCorrection::Value(GivenValue::Place(place)))
        }
        RecordField::Repository => {
            let repo = number_or_none(value)?;
            Ok(GivenCorrection::Value(GivenValue::Repository(repo)))
        }
        RecordField::Quality => {
            let quality = quality_or_none(value)?;
            Ok(GivenCorrection::Value(GivenValue::Quality(quality)))
        }
        RecordField::Item => {
            let item = item_in(value)?;
            Ok(GivenCorrection::Value(GivenValue::Item(item)))
        }
        RecordField::Text(field) => {
            let words = words_in(alloc, value)?;
            Ok(GivenCorrection::Value(GivenValue::Text(field, words)))
        }
    }
}
