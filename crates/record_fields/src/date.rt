//! Dates of events and register entries.

ghost use Rattle.std.specs.Prelude.{◌≡◌, ◌↔◌, IfOk, IsTrue, MatchOption};
ghost use Rattle.gedcom_date.specs.Form.{Form};
ghost use Rattle.gedcom_date.specs.Grammar.{Says};
ghost use Rattle.gedcom_date.specs.Spelling.{spelling};
ghost use Rattle.gedcom_date.specs.View.{view};
ghost use Rattle.record_text.specs.Text.{IsText};
ghost use Rattle.record_fields.specs.Dates.{IsWritten, IsWritten-prop};

use gedcom_date::{DateValue, read_date, write_date};
use record_text::Text;
use std::alloc::{AllocError, Global};

/// A date in its canonical spelling, which is a text. So one that no form of the grammar fits is a text that
/// no form fits, and two dates are the same where their texts are.
#[derive(Drop)]
pub struct Date {
    text: Text,
    ghost written: { IsWritten text } by { IsWritten-prop text },
}

impl Date {
    /// The date that words say. `None`: its spelling is no text, since the words are none.
    pub fn try_new(alloc: Global, words: &str) -> Result<Option<Date>, AllocError>
        ensures { IfOk result (λ found. (form : Form) → Says words.now form
            → MatchOption found (¬ (IsText (spelling form))) (λ date. date.text ≡ spelling form)) }
    {
        match read_date(alloc, words) {
            Ok(value) => Date::of_value(alloc, &value),
            Err(_) => Err(AllocError),
        }
    }

    /// A value as a date. `None`: its spelling is no text.
    pub fn of_value(alloc: Global, value: &DateValue) -> Result<Option<Date>, AllocError>
        ensures { IfOk result (λ found.
            MatchOption found (¬ (IsText (spelling (view value.now))))
            (λ date. date.text ≡ spelling (view value.now))) }
    {
        let words = match write_date(alloc, value) {
            Ok(words) => words,
            Err(_) => return Err(AllocError),
        };
        match Text::try_new(words) {
            Some(text) => Ok(Some(Date { text })),
            None => Ok(None),
        }
    }

    /// The value of the date.
    pub fn value(&self, alloc: Global) -> Result<DateValue, AllocError>
        ensures said { IfOk result (λ value. Says self.now.text (view value)) }
        ensures spelt { IfOk result (λ value. self.now.text ≡ spelling (view value)) }
    {
        match read_date(alloc, self.as_str()) {
            Ok(value) => Ok(value),
            Err(_) => Err(AllocError),
        }
    }

    /// The canonical spelling.
    pub fn as_str(&self) -> &str
        ensures { result.now ≡ self.now.text }
    {
        self.text.as_str()
    }

    /// The canonical spelling in memory of its own.
    pub fn text(&self, alloc: Global) -> Result<Text, AllocError>
        ensures { IfOk result (λ t. t ≡ self.now.text) }
    {
        self.text.copy(alloc)
    }

    /// The same date in memory of its own.
    pub fn copy(&self, alloc: Global) -> Result<Date, AllocError>
        ensures { IfOk result (λ date. date ≡ self.now) }
    {
        let text = self.text(alloc)?;
        Ok(Date { text })
    }

    /// The date whose canonical spelling the text is. `None`: it is that of no date.
    pub fn of_text(alloc: Global, text: &Text) -> Result<Option<Date>, AllocError>
        ensures { IfOk result (λ found. MatchOption found (¬ (IsWritten text.now)) (λ date. date.text ≡ text.now)) }
    {
        if is_written(alloc, text.as_str())? {
            let text = text.copy(alloc)?;
            Ok(Some(Date { text }))
        } else {
            Ok(None)
        }
    }
}

/// Whether the words are the canonical spelling of what they say.
fn is_written(alloc: Global, words: &str) -> Result<bool, AllocError>
    ensures { IfOk result (λ b. IsTrue b ↔ IsWritten words.now) }
{
    let value = match read_date(alloc, words) {
        Ok(value) => value,
        Err(_) => return Err(AllocError),
    };
    match write_date(alloc, &value) {
        Ok(spelt) => Ok(spelt.as_str() == words),
        Err(_) => Err(AllocError),
    }
}
