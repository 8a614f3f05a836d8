//! The texts that a value holds, each with the fact that makes it one.

ghost use Rattle.std.specs.Prelude.{◌≡◌, ◌↔◌, IfOk, IfSome, IsSome, IsTrue, string_bytes};
ghost use Rattle.gedcom_date.specs.Form.{InterpretedDate, PhraseAlone};
ghost use Rattle.gedcom_date.specs.Grammar.{IsShort, FitsNone};
ghost use Rattle.gedcom_date.specs.Facts.{IsShort-prop, FitsNone-prop};
ghost use Rattle.calendar_days.specs.Told.{told};

use crate::writing::push_behind;
use calendar_days::CalendarDate;
use std::alloc::{AllocError, Global};

/// The most bytes that a text has.
const MAX_BYTES: usize = 1_048_576;

/// A date and the words that it was read from.
#[derive(Debug, Drop)]
pub struct Interpreted {
    /// The date.
    pub date: CalendarDate,
    /// The words, which may be any text.
    pub phrase: String,
    ghost short: { IsShort (InterpretedDate (told date) (string_bytes phrase)) } by { IsShort-prop (InterpretedDate (told date) (string_bytes phrase)) },
}

impl Interpreted {
    /// A date and a phrase; none where their spelling has more than 1,048,576 bytes. Takes memory
    /// to spell the date, and an error comes only where it is refused.
    pub fn new(
        alloc: Global,
        date: CalendarDate,
        phrase: String,
    ) -> Result<Option<Interpreted>, AllocError>
        ensures found { IfOk result (λ found. IfSome found (λ i.
            (i.date ≡ date) × (string_bytes i.phrase ≡ string_bytes phrase))) }
        ensures every { IfOk result (λ found.
            IsShort (InterpretedDate (told date) (string_bytes phrase)) → IsSome found) }
    {
        if is_short(alloc, &date, &phrase)? {
            Ok(Some(Interpreted { date, phrase }))
        } else {
            Ok(None)
        }
    }
}

/// Whether the spelling of a date and its phrase is no longer than a text.
#[tactic(auto, unfolding(crate::specs::Grammar::IsShort, crate::specs::Spelling::spelling))]
fn is_short(alloc: Global, date: &CalendarDate, phrase: &str) -> Result<bool, AllocError>
    ensures { IfOk result (λ short.
        IsTrue short ↔ IsShort (InterpretedDate (told date.now) phrase.now)) }
{
    let mut text = String::new(alloc);
    push_behind(&mut text, "INT", date)?;
    Ok(
        text.len() <= MAX_BYTES
            && phrase.len() <= MAX_BYTES
            && text.len() + phrase.len() + 3 <= MAX_BYTES,
    )
}

/// A phrase in place of a date.
#[derive(Debug, Drop)]
pub struct Phrase {
    /// The words, which may be any text.
    pub text: String,
    ghost short: { IsShort (PhraseAlone (string_bytes text)) } by { IsShort-prop (PhraseAlone (string_bytes text)) },
}

impl Phrase {
    /// The phrase of a text; none where its spelling has more than 1,048,576 bytes.
    #[tactic(auto, unfolding(crate::specs::Grammar::IsShort, crate::specs::Spelling::spelling))]
    pub fn new(text: String) -> Option<Phrase>
        ensures found { IfSome result (λ phrase. string_bytes phrase.text ≡ string_bytes text) }
        ensures every { IsShort (PhraseAlone (string_bytes text)) → IsSome result }
    {
        if text.len() <= MAX_BYTES - 2 {
            Some(Phrase { text })
        } else {
            None
        }
    }
}

/// A text that fits no form.
#[derive(Debug, Drop)]
pub struct Verbatim {
    /// The text as it stands.
    pub text: String,
    ghost fits_none: { FitsNone (string_bytes text) } by { FitsNone-prop (string_bytes text) },
}
