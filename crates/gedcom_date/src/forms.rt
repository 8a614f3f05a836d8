//! The value of a text.

ghost use Rattle.std.specs.Prelude.{◌≡◌, IfOk, IfSome, IsSome, Some, option_map, length, ◌≤◌, not};
ghost use Rattle.std.specs.List.{prefix_len};
ghost use Rattle.gedcom_date.specs.Words.{words, views};
ghost use Rattle.calendar_days.specs.Told.{Told, told, Exists};
ghost use Rattle.gedcom_date.specs.Order.{IsOrdered};
ghost use Rattle.gedcom_date.specs.View.{view};
ghost use Rattle.gedcom_date.specs.Form.{Form, BetweenDates, InterpretedDate, PhraseAlone};
ghost use Rattle.gedcom_date.specs.Reading.{
  reads,
  is_and,
  is_to,
  two_dates,
  told_of,
  parted,
  from_form,
  keyword_form,
  word_form,
  phrase_form,
};
ghost use Rattle.gedcom_date.specs.Found.{Holds, FindsEach};
ghost use Rattle.gedcom_date.specs.Grammar.{Says, Fits, IsGood, IsShort};

use crate::fault::{DateFault, DateKind};
use crate::keyword::{Keyword, read_keyword};
use crate::period::Period;
use crate::phrase::phrase;
use crate::reading::date;
use crate::texts::{Interpreted, Phrase, Verbatim};
use crate::value::DateValue;
use crate::words::{is_word, words_of};
use calendar_days::CalendarDate;
use std::alloc::{AllocError, Global};

/// The value of a text: the form that it fits, or the text itself where it fits none. Spaces at its
/// ends and several spaces between words count as none and one; keywords, names of months, escapes
/// and `B.C.` are read in either case.
///
/// No text is refused, since a file may say a date in any words: an error comes only where memory is.
pub fn read_date(alloc: Global, text: &str) -> Result<DateValue, DateFault>
    ensures { IfOk result (λ value. Says text.now (view value)) }
{
    match value(alloc, text) {
        Ok(value) => Ok(value),
        Err(_) => Err(DateFault {
            kind: DateKind::OutOfMemory,
        }),
    }
}

/// The value of a text.
fn value(alloc: Global, text: &str) -> Result<DateValue, AllocError>
    ensures { IfOk result (λ value. Says text.now (view value)) }
{
    if let Some(value) = form(alloc, text)? {
        return Ok(value);
    }
    let text = String::from_str(alloc, text)?;
    Ok(DateValue::Verbatim(Verbatim { text }))
}

/// The value of a text that fits a form.
fn form(alloc: Global, text: &str) -> Result<Option<DateValue>, AllocError>
    ensures found { IfOk result (λ found. IfSome found (λ value. Fits text.now (view value))) }
    ensures every { IfOk result (λ found. (form : Form) → Fits text.now form → IsSome found) }
{
    if let Some((front, phrase)) = phrase(text) {
        return phrase_value(alloc, front, phrase);
    }
    let words = words_of(alloc, text)?;
    Ok(word_value(&words))
}

/// The value of the words before a phrase, and the phrase.
fn phrase_value(alloc: Global, front: &str, phrase: &str) -> Result<Option<DateValue>, AllocError>
    ensures found { IfOk result (λ found.
        IfSome found (Holds (phrase_form (words front.now) phrase.now))) }
    ensures every { IfOk result (FindsEach (phrase_form (words front.now) phrase.now)) }
{
    let words = words_of(alloc, front)?;
    bracketed(alloc, &words, phrase)
}

/// The value of a phrase after words.
fn bracketed(alloc: Global, words: &[&str], phrase: &str) -> Result<Option<DateValue>, AllocError>
    ensures found { IfOk result (λ found.
        IfSome found (Holds (phrase_form (views words.now) phrase.now))) }
    ensures every { IfOk result (FindsEach (phrase_form (views words.now) phrase.now)) }
{
    match words {
        [] => phrase_alone(alloc, phrase),
        [first, rest @ ..] => {
            if is_word(first, "INT") {
                interpreted(alloc, rest, phrase)
            } else {
                Ok(None)
            }
        }
    }
}

/// Only a phrase, if its spelling is no longer than a text.
fn phrase_alone(alloc: Global, phrase: &str) -> Result<Option<DateValue>, AllocError>
    ensures found { IfOk result (λ found. IfSome found (λ v.
        (view v ≡ PhraseAlone phrase.now) × IsShort (view v))) }
    ensures every { IfOk result (λ found. IsShort (PhraseAlone phrase.now) → IsSome found) }
{
    let text = String::from_str(alloc, phrase)?;
    match Phrase::new(text) {
        Some(phrase) => Ok(Some(DateValue::Phrase(phrase))),
        None => Ok(None),
    }
}

/// A date and the phrase from which it was read, if their spelling is no longer than a text.
fn interpreted(alloc: Global, words: &[&str], phrase: &str) -> Result<Option<DateValue>, AllocError>
    ensures found { IfOk result (λ found. IfSome found (λ v. (d : Told)
        × (told_of (views words.now) ≡ Some d)
        × (view v ≡ InterpretedDate d phrase.now)
        × IsGood (view v))) }
    ensures every { IfOk result (λ found. (d : Told) → told_of (views words.now) ≡ Some d
        → Exists d → IsShort (InterpretedDate d phrase.now) → IsSome found) }
{
    let Some(date) = date(words) else {
        return Ok(None);
    };
    let phrase = String::from_str(alloc, phrase)?;
    match Interpreted::new(alloc, date, phrase)? {
        Some(interpreted) => Ok(Some(DateValue::Interpreted(interpreted))),
        None => Ok(None),
    }
}

/// The value of words.
#[tactic(auto, unfolding(crate::specs::Reading::word_form))]
fn word_value(words: &[&str]) -> Option<DateValue>
    ensures found { IfSome result (Holds (word_form (views words.now))) }
    ensures every { FindsEach (word_form (views words.now)) result }
{
    let [first, rest @ ..] = words else {
        return None;
    };
    match read_keyword(first) {
        Some(keyword) => keyword_value(keyword, rest),
        None => Some(DateValue::On(date(words)?)),
    }
}

/// The value of the words after a keyword.
#[tactic(auto, unfolding(crate::specs::Reading::keyword_form))]
fn keyword_value(keyword: Keyword, words: &[&str]) -> Option<DateValue>
    ensures found { IfSome result (Holds (keyword_form keyword (views words.now))) }
    ensures every { FindsEach (keyword_form keyword (views words.now)) result }
{
    match keyword {
        Keyword::Near(how) => Some(DateValue::Near(how, date(words)?)),
        Keyword::Before => Some(DateValue::Before(date(words)?)),
        Keyword::After => Some(DateValue::After(date(words)?)),
        Keyword::Between => between_value(words),
        Keyword::From => from_value(words),
        Keyword::To => Some(DateValue::To(date(words)?)),
        Keyword::And | Keyword::Interpreted => None,
    }
}

/// The value of the words after `BET`.
fn between_value(words: &[&str]) -> Option<DateValue>
    ensures found { IfSome result
        (Holds (two_dates BetweenDates (parted is_and (views words.now)))) }
    ensures every { FindsEach (two_dates BetweenDates (parted is_and (views words.now))) result }
{
    let (front, back) = part(words, "AND")?;
    Some(DateValue::Between(period(front, back)?))
}

/// The value of the words after `FROM`.
fn from_value(words: &[&str]) -> Option<DateValue>
    ensures found { IfSome result
        (Holds (from_form (parted is_to (views words.now)) (views words.now))) }
    ensures every { FindsEach
        (from_form (parted is_to (views words.now)) (views words.now)) result }
{
    match part(words, "TO") {
        Some((front, back)) => Some(DateValue::FromTo(period(front, back)?)),
        None => Some(DateValue::From(date(words)?)),
    }
}

/// The words before the first that reads as the keyword, and those after it.
fn part<'a, 'b>(words: &'a [&'b str], keyword: &str) -> Option<(&'a [&'b str], &'a [&'b str])>
    ensures { option_map (λ x. (views x.0.now, views x.1.now)) result
        ≡ parted (λ w. reads w keyword.now) (views words.now) }
{
    let (front, back) = words.split_at(place(words, keyword));
    match back {
        [_, rest @ ..] => Some((front, rest)),
        [] => None,
    }
}

/// How many words stand before the first that reads as the keyword.
fn place(words: &[&str], keyword: &str) -> usize
    ensures value { result ≡ prefix_len (λ w. not (reads w.now keyword.now)) words.now }
    ensures bound { result ≤ length words.now }
{
    words.iter().take_while(|w| !is_word(w, keyword)).count()
}

/// The period of two dates, if the first day of the first is at most the last day of the last.
fn period(front: &[&str], back: &[&str]) -> Option<Period>
    ensures first { IfSome result (λ p. told_of (views front.now) ≡ Some (told p.first)) }
    ensures last { IfSome result (λ p. told_of (views back.now) ≡ Some (told p.last)) }
    ensures every { (d e : Told) → told_of (views front.now) ≡ Some d
        → told_of (views back.now) ≡ Some e
        → Exists d → Exists e → IsOrdered d e → IsSome result }
{
    Period::new(date(front)?, date(back)?)
}
