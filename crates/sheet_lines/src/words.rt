//! Words as they stand on a page.

ghost use Rattle.std.specs.Prelude.{◌≡◌, ◌++◌, ◌∷◌, IfOk, MatchOption, OnOk, option_copied, string_bytes};
ghost use Rattle.record_text.specs.Words.{Without};
ghost use Rattle.sheet_lines.specs.Words as words;

use record_fields::Date;
use record_kinds::Person;
use record_text::display;
use std::alloc::{AllocError, Global};

/// Appends a text as it is printed: each LF is a space. Refused only if out of memory.
pub fn push_printed(out: &mut String, text: &str) -> Result<(), AllocError>
    ensures { OnOk result (string_bytes out.new ≡ string_bytes out.old ++ words.printed text.now) }
{
    let mut rest = text;
    'front: while let Some((front, after)) = cut(rest) {
        out.push_str(front)?;
        out.push_str(" ")?;
        rest = after;
    }
    out.push_str(rest)
}

/// What stands before the first LF and after it.
fn cut(text: &str) -> Option<(&str, &str)>
    ensures { MatchOption result (Without 10 text.now)
        (λ x. (text.now ≡ x.0.now ++ 10 ∷ x.1.now) × Without 10 x.0.now) }
{
    text.split_once('\n')
}

/// Appends a number at the right end of so many places.
pub(crate) fn push_right(out: &mut String, places: usize, number: u32) -> Result<(), AllocError>
    ensures { OnOk result (string_bytes out.new ≡ string_bytes out.old ++ words.at_right places number) }
{
    write!(out, "{number:>places$}")
}

/// Appends a date after a word, where there is one. Refused only if out of memory.
pub fn push_dated(out: &mut String, word: &str, date: Option<&Date>) -> Result<(), AllocError>
    ensures { OnOk result (string_bytes out.new ≡ string_bytes out.old
        ++ words.dated word.now (option_copied date.entry)) }
{
    match date {
        None => Ok(()),
        Some(date) => {
            out.push_str(word)?;
            push_printed(out, date.as_str())
        }
    }
}

/// The first name of a person as people read it; `?` without names.
pub fn display_of(alloc: Global, person: &Person) -> Result<String, AllocError>
    ensures { IfOk result (λ s. string_bytes s ≡ words.display_of person.now.names) }
{
    match person.names.first() {
        Some(name) => display(alloc, name.text.as_str()),
        None => String::from_str(alloc, "?"),
    }
}
