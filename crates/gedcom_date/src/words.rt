//! The words of a text.

ghost use Rattle.std.specs.Prelude.{◌≡◌, ◌<◌, ◌++◌, ◌∷◌, [], MatchOption, IfOk};
ghost use Rattle.std.specs.Char.{is_ascii_digit};
ghost use Rattle.gedcom_date.specs.Words.{words, Without, views};
ghost use Rattle.gedcom_date.specs.Reading.{four, number_of, reads};

use std::alloc::{AllocError, Global};

/// The next word and what follows it; nothing where only spaces are left.
pub(crate) fn next_word(text: &str) -> Option<(&str, &str)>
    ensures { MatchOption result (words text.now ≡ [])
        (λ x. words text.now ≡ x.0.now ∷ words x.1.now) }
{
    let mut rest = text;
    while let Some((word, after)) = cut(rest) {
        if !word.is_empty() {
            return Some((word, after));
        }
        rest = after;
    }
    if rest.is_empty() {
        return None;
    }
    Some((rest, ""))
}

/// What stands before the first space and after it.
fn cut(text: &str) -> Option<(&str, &str)>
    ensures { MatchOption result (Without 32 text.now)
        (λ x. (text.now ≡ x.0.now ++ 32 ∷ x.1.now) × Without 32 x.0.now) }
{
    text.split_once(' ')
}

/// Whether the word is that one, in either case.
pub(crate) fn is_word(word: &str, keyword: &str) -> bool
    ensures { result ≡ reads word.now keyword.now }
{
    word.eq_ignore_ascii_case(keyword)
}

/// The number that one to four digits spell, if it is not 0.
pub(crate) fn number(word: &str) -> Option<u16>
    ensures { result ≡ number_of word.now }
{
    digits(word.as_bytes())
}

/// The number that one to four digits spell, if it is not 0.
pub(crate) fn digits(bytes: &[u8]) -> Option<u16>
    ensures { result ≡ number_of bytes.now }
{
    match bytes {
        [a] => four_digits(b'0', b'0', b'0', *a),
        [a, b] => four_digits(b'0', b'0', *a, *b),
        [a, b, c] => four_digits(b'0', *a, *b, *c),
        [a, b, c, d] => four_digits(*a, *b, *c, *d),
        _ => None,
    }
}

/// The number of four digits, if it is not 0.
fn four_digits(a: u8, b: u8, c: u8, d: u8) -> Option<u16>
    ensures { result ≡ four a b c d }
{
    if !(a.is_ascii_digit() && b.is_ascii_digit() && c.is_ascii_digit() && d.is_ascii_digit()) {
        return None;
    }
    let high = 1000 * (a - b'0') as u16 + 100 * (b - b'0') as u16;
    let number = high + 10 * (c - b'0') as u16 + (d - b'0') as u16;
    if number == 0 { None } else { Some(number) }
}

/// The words of a text.
pub(crate) fn words_of(alloc: Global, text: &str) -> Result<Vec<&str>, AllocError>
    ensures { IfOk result (λ v. views v.items ≡ words text.now) }
{
    let mut found = Vec::new(alloc);
    let mut rest = text;
    while let Some((word, after)) = next_word(rest) {
        found.push(word)?;
        rest = after;
    }
    Ok(found)
}
