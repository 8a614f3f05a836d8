//! The two lines of the header that say how the file is to be read.

ghost use Rattle.std.specs.Prelude.{◌≡◌, ◌≤◌, map, length};
ghost use Rattle.std.specs.List.{prefix_len, list_all};
ghost use Rattle.std.specs.Str.{bytes_eq};
ghost use Rattle.std.specs.Char.{to_ascii_lowercase};
ghost use Rattle.gedcom_line.specs.Words.{is_space};
ghost use Rattle.gedcom_line.specs.Escape.{unescaped};
ghost use Rattle.gedcom_line.specs.Split.{char_count};
ghost use Rattle.gedcom_line.specs.Value.{value_of};
ghost use Rattle.gedcom_line.specs.Reading.{parts};
ghost use Rattle.gedcom_rules.specs.Rules.{is_set as set_test, is_charset as charset_test, is_version_value};

use crate::standing::text_len;
use gedcom_line::{LineRef, Value};

/// The most characters of the two texts.
const MAX_HEADER_TEXT: usize = 100;

/// How many spaces stand at the front.
fn gap_len(text: &[u8]) -> usize
    ensures value { result ≡ prefix_len is_space text.now }
    ensures bound { result ≤ length text.now }
{
    text.iter().take_while(|b| **b == b' ').count()
}

fn is_spaces(text: &[u8]) -> bool
    ensures { result ≡ list_all is_space text.now }
{
    text.iter().all(|b| *b == b' ')
}

/// Whether the texts are the same but for upper and lower case.
fn is_same(text: &[u8], name: &[u8]) -> bool
    ensures { result ≡ bytes_eq (map to_ascii_lowercase text.now) (map to_ascii_lowercase name.now) }
{
    text.eq_ignore_ascii_case(name)
}

/// Whether the text is spaces, the name in upper or lower case, and spaces.
fn is_set(text: &[u8], name: &[u8]) -> bool
    ensures { result ≡ set_test text.now name.now }
{
    let rest = &text[gap_len(text)..];
    rest.len() >= name.len() && is_same(&rest[..name.len()], name) && is_spaces(&rest[name.len()..])
}

/// Whether the value names a character set that is read: UTF-8, UTF8 or ASCII.
pub(crate) fn is_charset(value: &str) -> bool
    ensures { result ≡ charset_test value.now }
{
    let text = value.as_bytes();
    text.len() <= MAX_HEADER_TEXT
        && (is_set(text, b"UTF-8") || is_set(text, b"UTF8") || is_set(text, b"ASCII"))
}

/// How many characters the text has.
#[tactic(auto, unfolding(gedcom_line::specs::Split::char_count))]
fn char_len(text: &str) -> usize
    ensures value { result ≡ char_count text.now }
    ensures bound { result ≤ length text.now }
{
    text.as_bytes()
        .iter()
        .filter(|b| **b < 128 || 192 <= **b)
        .count()
}

/// How many characters the text of a value has: of a pair of `@` one counts.
fn text_chars(raw: &str) -> usize
    ensures { result ≡ char_count (unescaped raw.now) }
{
    (char_len(raw) + text_len(raw)).saturating_sub(raw.len())
}

/// Whether the value names a version that is read: none that begins with 7.
pub(crate) fn is_version(line: &LineRef<'_>) -> bool
    ensures { result ≡ is_version_value (value_of (parts line.now)) }
{
    match line.value() {
        Value::Text(raw) => !raw.starts_with('7') && text_chars(raw) <= MAX_HEADER_TEXT,
        Value::Pointer(_) => true,
    }
}
