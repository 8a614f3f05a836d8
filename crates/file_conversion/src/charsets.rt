//! The set that the head of a file names, and the line CHAR that says UTF-8 in its place.

ghost use Rattle.std.specs.Prelude.{◌≡◌, ◌≤◌, ◌<◌, IfOk, length, map, string_bytes};
ghost use Rattle.character_sets.specs.Lines.{is_white as is_white_of};
ghost use Rattle.std.specs.List.{suffix_len};
ghost use Rattle.file_conversion.specs.Charsets.{
  agreed as agreed_of,
  is_beyond as is_beyond_of,
  is_char as is_char_of,
  is_char_tag as is_char_tag_of,
  is_head as is_head_of,
  is_head_tag as is_head_tag_of,
  is_told as is_told_of,
  is_top as is_top_of,
  named_with as named_with_of,
  next_place as next_place_of,
  set_in as set_in_of,
  set_number as set_number_of,
  set_of,
  trimmed as trimmed_of,
  upper as upper_of,
  with_line as with_line_of,
  without_end as without_end_of,
};

use character_sets::{CharacterSet, KnownTag, LineHead, line_head, past_white};
use std::alloc::{AllocError, Global};

/// What the lines CHAR of the first HEAD name.
#[derive(Clone, Copy, Debug, PartialEq, Eq)]
pub struct NamedSet {
    /// The number of the first such line, counted from 1 without blank lines.
    pub line: usize,
    /// `None`: a word that is not known, or words of two sets.
    pub set: Option<CharacterSet>,
}

/// Where a line stands.
#[derive(Clone, Copy, Debug, PartialEq, Eq)]
pub(crate) enum Place {
    /// It is the first line.
    Start,
    /// It is after the line of the first HEAD, and no line of level 0 came since.
    Below,
    /// It belongs to no HEAD at the beginning.
    Beyond,
}

/// What is known of a file after some of its lines.
#[derive(Clone, Copy)]
pub(crate) struct Reading {
    pub(crate) place: Place,
    pub(crate) named: Option<NamedSet>,
    /// The number of the next line, blank lines not counted.
    pub(crate) line: usize,
}

/// Where the line after this one stands.
pub(crate) fn next_place(place: Place, head: Option<LineHead>) -> Place
    ensures { result ≡ next_place_of place head }
{
    match place {
        Place::Start => {
            if is_head(head) {
                Place::Below
            } else {
                Place::Beyond
            }
        }
        Place::Below => {
            if is_top(head) {
                Place::Beyond
            } else {
                Place::Below
            }
        }
        Place::Beyond => Place::Beyond,
    }
}

/// Whether the first HEAD has ended, or there is none: no later line is a CHAR of it.
pub(crate) fn is_beyond(place: Place) -> bool
    ensures { result ≡ is_beyond_of place }
{
    match place {
        Place::Beyond => true,
        _ => false,
    }
}

/// Whether a line is a CHAR of the first HEAD.
pub(crate) fn is_told(place: Place, head: Option<LineHead>) -> bool
    ensures { result ≡ is_told_of place head }
{
    match place {
        Place::Below => is_char(head),
        _ => false,
    }
}

/// What is named with one more line.
pub(crate) fn named_with(
    alloc: Global,
    place: Place,
    named: Option<NamedSet>,
    line: usize,
    body: &[u16],
) -> Result<Option<NamedSet>, AllocError>
    ensures { IfOk result (λ now. now ≡ named_with_of place named line body.now) }
{
    if !is_told(place, line_head(body)) {
        return Ok(named);
    }
    let set = set_in(alloc, body)?;
    Ok(Some(with_line(named, line, set)))
}

/// Whether a line begins another record.
fn is_top(head: Option<LineHead>) -> bool
    ensures { result ≡ is_top_of head }
{
    match head {
        Some(head) => head.level == 0,
        None => false,
    }
}

pub(crate) fn is_head(head: Option<LineHead>) -> bool
    ensures { result ≡ is_head_of head }
{
    match head {
        Some(head) => head.level == 0 && is_head_tag(head.tag),
        None => false,
    }
}

pub(crate) fn is_char(head: Option<LineHead>) -> bool
    ensures { result ≡ is_char_of head }
{
    match head {
        Some(head) => head.level == 1 && is_char_tag(head.tag),
        None => false,
    }
}

fn is_head_tag(tag: KnownTag) -> bool
    ensures { result ≡ is_head_tag_of tag }
{
    match tag {
        KnownTag::Head => true,
        _ => false,
    }
}

fn is_char_tag(tag: KnownTag) -> bool
    ensures { result ≡ is_char_tag_of tag }
{
    match tag {
        KnownTag::Char => true,
        _ => false,
    }
}

/// The set of a word of CHAR in upper case. `None`: no rule knows the word.
#[tactic(auto, unfolding(crate::specs::Charsets::set_of))]
fn set_of_word(word: &str) -> Option<CharacterSet>
    ensures { result ≡ set_of word.now }
{
    match word {
        "ANSEL" => Some(CharacterSet::Ansel),
        "ANSI" => Some(CharacterSet::Windows1252),
        "WINDOWS" => Some(CharacterSet::Windows1252),
        "IBM WINDOWS" => Some(CharacterSet::Windows1252),
        "CP1252" => Some(CharacterSet::Windows1252),
        "WINDOWS-1252" => Some(CharacterSet::Windows1252),
        "LATIN1" => Some(CharacterSet::Windows1252),
        "ISO-8859-1" => Some(CharacterSet::Windows1252),
        "ISO8859-1" => Some(CharacterSet::Windows1252),
        "IBMPC" => Some(CharacterSet::CodePage437),
        "IBM" => Some(CharacterSet::CodePage437),
        "IBM DOS" => Some(CharacterSet::CodePage437),
        "DOS" => Some(CharacterSet::CodePage437),
        "MSDOS" => Some(CharacterSet::CodePage437),
        "MS-DOS" => Some(CharacterSet::CodePage437),
        "OEM" => Some(CharacterSet::CodePage437),
        "CP437" => Some(CharacterSet::CodePage437),
        "CP850" => Some(CharacterSet::CodePage850),
        "IBM850" => Some(CharacterSet::CodePage850),
        "MACINTOSH" => Some(CharacterSet::Macintosh),
        "MAC" => Some(CharacterSet::Macintosh),
        "UTF-8" => Some(CharacterSet::Utf8),
        "UTF8" => Some(CharacterSet::Utf8),
        "UNICODE" => Some(CharacterSet::Utf8),
        "ASCII" => Some(CharacterSet::Utf8),
        _ => None,
    }
}

/// The set that a line CHAR names.
#[tactic(auto, unfolding(crate::specs::Charsets::set_in))]
fn set_in(alloc: Global, body: &[u16]) -> Result<Option<CharacterSet>, AllocError>
    ensures { IfOk result (λ set. set ≡ set_in_of body.now) }
{
    match line_head(body) {
        Some(head) => {
            let word = word_of(alloc, trimmed(&body[head.value_at..]))?;
            Ok(set_of_word(&word))
        }
        None => Ok(set_of_word("")),
    }
}

/// Units as upper case. U+0000 stands for what is not ASCII.
pub(crate) fn word_of(alloc: Global, units: &[u16]) -> Result<String, AllocError>
    ensures { IfOk result (λ word. string_bytes word ≡ map upper_of units.now) }
{
    let mut word = String::new(alloc);
    for unit in units {
        word.push(upper(*unit))?;
    }
    Ok(word)
}

fn upper(unit: u16) -> char
    ensures is { result ≡ upper_of unit }
    ensures ascii { result < 128 }
{
    if unit < 128 {
        char::from((unit as u8).to_ascii_uppercase())
    } else {
        '\0'
    }
}

/// Units without spaces and tabs at the ends.
pub(crate) fn trimmed(units: &[u16]) -> &[u16]
    ensures { result.now ≡ trimmed_of units.now }
{
    without_end(past_white(units))
}

fn without_end(units: &[u16]) -> &[u16]
    ensures { result.now ≡ without_end_of units.now }
{
    &units[..units.len() - white_at_end(units)]
}

fn white_at_end(units: &[u16]) -> usize
    ensures count { result ≡ suffix_len is_white_of units.now }
    ensures within { result ≤ length units.now }
{
    units
        .iter()
        .rev()
        .take_while(|unit| is_white(**unit))
        .count()
}

fn is_white(unit: u16) -> bool
    ensures { result ≡ is_white_of unit }
{
    unit == 32 || unit == 9
}

/// A number for each set, by which two are compared.
pub fn set_number(set: CharacterSet) -> u8
    ensures { result ≡ set_number_of set }
{
    match set {
        CharacterSet::Utf8 => 0,
        CharacterSet::Utf16Le => 1,
        CharacterSet::Utf16Be => 2,
        CharacterSet::Windows1252 => 3,
        CharacterSet::CodePage437 => 4,
        CharacterSet::CodePage850 => 5,
        CharacterSet::Macintosh => 6,
        CharacterSet::Ansel => 7,
    }
}

/// The set of two that are the same.
fn agreed(first: Option<CharacterSet>, second: Option<CharacterSet>) -> Option<CharacterSet>
    ensures { result ≡ agreed_of first second }
{
    match (first, second) {
        (Some(s), Some(t)) if set_number(s) == set_number(t) => Some(s),
        _ => None,
    }
}

/// One more line CHAR.
fn with_line(named: Option<NamedSet>, line: usize, set: Option<CharacterSet>) -> NamedSet
    ensures { result ≡ with_line_of named line set }
{
    match named {
        Some(named) => NamedSet {
            line: named.line,
            set: agreed(named.set, set),
        },
        None => NamedSet { line, set },
    }
}
