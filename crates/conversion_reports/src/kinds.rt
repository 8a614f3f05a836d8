//! What is counted of a line.

ghost use Rattle.std.specs.Prelude.{◌≡◌, ◌≤◌, IfOk, string_bytes};
ghost use Rattle.std.specs.List.{list_all};
ghost use Rattle.character_sets.specs.Counts.{one_if as one_if_of};
ghost use Rattle.file_conversion.specs.Conversion.{is_ascii as is_ascii_of};
ghost use Rattle.conversion_reports.specs.Lines.{
  counts_of,
  has_others as has_others_of,
  is_replacement as is_replacement_of,
  line_text as line_text_of,
  marked_in as marked_in_of,
  replacements as replacements_of,
  strays_in as strays_in_of,
};

use character_sets::{CharacterSet, marked_others, push_text, stray_bytes};
use std::alloc::{AllocError, Global};

/// What is counted.
#[derive(Clone, Copy, Debug, PartialEq, Eq)]
pub(crate) enum Kind {
    /// Lines with other characters than those of ASCII.
    Other,
    /// Values that begin with units of the line before.
    Joined,
    /// Bytes that are no part of a character of UTF-8.
    Stray,
    /// U+FFFD.
    Replaced,
    /// Characters of ANSEL that have marks and are no letters.
    Marked,
}

/// How often each kind is in a line.
#[derive(Clone, Copy, Debug, PartialEq, Eq)]
pub(crate) struct Counts {
    pub(crate) other: usize,
    pub(crate) joined: usize,
    pub(crate) stray: usize,
    pub(crate) replaced: usize,
    pub(crate) marked: usize,
}

/// How often each kind is in a line, whose value `joins` if it begins with units of the line before.
pub(crate) fn counts_in(
    alloc: Global,
    set: CharacterSet,
    joins: bool,
    units: &[u16],
) -> Result<Counts, AllocError>
    ensures { IfOk result (λ n. n ≡ counts_of set joins units.now) }
{
    let text = line_text(alloc, set, units)?;
    let bytes = text.as_bytes();
    Ok(Counts {
        other: one_if(!are_ascii(bytes)),
        joined: one_if(joins),
        stray: strays_in(set, units),
        replaced: replacements(bytes),
        marked: marked_in(set, units),
    })
}

pub(crate) fn one_if(is_so: bool) -> usize
    ensures is { result ≡ one_if_of is_so }
    ensures few { result ≤ 1 }
{
    if is_so { 1 } else { 0 }
}

/// The characters of a line.
pub(crate) fn line_text(
    alloc: Global,
    set: CharacterSet,
    units: &[u16],
) -> Result<String, AllocError>
    ensures { IfOk result (λ text. string_bytes text ≡ line_text_of set units.now) }
{
    let mut text = String::new(alloc);
    push_text(alloc, &mut text, set, units)?;
    Ok(text)
}

/// Whether a line has other characters than those of ASCII.
pub(crate) fn has_others(
    alloc: Global,
    set: CharacterSet,
    units: &[u16],
) -> Result<bool, AllocError>
    ensures { IfOk result (λ found. found ≡ has_others_of set units.now) }
{
    let text = line_text(alloc, set, units)?;
    Ok(!are_ascii(text.as_bytes()))
}

fn are_ascii(bytes: &[u8]) -> bool
    ensures { result ≡ list_all is_ascii_of bytes.now }
{
    bytes.iter().all(|byte| *byte < 128)
}

fn strays_in(set: CharacterSet, units: &[u16]) -> usize
    ensures { result ≡ strays_in_of set units.now }
{
    match set {
        CharacterSet::Utf8 => stray_bytes(units),
        _ => 0,
    }
}

fn marked_in(set: CharacterSet, units: &[u16]) -> usize
    ensures { result ≡ marked_in_of set units.now }
{
    match set {
        CharacterSet::Ansel => marked_others(units),
        _ => 0,
    }
}

/// How often U+FFFD is in a text.
fn replacements(text: &[u8]) -> usize
    ensures { result ≡ replacements_of text.now }
{
    let mut rest = text;
    let mut count = 0usize;
    'bytes: while let [_, more @ ..] = rest {
        count += one_if(is_replacement(rest));
        rest = more;
    }
    count
}

/// Whether a text begins with U+FFFD.
fn is_replacement(bytes: &[u8]) -> bool
    ensures { result ≡ is_replacement_of bytes.now }
{
    match bytes {
        [a, b, c, ..] => *a == 0xEF && *b == 0xBF && *c == 0xBD,
        _ => false,
    }
}
