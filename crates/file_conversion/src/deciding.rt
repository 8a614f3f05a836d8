//! The set of a file.

ghost use Rattle.std.specs.Prelude.{◌≡◌, ◌<◌, IfOk};
ghost use Rattle.std.specs.List.{list_all};
ghost use Rattle.character_sets.specs.Lines.{lines};
ghost use Rattle.file_conversion.specs.Conversion.{
  IsDecided,
  by_bytes as by_bytes_of,
  by_lines as by_lines_of,
  by_name as by_name_of,
  by_page as by_page_of,
  first_unlike as first_unlike_of,
  has_utf8_mark as has_utf8_mark_of,
  is_ascii as is_ascii_of,
  is_utf8 as is_utf8_of,
  next_number as next_number_of,
  reason as reason_of,
  reason_in as reason_in_of,
  reason_of_units as reason_of_units_of,
  set_of_file as set_of_file_of,
  wide_reason as wide_reason_of,
  wide_set as wide_set_of,
};

use crate::charsets::NamedSet;
use crate::naming::named_by;
use crate::units::file_units;
use character_sets::{
    CharacterSet, Moved, first_line, is_blank, is_read_alike, is_utf8, moved_line,
};
use std::alloc::{AllocError, Global};

/// The set of a file, where one may be asked for. The inner error is the number of the line that leaves it open,
/// counted from 1 without blank lines.
pub fn set_of_file(
    alloc: Global,
    asked: Option<CharacterSet>,
    bytes: &[u8],
) -> Result<Result<CharacterSet, usize>, AllocError>
    ensures { IfOk result (λ found. found ≡ set_of_file_of asked bytes.now) }
{
    match set_and_reason(alloc, asked, bytes)? {
        Ok((set, _)) => Ok(Ok(set)),
        Err(line) => Ok(Err(line)),
    }
}

/// What says the set of a file.
#[derive(Clone, Copy, Debug, PartialEq, Eq)]
pub enum Reason {
    /// A mark at the beginning of the file.
    Mark,
    /// A NUL as one of its first two bytes.
    Nul,
    /// The set was asked for.
    Asked,
    /// No byte is above 7F.
    Ascii,
    /// All of the file is UTF-8.
    Whole,
    /// The lines CHAR.
    Named,
}

/// The set of a file, where one may be asked for, and what says it. The inner error is that of `set_of_file`.
#[tactic(auto, unfolding(crate::specs::Conversion::set_of_file))]
pub fn set_and_reason(
    alloc: Global,
    asked: Option<CharacterSet>,
    bytes: &[u8],
) -> Result<Result<(CharacterSet, Reason), usize>, AllocError>
    ensures { IfOk result (λ found. IsDecided (set_of_file_of asked bytes.now) (reason_of asked bytes.now) found) }
{
    match (wide_set(bytes), asked) {
        (Some(set), _) => Ok(Ok((set, wide_reason(bytes)))),
        (None, Some(set)) => Ok(Ok((set, Reason::Asked))),
        (None, None) => by_bytes(alloc, bytes),
    }
}

fn wide_reason(bytes: &[u8]) -> Reason
    ensures { result ≡ wide_reason_of bytes.now }
{
    match bytes {
        [0xFF, 0xFE, ..] | [0xFE, 0xFF, ..] => Reason::Mark,
        _ => Reason::Nul,
    }
}

/// UTF-16, by its mark or by a NUL as one of the first two bytes.
fn wide_set(bytes: &[u8]) -> Option<CharacterSet>
    ensures { result ≡ wide_set_of bytes.now }
{
    let [a, b, ..] = bytes else {
        return None;
    };
    if (*a == 0xFF && *b == 0xFE) || (*a != 0 && *b == 0) {
        Some(CharacterSet::Utf16Le)
    } else if (*a == 0xFE && *b == 0xFF) || (*a == 0 && *b != 0) {
        Some(CharacterSet::Utf16Be)
    } else {
        None
    }
}

fn by_bytes(
    alloc: Global,
    bytes: &[u8],
) -> Result<Result<(CharacterSet, Reason), usize>, AllocError>
    ensures { IfOk result (λ found. IsDecided (by_bytes_of bytes.now) (reason_in_of bytes.now) found) }
{
    if are_ascii(bytes) {
        return Ok(Ok((CharacterSet::Utf8, Reason::Ascii)));
    }
    if has_utf8_mark(bytes) {
        return Ok(Ok((CharacterSet::Utf8, Reason::Mark)));
    }
    let units = file_units(alloc, CharacterSet::Utf8, bytes)?;
    by_lines(alloc, &units)
}

fn are_ascii(bytes: &[u8]) -> bool
    ensures { result ≡ list_all is_ascii_of bytes.now }
{
    bytes.iter().all(|byte| *byte < 128)
}

fn has_utf8_mark(bytes: &[u8]) -> bool
    ensures { result ≡ has_utf8_mark_of bytes.now }
{
    match bytes {
        [a, b, c, ..] => *a == 0xEF && *b == 0xBB && *c == 0xBF,
        _ => false,
    }
}

fn by_lines(
    alloc: Global,
    units: &[u16],
) -> Result<Result<(CharacterSet, Reason), usize>, AllocError>
    ensures { IfOk result (λ found. IsDecided (by_lines_of units.now) (reason_of_units_of units.now) found) }
{
    if are_utf8(alloc, units)? {
        return Ok(Ok((CharacterSet::Utf8, Reason::Whole)));
    }
    let named = named_by(alloc, units)?;
    match by_name(named, units) {
        Ok(set) => Ok(Ok((set, Reason::Named))),
        Err(line) => Ok(Err(line)),
    }
}

/// Whether each byte belongs to a character of UTF-8.
fn are_utf8(alloc: Global, units: &[u16]) -> Result<bool, AllocError>
    ensures { IfOk result (λ all. all ≡ is_utf8_of units.now) }
{
    let mut rest = units;
    let mut carry: Vec<u16> = Vec::new(alloc);
    'lines: while !rest.is_empty() {
        let Moved {
            body,
            ending: _,
            carry: next,
            rest: more,
        } = moved_line(alloc, CharacterSet::Utf8, carry, rest)?;
        if !is_utf8(&body) {
            return Ok(false);
        }
        carry = next;
        rest = more;
    }
    Ok(true)
}

/// The set that the lines CHAR name. The error is the number of a line.
fn by_name(named: Option<NamedSet>, units: &[u16]) -> Result<CharacterSet, usize>
    ensures { result ≡ by_name_of named units.now }
{
    match named {
        Some(
            NamedSet {
                line: _,
                set: Some(set),
            },
        ) => by_page(set, units),
        Some(NamedSet { line, set: None }) => Err(line),
        None => Err(1),
    }
}

fn by_page(set: CharacterSet, units: &[u16]) -> Result<CharacterSet, usize>
    ensures { result ≡ by_page_of set units.now }
{
    match set {
        CharacterSet::CodePage437 => {
            match first_unlike(units) {
                Some(line) => Err(line),
                None => Ok(CharacterSet::CodePage437),
            }
        }
        _ => Ok(set),
    }
}

/// The number of the first line in which code pages 437 and 850 differ.
fn first_unlike(units: &[u16]) -> Option<usize>
    ensures { result ≡ first_unlike_of 1 (lines units.now) }
{
    let mut rest = units;
    let mut line = 1usize;
    'lines: while !rest.is_empty() {
        let cut = first_line(rest);
        if !is_read_alike(cut.body) {
            return Some(line);
        }
        line = next_number(line, cut.body);
        rest = cut.rest;
    }
    None
}

/// The number of the line after this one: blank lines are not counted.
pub fn next_number(line: usize, body: &[u16]) -> usize
    requires { line < 0xFFFF_FFFF_FFFF_FFFF }
    ensures { result ≡ next_number_of line body.now }
{
    if is_blank(body) { line } else { line + 1 }
}
