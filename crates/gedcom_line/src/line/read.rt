//! Reading a line from its front to its end.

ghost use Rattle.std.specs.Prelude.{
  ◌≡◌,
  ◌==◌,
  if◌then◌else◌,
  option_map,
  length,
  drop,
  slice_index,
  None,
  Some,
  ◌<◌,
  ◌∷◌,
  ◌↔◌,
  IfOk,
  IfErr,
  IfSome,
  IsOkAnd,
  IsErrAnd,
};
ghost use Rattle.std.specs.List.{AllPass, list_all};
ghost use Rattle.gedcom_line.specs.Words.{is_digit, is_white};
ghost use Rattle.gedcom_line.specs.Reading.{
  number_of as number_spelled,
  after_gap,
  level_at,
  is_name as name_test,
  named_at,
  xref_at,
  value_after,
  tag_at,
  parts,
  is_continuation as continuation_test,
  with_tag as put_together,
  reading_from,
  text_at,
  reading,
  Answers,
};
ghost use Rattle.gedcom_line.specs.Line.{Line, IsPiece, IsBlank, Fault};
ghost use Rattle.gedcom_line.specs.Reading.{Parts};
ghost use Rattle.gedcom_line.specs.declared.fault.LineKind.{LineKind};

use crate::class::{Class, past};
use crate::fault::{LineFault, LineKind};
use crate::line::LineRef;

/// The number of one or two digits.
fn number_of(digits: &[u8]) -> Option<u8>
    requires { AllPass is_digit digits.now }
    ensures { result ≡ number_spelled digits.now }
{
    match digits {
        [ones] => Some(*ones - b'0'),
        [tens, ones] => Some(10 * (*tens - b'0') + (*ones - b'0')),
        _ => None,
    }
}

/// What follows one space or more.
fn past_gap(text: &str) -> Option<&str>
    ensures { option_map (λ s. s.now) result ≡ after_gap text.now }
{
    let (gap, rest) = Class::Space.split(text);
    if gap.is_empty() { None } else { Some(rest) }
}

/// A level and what follows the spaces after it.
#[tactic(auto, unfolding(crate::specs::Reading::level_at))]
fn level_of(text: &str) -> Option<(u8, &str)>
    ensures { option_map (λ x. (x.0, x.1.now)) result ≡ level_at text.now }
{
    let (digits, rest) = Class::Digit.split(text);
    let level = number_of(digits.as_bytes())?;
    let rest = past_gap(rest)?;
    Some((level, rest))
}

/// A cross reference and what follows the spaces after it.
#[tactic(auto, unfolding(crate::specs::Reading::xref_at))]
fn xref_of(text: &str) -> Option<(Option<&str>, &str)>
    ensures { option_map (λ x. (option_map (λ s. s.now) x.0, x.1.now)) result ≡ xref_at text.now }
{
    match past(text, '@') {
        None => Some((None, text)),
        Some(inner) => {
            let (name, rest) = named(text, inner)?;
            Some((Some(name), rest))
        }
    }
}

/// The cross reference at the front of `text`, and what follows the spaces after it.
fn named<'a>(text: &'a str, inner: &'a str) -> Option<(&'a str, &'a str)>
    requires { text.now ≡ 64 ∷ inner.now }
    ensures { option_map (λ x. (Some x.0.now, x.1.now)) result ≡ named_at text.now inner.now }
{
    let (name, after) = inner.split_once('@')?;
    if !is_name(name) {
        return None;
    }
    let rest = past_gap(after)?;
    Some((&text[..name.len() + 2], rest))
}

/// Whether a cross reference may have this between its two `@`.
pub(crate) fn is_name(name: &str) -> bool
    ensures { result ≡ name_test name.now }
{
    match name.as_bytes() {
        [first, ..] => Class::Word.has(*first) && name.len() <= 62,
        [] => false,
    }
}

/// A tag and its value.
#[tactic(auto, unfolding(crate::specs::Reading::tag_at))]
fn tag_of(text: &str) -> Option<(&str, &str)>
    ensures { option_map (λ x. (x.0.now, x.1.now)) result ≡ tag_at text.now }
{
    let (tag, rest) = Class::Word.split(text);
    if tag.is_empty() || tag.len() > 31 {
        return None;
    }
    if rest.is_empty() {
        return Some((tag, rest));
    }
    let raw = past(rest, ' ')?;
    Some((tag, raw))
}

/// Whether the tag carries its value on to the line one level up.
pub(crate) fn is_continuation(tag: &str) -> bool
    ensures { result ≡ continuation_test tag.now }
{
    tag == "CONC" || tag == "CONT"
}

/// Puts a line together. Level 99 is only for CONC and CONT.
fn with_tag<'a>(
    level: u8,
    xref: Option<&'a str>,
    tag: &'a str,
    raw: &'a str,
) -> Result<LineRef<'a>, LineFault>
    ensures { Answers parts result (put_together level (option_map (λ s. s.now) xref.entry)
        (tag.entry.now, raw.entry.now)) }
{
    if level == 99 && !is_continuation(tag) {
        return Err(LineFault::new(LineKind::BadLevel));
    }
    Ok(LineRef {
        level,
        xref,
        tag,
        raw,
    })
}

/// A line that begins with its level.
#[tactic(auto, unfolding(crate::specs::Reading::reading_from))]
fn line_of(text: &str) -> Result<LineRef<'_>, LineFault>
    ensures { Answers parts result (reading_from text.now) }
{
    let Some((level, rest)) = level_of(text) else {
        return Err(LineFault::new(LineKind::BadLevel));
    };
    let Some((xref, rest)) = xref_of(rest) else {
        return Err(LineFault::new(LineKind::BadXref));
    };
    let Some((tag, raw)) = tag_of(rest) else {
        return Err(LineFault::new(LineKind::BadTag));
    };
    with_tag(level, xref, tag, raw)
}

/// Whether there are only spaces and tabs.
fn is_blank(bytes: &[u8]) -> bool
    ensures { result ≡ list_all is_white bytes.now }
{
    bytes.iter().all(|b| Class::White.has(*b))
}

/// The bytes as text, if they are UTF-8 without U+0000.
fn text_of(bytes: &[u8]) -> Result<&str, LineFault>
    ensures { Answers (λ s. s.now) result (text_at bytes.now) }
{
    if bytes.contains(&0) {
        return Err(LineFault::new(LineKind::Nul));
    }
    match str::from_utf8(bytes) {
        Ok(text) => Ok(text),
        Err(_) => Err(LineFault::new(LineKind::NotUtf8)),
    }
}

/// `reading` of the bytes.
#[tactic(auto, unfolding(crate::specs::Reading::reading))]
fn read(bytes: &[u8]) -> Result<Option<LineRef<'_>>, LineFault>
    ensures { Answers (option_map parts) result (reading bytes.now) }
{
    if is_blank(bytes) {
        return Ok(None);
    }
    let text = match text_of(bytes) {
        Ok(text) => text,
        Err(fault) => return Err(fault),
    };
    let (_, rest) = Class::White.split(text);
    match line_of(rest) {
        Ok(line) => Ok(Some(line)),
        Err(fault) => Err(fault),
    }
}

/// Reads one line, given without CR and LF. `None`: it is blank. Takes no memory, and has no limit on
/// the length.
///
/// The grammar is that of The GEDCOM Standard Release 5.5.1, chapter 1, as docs/FORMATS.md restates it.
pub fn read_line(bytes: &[u8]) -> Result<Option<LineRef<'_>>, LineFault>
    requires { IsPiece bytes.now }

    // A line is answered exactly where the bytes spell one, and that one.
    ensures line { IfOk result (λ found. IfSome found (λ l. Line bytes.now (parts l))) }
    ensures every { (l : Parts) → Line bytes.now l → IsOkAnd result (λ found. option_map parts found ≡ Some l) }

    // None is answered exactly where they are blank.
    ensures blank { result ≡ Ok None ↔ IsBlank bytes.now }

    // A fault is answered exactly where it is the first one.
    ensures fault { IfErr result (λ f. Fault bytes.now f.kind) }
    ensures first { (k : LineKind) → Fault bytes.now k → IsErrAnd result (λ f. f.kind ≡ k) }

    // The same as one function.
    ensures exact { Answers (option_map parts) result (reading bytes.now) }
{
    read(bytes)
}
