//! The canonical cut of a text into parts that each stand on one line.

ghost use Rattle.std.specs.Prelude.{
  ◌≡◌,
  ◌+◌,
  ◌-◌,
  ◌<◌,
  ◌≤◌,
  Bool,
  true,
  false,
  List,
  ℕ,
  [],
  ◌∷◌,
  ◌++◌,
  IfOk,
  OnOk,
  MatchOption,
  unwrap_or,
  map,
  length,
  slice_index,
  take,
  drop,
};
ghost use Rattle.std.specs.List.{AllByRecursion, list_all};
ghost use Rattle.std.specs.Str.{IsCharBoundary, IsUtf8};
ghost use Rattle.gedcom_line.specs.Escape.{escaped, unescaped};
ghost use Rattle.gedcom_line.specs.Split.{
  begins_char as begins_test,
  char_count,
  front_len,
  is_short as short_test,
  may_cut as cut_test,
  is_good_cut as good_test,
  greatest,
  cut_len,
  segment_parts,
  marked,
  part,
  canonical,
  joined,
  Parts,
  Part,
  is_lf,
  NoLf,
  IsSplit,
};

use crate::escapes::{cut, mark_of};
use std::alloc::{AllocError, Global};

/// How a part of a text is joined to what stands before it.
#[derive(Clone, Copy, Debug)]
pub enum Mark {
    /// With nothing between.
    Conc,
    /// With LF between.
    Cont,
}

/// A part of a text that stands on one line.
#[derive(Clone, Copy, Debug)]
pub struct TextPart<'a> {
    pub mark: Mark,
    pub text: &'a str,
}

/// The most characters of a part, as it is written.
const LONGEST: usize = 200;

/// Whether the byte begins a character.
fn begins_char(byte: u8) -> bool
    ensures { result ≡ begins_test byte }
{
    byte < 128 || 192 <= byte
}

/// How many characters the text has.
#[tactic(auto, unfolding(crate::specs::Split::char_count))]
fn count(text: &str) -> usize
    ensures { result ≡ char_count text.now }
{
    text.as_bytes().iter().filter(|b| begins_char(**b)).count()
}

/// How many bytes the first so many characters have.
fn window(text: &str, chars: usize) -> usize
    ensures { result ≡ front_len chars text.now }
{
    let mut left = chars;
    for (i, byte) in text.as_bytes().iter().enumerate() {
        if begins_char(*byte) {
            if left == 0 {
                return i;
            }
            left -= 1;
        }
    }
    text.len()
}

/// How many characters a text of at most 200 has as it is written.
fn written_count(text: &str) -> usize
    requires { char_count text.now ≤ 200 }
    ensures { result ≡ char_count (escaped text.now) }
{
    let mut total = 0;
    let mut rest = text;
    let mut is_inside = false;
    while let Some((front, after)) = cut(rest) {
        let (mark, is_next_inside) = mark_of(is_inside, after);
        total += count(front) + count(mark);
        is_inside = is_next_inside;
        rest = after;
    }
    total + count(rest)
}

/// Whether the text has as it is written at most 200 characters: each of its bytes is written as at most two.
fn is_short(text: &str) -> bool
    ensures { result ≡ short_test text.now }
{
    text.len() <= LONGEST / 2
        || (window(text, LONGEST) == text.len() && written_count(text) <= LONGEST)
}

/// Whether the segment may be cut here.
fn may_cut(segment: &str, end: usize) -> bool
    requires { end < length segment.now }
    ensures { result ≡ cut_test segment.now end }
{
    begins_char(segment.as_bytes()[end]) && is_short(&segment[..end])
}

/// Whether the segment may be cut here, and no space stands before the cut or after it.
fn is_good_cut(segment: &str, end: usize) -> bool
    requires { (0 < end) × (end < length segment.now) }
    ensures { result ≡ good_test segment.now end }
{
    let bytes = segment.as_bytes();
    bytes[end - 1] != b' ' && bytes[end] != b' ' && may_cut(segment, end)
}

/// The last good cut up to here.
fn last_good_cut(segment: &str, end: usize) -> Option<usize>
    requires { end < length segment.now }
    ensures { result ≡ greatest (good_test segment.now) end }
{
    let mut at = end;
    while 0 < at {
        if is_good_cut(segment, at) {
            return Some(at);
        }
        at -= 1;
    }
    None
}

/// The last cut up to here.
fn last_cut(segment: &str, end: usize) -> Option<usize>
    requires { end < length segment.now }
    ensures { result ≡ greatest (cut_test segment.now) end }
{
    let mut at = end;
    while 0 < at {
        if may_cut(segment, at) {
            return Some(at);
        }
        at -= 1;
    }
    None
}

/// How many characters the first so many have beyond 200 as they are written.
fn excess(segment: &str, chars: usize) -> usize
    requires { chars ≤ 200 }
    ensures { result ≡ char_count (escaped (take (front_len chars segment.now) segment.now)) - 200 }
{
    let end = window(segment, chars);
    written_count(&segment[..end]).saturating_sub(LONGEST)
}

/// A place after which the segment may not be cut.
fn farthest(segment: &str) -> usize
    requires { short_test segment.now ≡ false }
    ensures within { result < length segment.now }
    ensures good { greatest (good_test segment.now) result ≡ greatest (good_test segment.now) (length segment.now - 1) }
    ensures cut { greatest (cut_test segment.now) result ≡ greatest (cut_test segment.now) (length segment.now - 1) }
{
    let mut chars = LONGEST;
    let mut over = excess(segment, chars);
    while 0 < over {
        // A character less is written as at most two less.
        chars -= over.div_ceil(2);
        over = excess(segment, chars);
    }
    window(segment, chars)
}

/// The last cut up to here, or 1.
fn last_resort(segment: &str, end: usize) -> usize
    requires { end < length segment.now }
    ensures { result ≡ unwrap_or (greatest (cut_test segment.now) end) 1 }
{
    match last_cut(segment, end) {
        Some(at) => at,
        None => 1,
    }
}

/// Where a segment that is too long is cut.
fn place(segment: &str) -> usize
    requires { short_test segment.now ≡ false }
    ensures { result ≡ cut_len segment.now }
{
    let end = farthest(segment);
    match last_good_cut(segment, end) {
        Some(at) => at,
        None => last_resort(segment, end),
    }
}

/// The first part of a segment that is too long, and the rest.
fn cut_part(segment: &str) -> (&str, &str)
    requires { short_test segment.now ≡ false }
    ensures part { result.0.now ≡ take (cut_len segment.now) segment.now }
    ensures rest { result.1.now ≡ drop (cut_len segment.now) segment.now }
    ensures shorter { length result.1.now < length segment.now }
{
    segment.split_at(place(segment))
}

/// Adds the parts of a segment, of which the first is a CONT.
fn push_parts<'a>(out: &mut Vec<TextPart<'a>>, segment: &'a str) -> Result<(), AllocError>
    ensures { OnOk result (map part out.new.items ≡ map part out.old.items ++ marked Mark.Cont
        (segment_parts segment.now)) }
{
    let mut mark = Mark::Cont;
    let mut rest = segment;
    while !is_short(rest) {
        let (text, after) = cut_part(rest);
        out.push(TextPart { mark, text })?;
        mark = Mark::Conc;
        rest = after;
    }
    out.push(TextPart { mark, text: rest })?;
    Ok(())
}

/// What stands before the first LF and after it.
fn cut_segment(text: &str) -> Option<(&str, &str)>
    ensures { MatchOption result (NoLf text.now) (λ x. (text.now ≡ x.0.now ++ 10 ∷ x.1.now) × NoLf x.0.now) }
{
    text.split_once('\n')
}

/// The canonical split of a text: at each LF, and where a segment is too long for one line. The first part
/// stands on the line itself, and its mark is not looked at.
///
/// CONC and CONT: The GEDCOM Standard Release 5.5.1, chapter 1. The places of the cuts: docs/FORMATS.md.
/// An error comes only where memory for the list of parts is refused.
pub fn split_text<'a>(alloc: Global, text: &'a str) -> Result<Vec<TextPart<'a>>, AllocError>
    ensures split { IfOk result (λ ps. IsSplit text.now (map part ps.items)) }

    // The same as one function.
    ensures exact { IfOk result (λ ps. map part ps.items ≡ canonical text.now) }
{
    let mut out = Vec::new(alloc);
    let mut rest = text;
    while let Some((segment, after)) = cut_segment(rest) {
        push_parts(&mut out, segment)?;
        rest = after;
    }
    push_parts(&mut out, rest)?;
    Ok(out)
}
