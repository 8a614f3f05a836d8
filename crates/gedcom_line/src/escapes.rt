//! The doubling of `@` in values.

ghost use Rattle.std.specs.Prelude.{
  ◌≡◌,
  ◌+◌,
  ◌==◌,
  ◌<◌,
  true,
  false,
  List,
  ℕ,
  [],
  ◌∷◌,
  ◌++◌,
  IfOk,
  OnOk,
  MatchOption,
  string_bytes,
};
ghost use Rattle.gedcom_line.specs.Escape.{
  begins_escape as escape_test,
  ends_escape as end_test,
  NoAt,
  IsEscaped,
  escaped_from,
  escaped,
  unescaped,
  past_pair as pair_rest,
};

use crate::class::past;
use std::alloc::{AllocError, Global};

/// Whether what stands here is the end of an escape: characters that are not `@`, then `@` and a space.
fn ends_escape(rest: &str) -> bool
    ensures { result ≡ end_test rest.now }
{
    match rest.split_once('@') {
        Some((body, tail)) => !body.is_empty() && past(tail, ' ').is_some(),
        None => false,
    }
}

/// Whether an `@` before this text begins an escape, which goes on with `#`.
fn begins_escape(after: &str) -> bool
    ensures { result ≡ escape_test after.now }
{
    match past(after, '#') {
        Some(rest) => ends_escape(rest),
        None => false,
    }
}

/// What stands before the first `@` and after it.
pub(crate) fn cut(text: &str) -> Option<(&str, &str)>
    ensures { MatchOption result (NoAt text.now) (λ x. (text.now ≡ x.0.now ++ 64 ∷ x.1.now) × NoAt x.0.now) }
{
    text.split_once('@')
}

/// Appends two texts.
fn put(out: &mut String, front: &str, mark: &str) -> Result<(), AllocError>
    ensures { OnOk result (string_bytes out.new ≡ (string_bytes out.old ++ front.now) ++ mark.now) }
{
    out.push_str(front)?;
    out.push_str(mark)?;
    Ok(())
}

/// What is written for an `@` before this text, and whether the next one ends an escape.
pub(crate) fn mark_of(is_inside: bool, after: &str) -> (&'static str, bool)
    ensures { escaped_from is_inside (64 ∷ after.now) ≡ result.0.now ++ escaped_from result.1 after.now }
{
    if is_inside {
        return ("@", false);
    }
    if begins_escape(after) {
        return ("@", true);
    }
    ("@@", false)
}

/// The text as a value on a line: each `@` is doubled, but those of escapes (`@#..@ `), which stay as they
/// are.
///
/// The GEDCOM Standard Release 5.5.1, chapter 1 (the character `@`, escapes). An error comes only where
/// memory for the result is refused.
pub fn escape(alloc: Global, text: &str) -> Result<String, AllocError>
    ensures written { IfOk result (λ s. IsEscaped text.now (string_bytes s)) }

    // The same as one function.
    ensures exact { IfOk result (λ s. string_bytes s ≡ escaped text.now) }
{
    let mut out = String::new(alloc);
    let mut rest = text;
    let mut is_inside = false;
    while let Some((front, after)) = cut(rest) {
        let (mark, is_next_inside) = mark_of(is_inside, after);
        put(&mut out, front, mark)?;
        is_inside = is_next_inside;
        rest = after;
    }
    put(&mut out, rest, "")?;
    Ok(out)
}

/// What follows the second `@` of a pair, or all where there is none.
fn past_pair(after: &str) -> &str
    ensures { result.now ≡ pair_rest after.now }
{
    match past(after, '@') {
        Some(rest) => rest,
        None => after,
    }
}

/// The text of a value on a line: two `@` are read as one, from left to right; a single one as itself.
///
/// No value is refused, since files of other programs have single ones: an error comes only where memory is.
pub fn unescape(alloc: Global, value: &str) -> Result<String, AllocError>
    ensures { IfOk result (λ s. string_bytes s ≡ unescaped value.now) }
{
    let mut out = String::new(alloc);
    let mut rest = value;
    while let Some((front, after)) = cut(rest) {
        put(&mut out, front, "@")?;
        rest = past_pair(after);
    }
    put(&mut out, rest, "")?;
    Ok(out)
}
