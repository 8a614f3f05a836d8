//! Texts of places: made normal, measured and tested.

ghost use Rattle.std.specs.Prelude.{
  ◌==◌,
  ◌≡◌,
  ◌≢◌,
  ◌∷◌,
  [],
  ◌++◌,
  ◌&&◌,
  nat_le,
  ℕ,
  List,
  IfOk,
  MatchOption,
  length,
  string_bytes,
};
ghost use Rattle.std.specs.List.{count_by, list_any};
ghost use Rattle.record_shapes.specs.Paths as paths;
ghost use Rattle.record_shapes.specs.Fields.{path_below as below_another};
ghost use Rattle.field_rows.specs.Cuts.{Without, is_written};

use std::alloc::{AllocError, Global};

/// The most parts and the most bytes that a path has.
const MOST_PARTS: usize = 32;

const MOST_BYTES: usize = 4_096;

/// The bytes of comma and space, which a path has between two names.
const BETWEEN: usize = 2;

/// The text made normal: its parts between commas, freed of spaces at their ends, with comma and space between.
pub fn made_normal(alloc: Global, text: &str) -> Result<String, AllocError>
    ensures { IfOk result (λ s. string_bytes s ≡ paths.normal text.now) }
{
    let mut out = String::new(alloc);
    let mut rest = text;
    while let Some((part, after)) = cut(rest) {
        out.push_str(trimmed(part))?;
        out.push_str(", ")?;
        rest = after;
    }
    out.push_str(trimmed(rest))?;
    Ok(out)
}

/// What is before the first comma and after it.
fn cut(text: &str) -> Option<(&str, &str)>
    ensures { MatchOption result (Without 44 text.now)
        (λ x. (text.now ≡ x.0.now ++ 44 ∷ x.1.now) × Without 44 x.0.now) }
{
    text.split_once(',')
}

/// The text without the spaces at its ends.
fn trimmed(text: &str) -> &str
    ensures { result.now ≡ paths.trimmed text.now }
{
    until_word(from_word(text))
}

/// The text without the spaces in front.
fn from_word(text: &str) -> &str
    ensures { result.now ≡ paths.from_word text.now }
{
    let mut rest = text;
    while let Some(next) = behind_space(rest) {
        rest = next;
    }
    rest
}

/// The text without the spaces at its end.
fn until_word(text: &str) -> &str
    ensures { result.now ≡ paths.backwards (paths.from_word (paths.backwards text.now)) }
{
    let mut rest = text;
    while let Some(front) = before_space(rest) {
        rest = front;
    }
    rest
}

/// What is after one space.
fn behind_space(text: &str) -> Option<&str>
    ensures { MatchOption result ((rest : List ℕ) → text.now ≢ 32 ∷ rest) (λ rest. text.now ≡ 32 ∷ rest.now) }
{
    text.strip_prefix(' ')
}

/// What is before one space that ends the text.
fn before_space(text: &str) -> Option<&str>
    ensures { MatchOption result ((front : List ℕ) → text.now ≢ front ++ 32 ∷ [])
        (λ front. text.now ≡ front.now ++ 32 ∷ []) }
{
    text.strip_suffix(' ')
}

/// At most 32 parts and 4,096 bytes.
#[tactic(auto, unfolding(record_shapes::specs::Paths::is_within_limits))]
pub fn is_within_limits(path: &str) -> bool
    ensures { result ≡ paths.is_within_limits path.now }
{
    is_within(path, MOST_PARTS, MOST_BYTES)
}

/// Whether the path of a place of a name below one of a path is within the limits.
#[tactic(auto, using(crate::proofs::Parted::many_parts, crate::proofs::Parted::many_bytes))]
pub fn is_below_within_limits(name: &str, above: &str) -> bool
    ensures { result ≡ paths.is_within_limits (below_another name.now above.now) }
{
    let own = part_count(name);
    if own > MOST_PARTS {
        return false;
    }
    if name.len() > MOST_BYTES - BETWEEN {
        return false;
    }
    is_within(above, MOST_PARTS - own, MOST_BYTES - BETWEEN - name.len())
}

/// Whether a text has at most so many parts and bytes.
fn is_within(text: &str, parts: usize, bytes: usize) -> bool
    ensures { result ≡ (nat_le (length (paths.parts text.now)) parts && nat_le (length text.now) bytes) }
{
    part_count(text) <= parts && text.len() <= bytes
}

/// The path of a place of a name below one of a path.
pub fn path_below(alloc: Global, name: &str, above: &str) -> Result<String, AllocError>
    ensures { IfOk result (λ s. string_bytes s ≡ below_another name.now above.now) }
{
    let mut path = String::from_str(alloc, name)?;
    path.push_str(", ")?;
    path.push_str(above)?;
    Ok(path)
}

/// How many parts a text has: one more than its commas.
#[tactic(auto, using(record_shapes::proofs::PathTexts::count_is))]
fn part_count(text: &str) -> usize
    ensures { result ≡ length (paths.parts text.now) }
{
    commas(text.as_bytes()) + 1
}

/// How many commas there are.
fn commas(text: &[u8]) -> usize
    ensures { result ≡ count_by (λ b. b == 44) text.now }
{
    text.iter().filter(|b| **b == b',').count()
}

/// Whether a part is not empty, freed of the spaces at its ends.
#[tactic(auto, using(crate::proofs::Written::has_part_is))]
pub fn has_part(path: &str) -> bool
    ensures { result ≡ paths.has_part path.now }
{
    has_written(path.as_bytes())
}

/// Whether a byte is neither comma nor space.
fn has_written(path: &[u8]) -> bool
    ensures { result ≡ list_any is_written path.now }
{
    path.iter().any(|b| *b != b',' && *b != b' ')
}
