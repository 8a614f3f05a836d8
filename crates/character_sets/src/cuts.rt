//! Units at the end of a value that belong to what the next line begins with.

ghost use Rattle.std.specs.Prelude.{◌≡◌, ◌≤◌, ◌-◌, ◌++◌, IfOk, IsTrue, drop, length, take};
ghost use Rattle.std.specs.Char.Utf16.{is_high_surrogate, is_low_surrogate};
ghost use Rattle.character_sets.specs.Cuts.{
  cut_units as cut_of,
  goes_on as goes_on_of,
  marks_at_end as marks_of,
  reaches_beyond as reaches_of,
  utf16_cut as utf16_of,
  utf8_cut as utf8_of,
};

use crate::ansel::mark;
use crate::set::CharacterSet;
use crate::utf8::{Beginning, front};
use std::alloc::{AllocError, Global};

/// How many units at the end of a value belong to a character that the value which goes on with it, `after`, ends: the
/// first bytes of one of UTF-8, half of one of UTF-16, marks of ANSEL. Units of a code page never do.
pub fn cut_units(
    alloc: Global,
    set: CharacterSet,
    value: &[u16],
    after: &[u16],
) -> Result<usize, AllocError>
    ensures count { IfOk result (λ n. n ≡ cut_of set value.now after.now) }
    ensures within { IfOk result (λ n. n ≤ length value.now) }
{
    match set {
        CharacterSet::Utf8 => utf8_cut(alloc, value, after),
        CharacterSet::Utf16Le | CharacterSet::Utf16Be => Ok(utf16_cut(value, after)),
        CharacterSet::Ansel => Ok(marks_at_end(value)),
        _ => Ok(0),
    }
}

fn utf8_cut(alloc: Global, value: &[u16], after: &[u16]) -> Result<usize, AllocError>
    ensures count { IfOk result (λ n. n ≡ utf8_of value.now after.now) }
    ensures within { IfOk result (λ n. n ≤ length value.now) }
{
    if after.is_empty() {
        return Ok(0);
    }
    if goes_on(alloc, value, after, 1)? {
        return Ok(1);
    }
    if goes_on(alloc, value, after, 2)? {
        return Ok(2);
    }
    if goes_on(alloc, value, after, 3)? {
        return Ok(3);
    }
    Ok(0)
}

/// Whether the last so many units are the first of a character that needs more.
#[tactic(auto, unfolding(crate::specs::Cuts::goes_on))]
fn goes_on(alloc: Global, value: &[u16], after: &[u16], count: usize) -> Result<bool, AllocError>
    ensures is { IfOk result (λ b. b ≡ goes_on_of value.now after.now count) }
    ensures within { IfOk result (λ b. IsTrue b → count ≤ length value.now) }
{
    if value.len() < count {
        return Ok(false);
    }
    let units = joined(alloc, last_units(value, count), first_units(after))?;
    Ok(reaches_beyond(front(&units), count))
}

fn last_units(units: &[u16], count: usize) -> &[u16]
    requires { count ≤ length units.now }
    ensures { result.now ≡ drop (length units.now - count) units.now }
{
    &units[units.len() - count..]
}

fn first_units(units: &[u16]) -> &[u16]
    ensures { result.now ≡ take 3 units.now }
{
    if units.len() < 3 { units } else { &units[..3] }
}

fn joined(alloc: Global, front: &[u16], back: &[u16]) -> Result<Vec<u16>, AllocError>
    ensures { IfOk result (λ units. units.items ≡ front.now ++ back.now) }
{
    let mut units = Vec::new(alloc);
    units.extend_from_slice(front)?;
    units.extend_from_slice(back)?;
    Ok(units)
}

fn reaches_beyond(beginning: Beginning, count: usize) -> bool
    ensures { result ≡ reaches_of beginning count }
{
    match beginning {
        Beginning::Whole(_, needed) => count < needed,
        Beginning::Partial => true,
        Beginning::Stray => false,
    }
}

fn utf16_cut(value: &[u16], after: &[u16]) -> usize
    ensures count { result ≡ utf16_of value.now after.now }
    ensures within { result ≤ length value.now }
{
    if value.is_empty() || after.is_empty() {
        return 0;
    }
    if is_high(value[value.len() - 1]) && is_low(after[0]) {
        return 1;
    }
    0
}

/// The first half of a character of UTF-16.
fn is_high(unit: u16) -> bool
    ensures { result ≡ is_high_surrogate unit }
{
    0xD800 <= unit && unit < 0xDC00
}

/// The second half.
fn is_low(unit: u16) -> bool
    ensures { result ≡ is_low_surrogate unit }
{
    0xDC00 <= unit && unit < 0xE000
}

fn marks_at_end(value: &[u16]) -> usize
    ensures count { result ≡ marks_of 0 value.now }
    ensures within { result ≤ length value.now }
{
    let mut count = 0usize;
    for unit in value {
        if mark(*unit).is_some() {
            count += 1;
        } else {
            count = 0;
        }
    }
    count
}
