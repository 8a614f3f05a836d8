//! Characters that a line which goes on with another one was cut in.

ghost use Rattle.std.specs.Prelude.{◌≡◌, ◌<◌, ◌≤◌, ◌++◌, ◌∷◌, IfOk, IfSome, drop, length};
ghost use Rattle.character_sets.specs.Cuts.{cut_units};
ghost use Rattle.character_sets.specs.Lines.{lines};
ghost use Rattle.character_sets.specs.Moves.{
  cut_at as cut_of,
  cut_between as cut_between_of,
  goes_on as goes_on_of,
  is_conc as is_conc_of,
  is_continuation as is_continuation_of,
  joined as joined_of,
  kept,
  last,
  left_over,
  moved,
  next_body as next_of,
};

use crate::cuts::cut_units;
use crate::heads::{KnownTag, LineHead, line_head};
use crate::lines::{first_line, from, is_blank};
use crate::set::CharacterSet;
use std::alloc::{AllocError, Global};

/// The next line that is not blank, of what is left of a file; an empty one at its end.
fn next_body(units: &[u16]) -> &[u16]
    ensures { result.now ≡ next_of (lines units.now) }
{
    let mut rest = units;
    'lines: while !rest.is_empty() {
        let cut = first_line(rest);
        if !is_blank(cut.body) {
            return cut.body;
        }
        rest = cut.rest;
    }
    rest
}

fn is_conc(tag: KnownTag) -> bool
    ensures { result ≡ is_conc_of tag }
{
    match tag {
        KnownTag::Conc => true,
        _ => false,
    }
}

fn is_continuation(tag: KnownTag) -> bool
    ensures { result ≡ is_continuation_of tag }
{
    match tag {
        KnownTag::Conc | KnownTag::Cont => true,
        _ => false,
    }
}

/// Whether the second line goes on with the value of the first.
fn goes_on(first: &LineHead, second: &LineHead) -> bool
    ensures { result ≡ goes_on_of first.now second.now }
{
    if !is_conc(second.tag) {
        return false;
    }
    if is_continuation(first.tag) {
        second.level == first.level
    } else {
        u32::from(second.level) == u32::from(first.level) + 1
    }
}

/// How many units at the end of a line go to the value of the next one, where `carry` is in front of its own value.
#[tactic(auto, unfolding(crate::specs::Moves::cut_at))]
fn cut_at(
    alloc: Global,
    set: CharacterSet,
    carry: &[u16],
    body: &[u16],
    next: &[u16],
) -> Result<usize, AllocError>
    ensures { IfOk result (λ n. n ≡ cut_of set carry.now body.now next.now) }
{
    let heads = (line_head(body), line_head(next));
    cut_between(alloc, set, carry, body, next, heads.0, heads.1)
}

/// The same of two lines with these heads.
fn cut_between(
    alloc: Global,
    set: CharacterSet,
    carry: &[u16],
    body: &[u16],
    next: &[u16],
    first: Option<LineHead>,
    second: Option<LineHead>,
) -> Result<usize, AllocError>
    requires first { IfSome first (λ h. h.value_at ≤ length body.now) }
    requires second { IfSome second (λ h. h.value_at ≤ length next.now) }
    ensures { IfOk result (λ n. n ≡ cut_between_of set carry.now body.now next.now first second) }
{
    match (first, second) {
        (Some(first), Some(second)) if goes_on(&first, &second) => {
            let after = from(next, second.value_at);
            cut_of_value(alloc, set, carry, from(body, first.value_at), after)
        }
        _ => Ok(0),
    }
}

/// How many units at the end of a value with `carry` in front go to the value `after`.
fn cut_of_value(
    alloc: Global,
    set: CharacterSet,
    carry: &[u16],
    value: &[u16],
    after: &[u16],
) -> Result<usize, AllocError>
    ensures { IfOk result (λ n. n ≡ cut_units set (carry.now ++ value.now) after.now) }
{
    let mut whole: Vec<u16> = Vec::new(alloc);
    whole.extend_from_slice(carry)?;
    whole.extend_from_slice(value)?;
    cut_units(alloc, set, &whole, after)
}

/// A line with the units that belong to the beginning of its value.
fn joined(alloc: Global, carry: &[u16], body: &[u16]) -> Result<Vec<u16>, AllocError>
    ensures { IfOk result (λ whole. whole.items ≡ joined_of carry.now body.now) }
{
    let mut whole = Vec::new(alloc);
    let head = line_head(body);
    match head {
        Some(head) if !carry.is_empty() => {
            whole.extend_from_slice(&body[..head.value_at])?;
            if !head.is_parted {
                whole.push(32)?;
            }
            whole.extend_from_slice(carry)?;
            whole.extend_from_slice(&body[head.value_at..])?;
        }
        _ => whole.extend_from_slice(body)?,
    }
    Ok(whole)
}

/// The first line of units as it is written, the units that belong to the next one's value, and those after it.
#[derive(Drop)]
pub struct Moved<'a> {
    pub body: Vec<u16>,
    pub ending: &'a [u16],
    pub carry: Vec<u16>,
    pub rest: &'a [u16],
}

/// The first line of units, whose value has `carry` in front.
pub fn moved_line(
    alloc: Global,
    set: CharacterSet,
    carry: Vec<u16>,
    units: &[u16],
) -> Result<Moved<'_>, AllocError>
    requires { 0 < length units.now }
    ensures line { IfOk result (λ m. moved set carry.items (lines units.now)
        ≡ record { body = m.body.items; ending = m.ending.now } ∷ moved set m.carry.items (lines m.rest.now)) }
    ensures carry { IfOk result (λ m. m.carry.items ≡ left_over set carry.items (lines units.now)) }
    ensures rest { IfOk result (λ m. lines m.rest.now ≡ drop 1 (lines units.now)) }
    ensures shorter { IfOk result (λ m. length m.rest.now < length units.now) }
{
    let cut = first_line(units);
    if is_blank(cut.body) {
        let body = cut.body.to_vec(alloc)?;
        return Ok(Moved {
            body,
            ending: cut.ending,
            carry,
            rest: cut.rest,
        });
    }
    let count = cut_at(alloc, set, &carry, cut.body, next_body(cut.rest))?;
    let whole = joined(alloc, &carry, cut.body)?;
    let (body, next) = parted(alloc, &whole, count)?;
    Ok(Moved {
        body,
        ending: cut.ending,
        carry: next,
        rest: cut.rest,
    })
}

/// All units but the last so many, and these.
fn parted(alloc: Global, whole: &[u16], count: usize) -> Result<(Vec<u16>, Vec<u16>), AllocError>
    ensures { IfOk result (λ p. (p.0.items ≡ kept count whole.now) × (p.1.items ≡ last count whole.now)) }
{
    let at = whole.len().saturating_sub(count);
    let body = whole[..at].to_vec(alloc)?;
    let next = whole[at..].to_vec(alloc)?;
    Ok((body, next))
}
