//! Records with one person's number changed into another's.

ghost use Rattle.std.specs.Prelude.{◌≡◌, ℕ, IfOk, map, option_map};
ghost use Rattle.stored_lines.specs.Tree.{relabel};
ghost use Rattle.archive_state.specs.Merging as merging;

use std::alloc::{AllocError, Global};
use stored_lines::{Carried, Value};

/// A part of a record, in which numbers stand.
pub(crate) trait Renamed: Drop {
    ghost with: { (ℕ → ℕ) → Self → Self };

    /// The same part in memory of its own, with `keep` for each `gone`.
    fn renamed(&self, alloc: Global, keep: u32, gone: u32) -> Result<Self, AllocError>
        ensures { IfOk result (λ p. p ≡ with (merging.renamed keep gone) self.now) };
}

/// Parts with their numbers changed, in their order.
pub(crate) fn renamed_all<P: Renamed>(
    alloc: Global,
    parts: &[P],
    keep: u32,
    gone: u32,
) -> Result<Vec<P>, AllocError>
    ensures { IfOk result (λ made. made.items ≡ map (P.with (merging.renamed keep gone)) parts.now) }
{
    let mut made = Vec::new(alloc);
    'parts: for part in parts {
        made.push(part.renamed(alloc, keep, gone)?)?;
    }
    Ok(made)
}

/// A part that may be missing.
pub(crate) fn renamed_part<P: Renamed>(
    alloc: Global,
    part: &Option<P>,
    keep: u32,
    gone: u32,
) -> Result<Option<P>, AllocError>
    ensures { IfOk result (λ made. made ≡ option_map (P.with (merging.renamed keep gone)) part.now) }
{
    match part {
        None => Ok(None),
        Some(part) => Ok(Some(part.renamed(alloc, keep, gone)?)),
    }
}

/// `keep` for `gone`, and each other number as it is.
pub(crate) fn number_with(number: u32, keep: u32, gone: u32) -> u32
    ensures { result ≡ merging.renamed keep gone number }
{
    if number == gone { keep } else { number }
}

/// The same of a number that may be missing.
pub(crate) fn maybe_number(number: Option<u32>, keep: u32, gone: u32) -> Option<u32>
    ensures { result ≡ option_map (merging.renamed keep gone) number }
{
    match number {
        None => None,
        Some(number) => Some(number_with(number, keep, gone)),
    }
}

/// A value with its number changed.
pub(crate) fn value_with(
    alloc: Global,
    value: &Value,
    keep: u32,
    gone: u32,
) -> Result<Value, AllocError>
    ensures { IfOk result (λ v. v ≡ merging.value_with (merging.renamed keep gone) value.now) }
{
    match value {
        Value::Text(text) => Ok(Value::Text(text.copy(alloc)?)),
        Value::Ref(number) => Ok(Value::Ref(number_with(*number, keep, gone))),
    }
}

/// A carried line with the numbers in it and below it changed.
pub(crate) fn line_with(
    alloc: Global,
    line: &Carried,
    keep: u32,
    gone: u32,
) -> Result<Carried, AllocError>
    ensures { IfOk result (λ c. c ≡ relabel (merging.line_with (merging.renamed keep gone)) line.now) }
{
    let mut children = Vec::new(alloc);
    'children: for child in &line.children {
        children.push(line_with(alloc, child, keep, gone)?)?;
    }
    Ok(Carried {
        tag: line.tag.copy(alloc)?,
        value: value_with(alloc, &line.value, keep, gone)?,
        children,
    })
}

/// Carried lines with the numbers in them changed.
pub(crate) fn lines_with(
    alloc: Global,
    lines: &[Carried],
    keep: u32,
    gone: u32,
) -> Result<Vec<Carried>, AllocError>
    ensures { IfOk result (λ made. made.items ≡ merging.lines_with (merging.renamed keep gone) lines.now) }
{
    let mut made = Vec::new(alloc);
    'lines: for line in lines {
        made.push(line_with(alloc, line, keep, gone)?)?;
    }
    Ok(made)
}
