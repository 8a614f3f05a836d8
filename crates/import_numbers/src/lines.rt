//! Carried lines with numbers for positions.

ghost use Rattle.std.specs.Prelude.{◌≡◌, IfOk, OnOk};
ghost use Rattle.stored_lines.specs.Tree.{relabel};
ghost use Rattle.archive_state.specs.Merging as merging;
ghost use Rattle.import_definitions.specs.Numbers.{number_at};

use crate::renumbering::number_of;
use std::alloc::{AllocError, Global};
use std::mem;
use stored_lines::{Carried, Value};

/// Puts the number of its position on a value.
pub(crate) fn renumber_value(value: &mut Value, numbers: &[u32])
    ensures { value.new ≡ merging.value_with (number_at numbers.now) value.old }
{
    if let Value::Ref(position) = value {
        *position = number_of(numbers, *position);
    }
}

/// A value with the number of its position.
fn value_with(value: Value, numbers: &[u32]) -> Value
    ensures { result ≡ merging.value_with (number_at numbers.now) value }
{
    match value {
        Value::Text(text) => Value::Text(text),
        Value::Ref(position) => Value::Ref(number_of(numbers, position)),
    }
}

/// A carried line with the numbers of the positions on it and below it.
fn line_with(alloc: Global, line: Carried, numbers: &[u32]) -> Result<Carried, AllocError>
    ensures { IfOk result (λ c. c ≡ relabel (merging.line_with (number_at numbers.now)) line) }
{
    let Carried {
        tag,
        value,
        children,
    } = line;
    let mut made = Vec::with_capacity(alloc, children.len())?;
    'children: for child in children {
        made.push(line_with(alloc, child, numbers)?)?;
    }
    Ok(Carried {
        tag,
        value: value_with(value, numbers),
        children: made,
    })
}

/// Carried lines with the numbers of the positions on them and below them.
fn lines_with(
    alloc: Global,
    lines: Vec<Carried>,
    numbers: &[u32],
) -> Result<Vec<Carried>, AllocError>
    ensures { IfOk result (λ made. made.items ≡ merging.lines_with (number_at numbers.now) lines.items) }
{
    let mut made = Vec::with_capacity(alloc, lines.len())?;
    'lines: for line in lines {
        made.push(line_with(alloc, line, numbers)?)?;
    }
    Ok(made)
}

/// Puts the number of each position in its place, on the lines and below them.
pub(crate) fn renumber_lines(
    alloc: Global,
    lines: &mut Vec<Carried>,
    numbers: &[u32],
) -> Result<(), AllocError>
    ensures { OnOk result (lines.new.items ≡ merging.lines_with (number_at numbers.now) lines.old.items) }
{
    let taken = mem::replace(lines, Vec::new(alloc));
    *lines = lines_with(alloc, taken, numbers)?;
    Ok(())
}
