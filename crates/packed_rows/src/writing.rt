//! Lines written as one text.

ghost use Rattle.std.specs.Prelude.{◌≡◌, ◌++◌, IfOk, OnOk, string_bytes};
ghost use Rattle.std.specs.List.{AllByRecursion};
ghost use Rattle.packed_rows.specs.Packed.{IsTypedLine, line_text, lines_text, packed};

use crate::numbers::{push_number, push_target};
use crate::typing::tell_types;
use crate::words::push_text;
use std::alloc::{AllocError, Global};
use stored_lines::StoredLine;

/// The packed text of a record's lines: all that they say but the tag of the first one and the number that it names. Of
/// no lines it is empty. Its lines can be read again, since each value is one of its type.
pub fn pack(alloc: Global, lines: &[StoredLine]) -> Result<String, AllocError>
    ensures text { IfOk result (λ t. string_bytes t ≡ packed lines.now) }
    ensures typed { IfOk result (λ _. AllByRecursion IsTypedLine lines.now) }
{
    let mut out = String::new(alloc);
    push_packed(alloc, &mut out, lines)?;
    Ok(out)
}

/// The text of lines, the first one too. Of no lines it is empty.
pub fn pack_whole(alloc: Global, lines: &[StoredLine]) -> Result<String, AllocError>
    ensures text { IfOk result (λ t. string_bytes t ≡ lines_text lines.now) }
    ensures typed { IfOk result (λ _. AllByRecursion IsTypedLine lines.now) }
{
    let mut out = String::new(alloc);
    push_lines(alloc, &mut out, lines)?;
    Ok(out)
}

/// Adds the packed text of lines.
fn push_packed(alloc: Global, out: &mut String, lines: &[StoredLine]) -> Result<(), AllocError>
    ensures text { OnOk result (string_bytes out.new ≡ string_bytes out.old ++ packed lines.now) }
    ensures typed { OnOk result (AllByRecursion IsTypedLine lines.now) }
{
    let Some((first, below)) = lines.split_first() else {
        return Ok(());
    };
    tell_types(first);
    push_text(out, &first.text)?;
    out.push_str("\n")?;
    push_lines(alloc, out, below)
}

/// Adds lines, each with LF after it.
fn push_lines(alloc: Global, out: &mut String, lines: &[StoredLine]) -> Result<(), AllocError>
    ensures text { OnOk result (string_bytes out.new ≡ string_bytes out.old ++ lines_text lines.now) }
    ensures typed { OnOk result (AllByRecursion IsTypedLine lines.now) }
{
    'lines: for line in lines {
        tell_types(line);
        push_line(alloc, out, line)?;
        out.push_str("\n")?;
    }
    Ok(())
}

/// Adds a line.
fn push_line(alloc: Global, out: &mut String, line: &StoredLine) -> Result<(), AllocError>
    ensures { OnOk result (string_bytes out.new ≡ string_bytes out.old ++ line_text line.now) }
{
    push_number(alloc, out, line.depth)?;
    out.push_str(" ")?;
    out.push_str(line.tag.as_str())?;
    push_target(alloc, out, line.target)?;
    push_text(out, &line.text)
}
