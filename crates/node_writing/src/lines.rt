//! Lines one after the other: texts, pointers and carried lines.

ghost use Rattle.std.specs.Prelude.{◌≡◌, ◌++◌, ◌+◌, ◌-◌, ◌≤◌, ◌∷◌, [], OnOk, option_map, string_bytes};
ghost use Rattle.stored_lines.specs.Levels.{levels};
ghost use Rattle.record_shapes.specs.Shapes.{line, pointer_line, text_line, text_lines};
ghost use Rattle.node_writing.specs.Pages.{page};

use crate::named::Named;
use gedcom_line::write_line;
use gedcom_tree::push_text;
use record_text::Text;
use std::alloc::{AllocError, Global};
use stored_lines::{Carried, Value};

/// Appends a line with a text, and its continuations.
pub(crate) fn push_words<N: Named>(
    alloc: Global,
    out: &mut String,
    index: &N,
    level: u8,
    tag: &str,
    text: &str,
) -> Result<(), AllocError>
    requires { level ≤ 254 }
    ensures { OnOk result (string_bytes out.new ≡ string_bytes out.old
        ++ page (N.names index.now) level (text_line tag.now text.now ∷ [])) }
{
    push_text(alloc, out, level, None, tag, text)
}

/// Appends the line of a text, where there is one.
pub(crate) fn push_maybe<N: Named>(
    alloc: Global,
    out: &mut String,
    index: &N,
    level: u8,
    tag: &str,
    text: &Option<Text>,
) -> Result<(), AllocError>
    requires { level ≤ 254 }
    ensures { OnOk result (string_bytes out.new ≡ string_bytes out.old
        ++ page (N.names index.now) level (text_lines tag.now text.now)) }
{
    match text {
        Some(text) => push_words(alloc, out, index, level, tag, text.as_str()),
        None => Ok(()),
    }
}

/// Appends the line of a pointer to a number.
pub(crate) fn push_pointer<N: Named>(
    alloc: Global,
    out: &mut String,
    index: &N,
    level: u8,
    tag: &str,
    number: u32,
) -> Result<(), AllocError>
    ensures { OnOk result (string_bytes out.new ≡ string_bytes out.old
        ++ page (N.names index.now) level (pointer_line tag.now number [] ∷ [])) }
{
    let name = index.name(alloc, number)?;
    write_line(out, level, None, tag, name.as_str())
}

/// Appends the line of a value.
fn push_value<N: Named>(
    alloc: Global,
    out: &mut String,
    index: &N,
    level: u8,
    tag: &str,
    value: &Value,
) -> Result<(), AllocError>
    requires { level ≤ 254 }
    ensures { OnOk result (string_bytes out.new ≡ string_bytes out.old
        ++ page (N.names index.now) level (line tag.now value.now [] ∷ [])) }
{
    match value {
        Value::Text(text) => push_words(alloc, out, index, level, tag, text.as_str()),
        Value::Ref(number) => push_pointer(alloc, out, index, level, tag, *number),
    }
}

/// Appends a carried line, and those below it.
fn push_line<N: Named>(
    alloc: Global,
    out: &mut String,
    index: &N,
    level: u8,
    line: &Carried,
) -> Result<(), AllocError>
    requires { level + levels line.now ≤ 255 }
    ensures { OnOk result (string_bytes out.new ≡ string_bytes out.old
        ++ page (N.names index.now) level (line.now ∷ [])) }
{
    push_value(alloc, out, index, level, line.tag.as_str(), &line.value)?;
    'children: for child in &line.children {
        push_line(alloc, out, index, level + 1, child)?;
    }
    Ok(())
}

/// Does nothing: it tells a proof how many levels there are.
fn keep(line: &Carried)
    ensures { levels line.now ≤ 99 }
{
    let _ = &line.children;
}

/// Appends carried lines at a level, each with those below it.
pub fn push_carried<N: Named>(
    alloc: Global,
    out: &mut String,
    index: &N,
    level: u8,
    lines: &[Carried],
) -> Result<(), AllocError>
    requires { level ≤ 99 }
    ensures { OnOk result (string_bytes out.new ≡ string_bytes out.old ++ page (N.names index.now) level lines.now) }
{
    'lines: for line in lines {
        keep(line);
        push_line(alloc, out, index, level, line)?;
    }
    Ok(())
}
