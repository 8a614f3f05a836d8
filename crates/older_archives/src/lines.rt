//! The line of the date among the lines of a record.

ghost use Rattle.std.specs.Prelude.{◌≡◌, ◌++◌, IfOk, OnOk};
ghost use Rattle.older_archives.specs.Lines.{date_line_at, line_with, lines_with, place_in, text_on};

use record_text::Text;
use std::alloc::{AllocError, Global};
use stored_lines::{StoredLine, copied};

/// Where the line of the date stands: of an event the third, of a register entry the fifth. `None`: the lines are
/// those of another record.
pub(crate) fn place_in(lines: &[StoredLine]) -> Option<usize>
    ensures { result ≡ place_in lines.now }
{
    let Some(first) = lines.first() else {
        return None;
    };
    if first.tag.as_str() == "event" {
        Some(2)
    } else if first.tag.as_str() == "entry" {
        Some(4)
    } else {
        None
    }
}

/// The text on the line that stands there, where it is that of a date.
pub(crate) fn text_at(
    alloc: Global,
    lines: &[StoredLine],
    at: usize,
) -> Result<Option<Text>, AllocError>
    ensures { IfOk result (λ text. text ≡ date_line_at lines.now (Some at)) }
{
    match lines.get(at) {
        None => Ok(None),
        Some(line) => date_text(alloc, line),
    }
}

/// The text on a line, where it is that of a date.
fn date_text(alloc: Global, line: &StoredLine) -> Result<Option<Text>, AllocError>
    ensures { IfOk result (λ text. text ≡ text_on (Some line.now)) }
{
    if line.depth == 1 && line.tag.as_str() == "date" {
        copied(alloc, &line.text)
    } else {
        Ok(None)
    }
}

/// The lines in memory of their own, with another text on the one that stands there.
pub(crate) fn lines_with(
    alloc: Global,
    lines: &[StoredLine],
    at: usize,
    text: Text,
) -> Result<Vec<StoredLine>, AllocError>
    ensures { IfOk result (λ with. with.items ≡ lines_with at text lines.now) }
{
    let mut with = Vec::new(alloc);
    let Some(line) = lines.get(at) else {
        push_copies(alloc, &mut with, lines)?;
        return Ok(with);
    };
    push_copies(alloc, &mut with, &lines[..at])?;
    with.push(line_with(alloc, line, text)?)?;
    push_copies(alloc, &mut with, &lines[at + 1..])?;
    Ok(with)
}

/// The line in memory of its own, with another text.
fn line_with(alloc: Global, line: &StoredLine, text: Text) -> Result<StoredLine, AllocError>
    ensures { IfOk result (λ with. with ≡ line_with text line.now) }
{
    Ok(StoredLine {
        depth: line.depth,
        tag: line.tag.copy(alloc)?,
        text: Some(text),
        target: line.target,
    })
}

/// Adds copies of lines.
fn push_copies(
    alloc: Global,
    out: &mut Vec<StoredLine>,
    lines: &[StoredLine],
) -> Result<(), AllocError>
    ensures { OnOk result (out.new.items ≡ out.old.items ++ lines.now) }
{
    'lines: for line in lines {
        out.push(copy_of(alloc, line)?)?;
    }
    Ok(())
}

/// The line in memory of its own.
fn copy_of(alloc: Global, line: &StoredLine) -> Result<StoredLine, AllocError>
    ensures { IfOk result (λ copy. copy ≡ line.now) }
{
    Ok(StoredLine {
        depth: line.depth,
        tag: line.tag.copy(alloc)?,
        text: copied(alloc, &line.text)?,
        target: line.target,
    })
}
