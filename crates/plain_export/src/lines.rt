//! Lines made of words.

ghost use Rattle.std.specs.Prelude.{◌≡◌, ◌≤◌, ◌↔◌, ◌++◌, ◌∷◌, [], IfErr, IfOk, IsTrue, OnOk, string_bytes};
ghost use Rattle.stored_lines.specs.Levels.{levels as levels_of, forest_levels};
ghost use Rattle.stored_lines.specs.Tree.{forest_of};
ghost use Rattle.record_shapes.specs.Shapes as shapes;
ghost use Rattle.record_text.specs.Text.{IsTag};
ghost use Rattle.record_text.specs.Text.{IsText};
ghost use Rattle.plain_export.specs.Allowed.{said_lines};
ghost use Rattle.plain_export.specs.Fitting.{Fails, Fits};

use record_text::{RefusalKind, Tag, Text};
use std::alloc::{AllocError, Global};
use stored_lines::{Carried, Value};

/// The most levels of lines below one that is carried.
const MAX_BELOW: u32 = 98;

/// Words as a text. Refused with 70 where they are too long for one.
pub(crate) fn text_of(words: String) -> Result<Text, RefusalKind>
    ensures made { IfOk result (λ t. t ≡ string_bytes words) }
    ensures refused { IfErr result (λ e. Fails e (IsText (string_bytes words))) }
{
    match Text::try_new(words) {
        Some(text) => Ok(text),
        None => Err(RefusalKind::ExportTooLarge),
    }
}

/// A line with words.
pub(crate) fn words_line(alloc: Global, tag: &str, words: String) -> Result<Carried, RefusalKind>
    requires { IsTag tag.now }
    ensures made { IfOk result (λ c. c ≡ shapes.text_line tag.now (string_bytes words)) }
    ensures refused { IfErr result (λ e. Fails e (Fits (shapes.text_line tag.now (string_bytes words)))) }
{
    let text = text_of(words)?;
    Ok(text_line(alloc, tag, text)?)
}

/// A line with a text.
pub(crate) fn text_line(alloc: Global, tag: &str, text: Text) -> Result<Carried, AllocError>
    requires { IsTag tag.now }
    ensures { IfOk result (λ c. c ≡ shapes.text_line tag.now text) }
{
    Ok(Carried {
        tag: Tag::of_word(alloc, tag)?,
        value: Value::Text(text),
        children: Vec::new(alloc),
    })
}

/// Puts a line last.
pub(crate) fn put_line(lines: &mut Vec<Carried>, line: Carried) -> Result<(), AllocError>
    ensures { OnOk result (lines.new.items ≡ lines.old.items ++ line ∷ []) }
{
    lines.push(line)?;
    Ok(())
}

/// Puts the line of a text, unless it is empty.
pub(crate) fn put_text(
    alloc: Global,
    tag: &str,
    text: &Text,
    lines: &mut Vec<Carried>,
) -> Result<(), AllocError>
    requires { IsTag tag.now }
    ensures { OnOk result (lines.new.items ≡ lines.old.items ++ said_lines tag.now text.now) }
{
    if text.as_str().is_empty() {
        return Ok(());
    }
    put_line(lines, text_line(alloc, tag, text.copy(alloc)?)?)
}

/// A line with those below it. Refused with 70 where these have more levels than a file.
pub(crate) fn line(
    alloc: Global,
    tag: &str,
    value: Value,
    below: Vec<Carried>,
) -> Result<Carried, RefusalKind>
    requires { IsTag tag.now }
    ensures made { IfOk result (λ c. c ≡ shapes.line tag.now value below.items) }
    ensures refused { IfErr result (λ e. Fails e (forest_levels (forest_of below.items) ≤ 98)) }
{
    if !are_within(&below, MAX_BELOW) {
        return Err(RefusalKind::ExportTooLarge);
    }
    Ok(Carried {
        tag: Tag::of_word(alloc, tag)?,
        value,
        children: below,
    })
}

/// Whether lines have no more levels than that.
fn are_within(lines: &[Carried], levels: u32) -> bool
    ensures { IsTrue result ↔ (forest_levels (forest_of lines.now) ≤ levels) }
{
    'lines: for line in lines {
        if !is_within(line, levels) {
            return false;
        }
    }
    true
}

fn is_within(line: &Carried, levels: u32) -> bool
    ensures { IsTrue result ↔ (levels_of line.now ≤ levels) }
{
    if levels == 0 {
        return false;
    }
    'children: for child in &line.children {
        if !is_within(child, levels - 1) {
            return false;
        }
    }
    true
}
