//! Carried lines that a plain export keeps.

ghost use Rattle.std.specs.Prelude.{◌≡◌, IfOk, Some, option_copied};
ghost use Rattle.std.specs.List.{list_any};
ghost use Rattle.std.specs.Str.{bytes_eq};
ghost use Rattle.stored_lines.specs.Tree.{label};
ghost use Rattle.plain_export.specs.Kept as kept;

use archive_state::State;
use record_kinds::Record;
use std::alloc::{AllocError, Global};
use stored_lines::{Carried, Value};

/// The tags of our own.
const OURS: [&str; 8] = [
    "_LOC", "_REG", "_MENT", "_PART", "_ROLE", "_LINK", "_WHY", "_ITEM",
];

/// Whether a tag is one of our own.
pub(crate) fn is_ours(tag: &str) -> bool
    ensures { result ≡ kept.is_ours tag.now }
{
    is_one_of(tag, &OURS)
}

pub(crate) fn is_one_of(word: &str, tags: &[&str]) -> bool
    ensures { result ≡ list_any (λ tag. bytes_eq word.now tag.now) tags.now }
{
    tags.iter().any(|tag| word == *tag)
}

/// Whether what stands at a number has no record in a plain export.
fn is_left_out(found: Option<&Record>) -> bool
    ensures { result ≡ kept.is_left_out (option_copied found.entry) }
{
    match found {
        None => false,
        Some(record) => has_no_record(record),
    }
}

/// Whether a record has none in a plain export.
fn has_no_record(record: &Record) -> bool
    ensures { result ≡ kept.is_left_out (Some «record».now) }
{
    match record {
        Record::Place(_) => true,
        Record::Entry(_) => true,
        Record::Other(other) => is_ours(other.tag.as_str()),
        _ => false,
    }
}

/// Whether a value names what has no record in a plain export.
pub(crate) fn names_left_out(state: &State, value: &Value) -> bool
    ensures { result ≡ kept.names_left_out state.now.records value.now }
{
    match value {
        Value::Text(_) => false,
        Value::Ref(number) => is_left_out(state.record(*number)),
    }
}

/// Whether a carried line is dropped.
fn is_dropped(state: &State, line: &Carried) -> bool
    ensures { result ≡ kept.is_dropped state.now.records (label line.now) }
{
    is_ours(line.tag.as_str()) || names_left_out(state, &line.value)
}

/// A carried line with those of the lines below it that are kept.
fn kept_line(alloc: Global, state: &State, line: &Carried) -> Result<Carried, AllocError>
    ensures { IfOk result (λ c. c ≡ kept.trimmed state.now.records line.now) }
{
    let mut children = Vec::new(alloc);
    'children: for child in &line.children {
        if !is_dropped(state, child) {
            children.push(kept_line(alloc, state, child)?)?;
        }
    }
    Ok(Carried {
        tag: line.tag.copy(alloc)?,
        value: line.value.copy(alloc)?,
        children,
    })
}

/// The carried lines that are kept.
pub(crate) fn kept_lines(
    alloc: Global,
    state: &State,
    lines: &[Carried],
) -> Result<Vec<Carried>, AllocError>
    ensures { IfOk result (λ made. made.items ≡ kept.kept state.now.records lines.now) }
{
    let mut made = Vec::new(alloc);
    'lines: for line in lines {
        if !is_dropped(state, line) {
            made.push(kept_line(alloc, state, line)?)?;
        }
    }
    Ok(made)
}
