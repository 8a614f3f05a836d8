//! Entries read.

ghost use Rattle.std.specs.Prelude.{◌≡◌, ◌&&◌, IfOk};
ghost use Rattle.record_shapes.specs.Entries as entries;
ghost use Rattle.record_shapes.specs.Shapes as shapes;
ghost use Rattle.record_fields.specs.Words.{entry_kind_of};
ghost use Rattle.entry_reading.specs.Guess.{are, kind_in};

use crate::comparing::are_entry_lines;
use crate::guessing::guessed;
use crate::rules::is_entry;
use field_rows::Known;
use record_fields::EntryKind;
use record_kinds::Entry;
use std::alloc::{AllocError, Global};
use stored_lines::{Carried, Value};

/// The register entry of a value and the lines below it. `None`: the lines are not exactly those of one, in order and
/// as they are written, or it does not keep the rules.
pub fn entry_of<K: Known>(
    alloc: Global,
    known: &K,
    value: &Value,
    lines: &[Carried],
) -> Result<Option<Entry>, AllocError>
    ensures { IfOk result (λ e. e ≡ entries.entry_of (K.known known.now) value.now lines.now) }
{
    let Some(kind) = kind_of(value) else {
        return Ok(None);
    };
    let entry = guessed(alloc, kind, lines)?;
    if is_of_lines(alloc, known, &entry, lines)? {
        Ok(Some(entry))
    } else {
        Ok(None)
    }
}

/// The kind of entry whose word a value is.
fn kind_of(value: &Value) -> Option<EntryKind>
    ensures { result ≡ kind_in value.now }
{
    match value {
        Value::Text(text) => kind_of_word(text.as_str()),
        Value::Ref(_) => None,
    }
}

#[tactic(auto, using(record_fields::proofs::Worded::entry_kind_read))]
fn kind_of_word(word: &str) -> Option<EntryKind>
    ensures { result ≡ entry_kind_of word.now }
{
    EntryKind::from_word(word)
}

/// Whether the lines are those of the entry, which keeps the rules.
fn is_of_lines<K: Known>(
    alloc: Global,
    known: &K,
    entry: &Entry,
    lines: &[Carried],
) -> Result<bool, AllocError>
    ensures { IfOk result (λ b. b ≡ (are lines.now (shapes.entry_lines (entries.around (K.known known.now)) entry.now)
        && entries.is_entry (K.known known.now) entry.now)) }
{
    if !is_entry(known, entry) {
        return Ok(false);
    }
    let item = entry.item.text(alloc)?;
    Ok(are_entry_lines(known, entry, item.as_str(), lines))
}
