//! The bytes of register entries: of one, and of a batch.

ghost use Rattle.std.specs.Prelude.{◌≡◌, ◌++◌, ◌∷◌, IfOk, map};
ghost use Rattle.record_fields.specs.Words.{entry_kind_word};
ghost use Rattle.csv.specs.Writing.{default_writer, row_text};
ghost use Rattle.commands.specs.Bytes.{bytes_of, entry_fields, mention_fields, or_empty, spelt};
ghost use Rattle.commands.specs.declared.command.Command.TheVariants as command;
ghost use Rattle.commands.specs.declared.row_command.RowCommand.TheVariants as row_command;

use crate::batch::batch_bytes;
use crate::digest::{date_or_empty, number_or_empty};
use crate::entry_row::{EntryRow, EntryRows, GivenMention};
use crate::rows::row_bytes;
use crate::verb::Verb;
use std::alloc::{AllocError, Global};

/// The bytes of the command that makes an entry of a source.
pub(crate) fn entry_bytes(
    alloc: Global,
    source: u32,
    entry: &EntryRow,
) -> Result<Vec<u8>, AllocError>
    ensures { IfOk result (λ bytes. bytes.items ≡ bytes_of (command.Row (row_command.Entry source entry.now))) }
{
    let source = source.to_string(alloc)?;
    let item = entry.item.number.to_string(alloc)?;
    let place = number_or_empty(alloc, entry.place)?;
    let mut words: Vec<&[u8]> = Vec::new(alloc);
    words.push(Verb::Entry.as_str().as_bytes())?;
    words.push(source.as_bytes())?;
    let words = with_entry(words, entry, item.as_bytes(), place.as_bytes())?;
    row_bytes(alloc, words.as_slice())
}

/// The bytes of the command that makes a batch of entries of a source.
pub(crate) fn entries_bytes(
    alloc: Global,
    source: u32,
    rows: &EntryRows,
) -> Result<Vec<u8>, AllocError>
    ensures { IfOk result (λ bytes. bytes.items ≡ bytes_of (command.Entries source rows.now)) }
{
    let mut bytes = batch_bytes(alloc, source, &[])?;
    for row in rows.as_slice() {
        bytes.extend_from_slice(entry_row_bytes(alloc, row)?.as_slice())?;
    }
    Ok(bytes)
}

/// The bytes of a row of a batch.
fn entry_row_bytes(alloc: Global, entry: &EntryRow) -> Result<Vec<u8>, AllocError>
    ensures { IfOk result (λ bytes. bytes.items ≡ row_text default_writer (entry_fields entry.now)) }
{
    let item = entry.item.number.to_string(alloc)?;
    let place = number_or_empty(alloc, entry.place)?;
    let words: Vec<&[u8]> = Vec::new(alloc);
    let words = with_entry(words, entry, item.as_bytes(), place.as_bytes())?;
    row_bytes(alloc, words.as_slice())
}

/// The words, and after them the fields of an entry, of which item and place are given as digits.
fn with_entry<'a>(
    mut words: Vec<&'a [u8]>,
    entry: &'a EntryRow,
    item: &'a [u8],
    place: &'a [u8],
) -> Result<Vec<&'a [u8]>, AllocError>
    ensures { IfOk result (λ all. map (λ w. w.now) all.items ≡ map (λ w. w.now) words.entry.items
        ++ (entry_kind_word entry.now.kind ∷ entry.now.page ∷ item.now ∷ or_empty spelt entry.now.date ∷ place.now
        ∷ entry.now.text
        ∷ mention_fields entry.now.mentions)) }
{
    let kind: &'a [u8] = entry.kind.as_str().as_bytes();
    let page = entry.page.as_str().as_bytes();
    let date = date_or_empty(&entry.date).as_bytes();
    let text = entry.text.as_str().as_bytes();
    words.extend_from_slice(&[kind, page, item, date, place, text])?;
    with_mentions(words, entry.mentions.as_slice())
}

/// The words, and after them role and name of each mention.
fn with_mentions<'a>(
    mut words: Vec<&'a [u8]>,
    mentions: &'a [GivenMention],
) -> Result<Vec<&'a [u8]>, AllocError>
    ensures { IfOk result (λ all. map (λ w. w.now) all.items ≡ map (λ w. w.now) words.entry.items
        ++ mention_fields mentions.now) }
{
    for mention in mentions {
        words.push(mention.role.as_str().as_bytes())?;
        words.push(mention.name.as_str().as_bytes())?;
    }
    Ok(words)
}
