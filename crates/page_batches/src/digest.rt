//! The digest of a page.

ghost use Rattle.std.specs.Prelude.{◌≡◌, ◌++◌, ◌∷◌, [], IfOk, map, string_bytes};
ghost use Rattle.csv.specs.Writing.{default_writer, row_text};
ghost use Rattle.record_fields.specs.Words.{entry_kind_word};
ghost use Rattle.commands.specs.Bytes.{mention_fields, or_empty, spelt};
ghost use Rattle.page_batches.specs.Digests as digests;

use commands::{GivenDate, GivenMention};
use csv::WriterBuilder;
use page_entries::{PageEntry, PagePlace};
use sha2::{Digest, Sha256};
use std::alloc::{AllocError, Global};

/// The SHA-256 of a page's entries for a source: of `table,`, its number, LF, and each entry as a row of CSV, with its
/// place as the page names it.
pub fn page_digest(
    alloc: Global,
    source: u32,
    entries: &[PageEntry],
) -> Result<[u8; 32], AllocError>
    ensures { IfOk result (λ digest. digest ≡ digests.page_digest source entries.now) }
{
    let bytes = page_bytes(alloc, source, entries)?;
    Ok(Sha256::digest(bytes.as_slice()))
}

fn page_bytes(alloc: Global, source: u32, entries: &[PageEntry]) -> Result<Vec<u8>, AllocError>
    ensures { IfOk result (λ bytes. bytes.items ≡ digests.page_bytes source entries.now) }
{
    let mut bytes = head_bytes(alloc, source)?;
    for entry in entries {
        bytes.extend_from_slice(entry_bytes(alloc, entry)?.as_slice())?;
    }
    Ok(bytes)
}

/// What is before the rows.
fn head_bytes(alloc: Global, source: u32) -> Result<Vec<u8>, AllocError>
    ensures { IfOk result (λ bytes. bytes.items ≡ digests.page_bytes source []) }
{
    let mut bytes = Vec::new(alloc);
    bytes.extend_from_slice(b"table,")?;
    bytes.extend_from_slice(source.to_string(alloc)?.as_bytes())?;
    bytes.push(b'\n')?;
    Ok(bytes)
}

/// An entry as a row.
fn entry_bytes(alloc: Global, entry: &PageEntry) -> Result<Vec<u8>, AllocError>
    ensures { IfOk result (λ bytes. bytes.items ≡ row_text default_writer (digests.entry_fields entry.now)) }
{
    let item = entry.item.number.to_string(alloc)?;
    let place = place_words(alloc, &entry.place)?;
    let words = entry_words(alloc, entry, item.as_bytes(), place.as_bytes())?;
    row_bytes(alloc, words.as_slice())
}

/// The fields of an entry, of which item and place are given.
fn entry_words<'a>(
    alloc: Global,
    entry: &'a PageEntry,
    item: &'a [u8],
    place: &'a [u8],
) -> Result<Vec<&'a [u8]>, AllocError>
    ensures { IfOk result (λ all. map (λ w. w.now) all.items ≡ entry_kind_word entry.now.kind ∷ entry.now.page
        ∷ item.now ∷ or_empty spelt entry.now.date.given ∷ place.now ∷ entry.now.text
        ∷ mention_fields entry.now.mentions) }
{
    let kind: &'a [u8] = entry.kind.as_str().as_bytes();
    let page = entry.page.as_str().as_bytes();
    let date = spelling_of(&entry.date.given).as_bytes();
    let text = entry.text.as_str().as_bytes();
    let mut words: Vec<&'a [u8]> = Vec::new(alloc);
    words.extend_from_slice(&[kind, page, item, date, place, text])?;
    with_mentions(words, entry.mentions.as_slice())
}

/// The words, and after them role and name of each mention.
fn with_mentions<'a>(
    mut words: Vec<&'a [u8]>,
    mentions: &'a [GivenMention],
) -> Result<Vec<&'a [u8]>, AllocError>
    ensures { IfOk result (λ all. map (λ w. w.now) all.items ≡ map (λ w. w.now) words.entry.items
        ++ mention_fields mentions.now) }
{
    for mention in mentions {
        words.push(mention.role.as_str().as_bytes())?;
        words.push(mention.name.as_str().as_bytes())?;
    }
    Ok(words)
}

/// The canonical spelling of a date, or nothing.
fn spelling_of(date: &Option<GivenDate>) -> &str
    ensures { result.now ≡ or_empty spelt date.now }
{
    match date {
        Some(date) => date.spelling(),
        None => "",
    }
}

/// A place as the page names it, or nothing.
pub(crate) fn place_words(alloc: Global, place: &Option<PagePlace>) -> Result<String, AllocError>
    ensures { IfOk result (λ words. string_bytes words ≡ or_empty digests.place_words place.now) }
{
    match place {
        Some(PagePlace::Number(number)) => Ok(number.to_string(alloc)?),
        Some(PagePlace::Token(token)) => {
            let mut words = String::from_str(alloc, "@")?;
            words.push_str(token.as_str())?;
            Ok(words)
        }
        Some(PagePlace::Path(path)) => String::from_str(alloc, path.as_str()),
        None => Ok(String::new(alloc)),
    }
}

/// The bytes of a row of these fields.
fn row_bytes(alloc: Global, fields: &[&[u8]]) -> Result<Vec<u8>, AllocError>
    ensures { IfOk result (λ bytes. bytes.items ≡ row_text default_writer (map (λ f. f.now) fields.now)) }
{
    let mut writer = WriterBuilder::new().from_writer(Vec::new(alloc));
    if writer.write_fields(fields).is_err() {
        return Err(AllocError);
    }
    match writer.into_inner() {
        Ok(bytes) => Ok(bytes),
        Err(_) => Err(AllocError),
    }
}
