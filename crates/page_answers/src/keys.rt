//! The keys of rows: kind, item and page, by which an entry of a source is known.

ghost use Rattle.std.specs.Prelude.{◌≡◌, ◌||◌, ℕ, IfOk, List, OnOk, string_bytes};
ghost use Rattle.std.specs.BTreeSet.{contains_text};
ghost use Rattle.page_answers.specs.Keys as keys;

use commands::Field;
use page_entries::{cell_under, item_in, kind_in, text_fault};
use record_fields::{EntryKind, Item};
use record_text::Text;
use std::alloc::{AllocError, Global};
use std::collections::BTreeSet;
use table_pages::{Column, Sheet, SheetRow};

/// The key of a row.
#[derive(Drop)]
pub struct Key {
    pub kind: EntryKind,
    pub page: Text,
    pub item: Item,
}

/// The key of a row. `None`: it has none, since its kind, its page or its item is wrong.
pub fn key_of(alloc: Global, sheet: &Sheet, row: &SheetRow) -> Result<Option<Key>, AllocError>
    ensures { IfOk result (λ key. key ≡ keys.key_of sheet.now row.now) }
{
    let Some(kind) = kind_in(alloc, cell_under(sheet, row, Column::Kind))? else {
        return Ok(None);
    };
    let Ok(item) = item_in(cell_under(sheet, row, Column::Item)) else {
        return Ok(None);
    };
    match page_in(alloc, cell_under(sheet, row, Column::Page))? {
        Some(page) => Ok(Some(Key { kind, page, item })),
        None => Ok(None),
    }
}

/// The page of a cell. `None`: it is none.
fn page_in(alloc: Global, cell: &str) -> Result<Option<Text>, AllocError>
    ensures { IfOk result (λ page. page ≡ keys.page_in cell.now) }
{
    match text_fault(Some(Column::Page), cell) {
        Some(_) => Ok(None),
        None => Field::new(String::from_str(alloc, cell)?).text(alloc),
    }
}

/// Kind, item and page, parted by U+0000.
#[tactic(auto, using(crate::proofs::Keyed::joined))]
fn key_words(alloc: Global, key: &Key) -> Result<String, AllocError>
    ensures { IfOk result (λ words. string_bytes words ≡ keys.key_words key.now) }
{
    let item = key.item.number.to_string(alloc)?;
    let mut words = String::from_str(alloc, key.kind.as_str())?;
    words.push_str("\0")?;
    words.push_str(item.as_str())?;
    words.push_str("\0")?;
    words.push_str(key.page.as_str())?;
    Ok(words)
}

/// Whether a key is among those that were seen; and it is one of them from now on.
pub fn see(
    alloc: Global,
    seen: &mut BTreeSet<String>,
    key: &Option<Key>,
) -> Result<bool, AllocError>
    ensures found { IfOk result (λ b. b ≡ keys.is_among (contains_text seen.old) key.now) }
    ensures added { OnOk result ((x : List ℕ) → contains_text seen.new x
        ≡ (contains_text seen.old x || keys.has_words x key.now)) }
{
    match key {
        Some(key) => see_key(alloc, seen, key),
        None => Ok(false),
    }
}

fn see_key(alloc: Global, seen: &mut BTreeSet<String>, key: &Key) -> Result<bool, AllocError>
    ensures found { IfOk result (λ b. b ≡ contains_text seen.old (keys.key_words key.now)) }
    ensures added { OnOk result ((x : List ℕ) → contains_text seen.new x
        ≡ (contains_text seen.old x || keys.is_word x (keys.key_words key.now))) }
{
    let words = key_words(alloc, key)?;
    let is_there = seen.contains(words.as_str());
    seen.insert(words)?;
    Ok(is_there)
}
