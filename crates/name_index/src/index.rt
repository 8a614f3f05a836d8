//! The names of records, and which records are found by them.

ghost use Rattle.std.specs.Prelude.{◌≡◌, ◌++◌, ◌∷◌, [], IfOk, OnOk, map};
ghost use Rattle.std.specs.List.{list_any};
ghost use Rattle.searching.specs.Words.{all_occur};
ghost use Rattle.name_index.specs.Found.{found, found_by};
ghost use Rattle.name_index.specs.Entries.{entry_of};

use searching::{SearchText, SearchWords};
use std::alloc::{AllocError, Global};
use std::marker::Model;

/// The names of records as a search compares them, in the order in which they were added. Contracts see the number of
/// each record with its names.
pub struct NameIndex {
    entries: Vec<IndexEntry>,
}

/// A record by its number, with its names.
#[derive(Drop)]
pub(crate) struct IndexEntry {
    number: u32,
    names: Vec<SearchText>,
}

// It is written out, so that no crate above proves again how a list of texts is dropped.
impl Drop for NameIndex {
    fn drop(self) {
        let NameIndex { entries: _ } = self;
    }
}

impl Model for NameIndex {
    ghost use Rattle.std.specs.Prelude.{ℕ, List, map};
    ghost use Rattle.name_index.specs.Entries.{entry_of};

    ghost Value = { List (ℕ × List (List ℕ)) };

    ghost view = { λ a. map entry_of a.entries.items };
}

impl NameIndex {
    /// No record. Takes no memory.
    pub fn new(alloc: Global) -> NameIndex
        ensures { result ≡ [] }
    {
        NameIndex {
            entries: Vec::new(alloc),
        }
    }

    /// One more record, after the others, with its names.
    pub fn add(&mut self, number: u32, names: Vec<SearchText>) -> Result<(), AllocError>
        ensures { OnOk result (self.new ≡ self.old ++ (number, names.items) ∷ []) }
    {
        self.entries.push(IndexEntry { number, names })?;
        Ok(())
    }

    /// The numbers of the records in one of whose names all these words occur, in the order in which they were added;
    /// none without a word. It goes through each name until a word does not occur in it.
    pub fn found(&self, alloc: Global, words: &SearchWords) -> Result<Vec<u32>, AllocError>
        ensures { IfOk result (λ numbers. numbers.items ≡ found words.now self.now) }
    {
        found_in(alloc, &self.entries, words)
    }
}

fn found_in(
    alloc: Global,
    entries: &[IndexEntry],
    words: &SearchWords,
) -> Result<Vec<u32>, AllocError>
    ensures { IfOk result (λ numbers. numbers.items ≡ found words.now (map entry_of entries.now)) }
{
    if words.is_empty() {
        return Ok(Vec::new(alloc));
    }
    found_among(alloc, entries, words)
}

fn found_among(
    alloc: Global,
    entries: &[IndexEntry],
    words: &SearchWords,
) -> Result<Vec<u32>, AllocError>
    ensures { IfOk result (λ numbers. numbers.items ≡ found_by words.now (map entry_of entries.now)) }
{
    let mut numbers = Vec::new(alloc);
    'each: for entry in entries {
        if is_named(&entry.names, words) {
            numbers.push(entry.number)?;
        }
    }
    Ok(numbers)
}

/// Whether all words occur in one of the names.
fn is_named(names: &[SearchText], words: &SearchWords) -> bool
    ensures { result ≡ list_any (all_occur words.now) names.now }
{
    'each: for name in names {
        if words.occur_in(name) {
            return true;
        }
    }
    false
}
