//! What is said of a page's entries beside what they are.

ghost use Rattle.std.specs.Prelude.{◌≡◌, IfOk, count_by};
ghost use Rattle.page_batches.specs.Words as words;

use page_entries::PageEntry;
use std::alloc::{AllocError, Global};

/// How many dates have no days but words.
pub fn count_words(entries: &[PageEntry]) -> usize
    ensures { result ≡ count_by words.is_words entries.now }
{
    entries.iter().filter(|entry| is_words(*entry)).count()
}

#[tactic(auto, unfolding(crate::specs::Words::is_words))]
fn is_words(entry: &PageEntry) -> bool
    ensures { result ≡ words.is_words entry.now }
{
    entry.date.is_words
}

/// The numbers of the rows, as the sheet shows them.
pub fn numbers_of(alloc: Global, entries: &[PageEntry]) -> Result<Vec<usize>, AllocError>
    ensures { IfOk result (λ numbers. numbers.items ≡ words.numbers_of entries.now) }
{
    let mut numbers = Vec::new(alloc);
    for entry in entries {
        numbers.push(entry.row)?;
    }
    Ok(numbers)
}
