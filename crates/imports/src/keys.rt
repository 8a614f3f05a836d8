//! The keys of register entries, as texts.

ghost use Rattle.std.specs.Prelude.{◌≡◌, ◌||◌, ℕ, IfOk, List, OnOk, bytes_eq, string_bytes};
ghost use Rattle.std.specs.BTreeSet.{contains_text};
ghost use Rattle.imports.specs.Keys as entry_keys;

use record_kinds::Entry;
use std::alloc::{AllocError, Global};
use std::collections::BTreeSet;

/// Source, kind, item and page of an entry, parted by U+0000.
#[tactic(auto, using(list_laws::proofs::Bytes::four_joined))]
fn key_words(alloc: Global, entry: &Entry) -> Result<String, AllocError>
    ensures { IfOk result (λ words. string_bytes words ≡ entry_keys.key_words entry.now) }
{
    let item = entry.item.number.to_string(alloc)?;
    let mut words = entry.source.to_string(alloc)?;
    words.push_str("\0")?;
    words.push_str(entry.kind.as_str())?;
    words.push_str("\0")?;
    words.push_str(item.as_str())?;
    words.push_str("\0")?;
    words.push_str(entry.page.as_str())?;
    Ok(words)
}

/// Adds the key of an entry, and answers whether it was there.
pub(crate) fn see(
    alloc: Global,
    keys: &mut BTreeSet<String>,
    entry: &Entry,
) -> Result<bool, AllocError>
    ensures was { IfOk result (λ was. was ≡ contains_text keys.old (entry_keys.key_words entry.now)) }
    ensures keys { OnOk result ((x : List ℕ) → contains_text keys.new x
        ≡ (contains_text keys.old x || bytes_eq x (entry_keys.key_words entry.now))) }
{
    let words = key_words(alloc, entry)?;
    let added = keys.insert(words)?;
    Ok(!added)
}
