//! The keys of register entries of one source, as texts.

ghost use Rattle.std.specs.Prelude.{◌≡◌, ◌||◌, ℕ, IfOk, List, OnOk, string_bytes};
ghost use Rattle.std.specs.BTreeSet.{contains_text};
ghost use Rattle.std.specs.Str.{bytes_eq};
ghost use Rattle.entry_batches.specs.Keys as entry_keys;

use record_kinds::Entry;
use std::alloc::{AllocError, Global};
use std::collections::BTreeSet;

/// Kind, item and page of an entry, parted by U+0000. Refused only if out of memory.
#[tactic(auto, using(crate::proofs::Keyed::joined))]
pub(crate) fn key_words(alloc: Global, entry: &Entry) -> Result<String, AllocError>
    ensures { IfOk result (λ words. string_bytes words ≡ entry_keys.key_words entry.now) }
{
    let item = entry.item.number.to_string(alloc)?;
    let mut words = String::from_str(alloc, entry.kind.as_str())?;
    words.push_str("\0")?;
    words.push_str(item.as_str())?;
    words.push_str("\0")?;
    words.push_str(entry.page.as_str())?;
    Ok(words)
}

/// Adds a key. Refused only if out of memory.
pub(crate) fn add_key(
    alloc: Global,
    keys: &mut BTreeSet<String>,
    entry: &Entry,
) -> Result<(), AllocError>
    ensures { OnOk result ((x : List ℕ) → contains_text keys.new x
        ≡ (contains_text keys.old x || bytes_eq x (entry_keys.key_words entry.now))) }
{
    keys.insert(key_words(alloc, entry)?)?;
    Ok(())
}
