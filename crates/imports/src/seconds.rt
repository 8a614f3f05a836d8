//! Drafts looked through for a second entry of one key.

ghost use Rattle.std.specs.Prelude.{◌≡◌, ℕ, List, [], IfOk, OnOk, map};
ghost use Rattle.std.specs.BTreeSet.{contains_text};
ghost use Rattle.imports.specs.Keys.{is_seen, seen_with, AreSmall};
ghost use Rattle.imports.specs.Seconds.{entry_in, said_of, second_among};

use crate::keys::see;
use node_reading::Draft;
use std::alloc::{AllocError, Global};
use std::collections::BTreeSet;

/// The position of the first entry of a key that one before it has.
pub(crate) fn second_entry(alloc: Global, drafts: &[Draft]) -> Result<Option<usize>, AllocError>
    requires { AreSmall (map said_of drafts.now) }
    ensures { IfOk result (λ k. k ≡ second_among 0 [] (map said_of drafts.now)) }
{
    let mut keys = BTreeSet::new(alloc);
    let mut position: usize = 0;
    for draft in drafts {
        if is_second(alloc, &mut keys, draft)? {
            return Ok(Some(position));
        }
        position += 1;
    }
    Ok(None)
}

/// Whether a draft is an entry whose key was seen; from now on it was.
fn is_second(alloc: Global, keys: &mut BTreeSet<String>, draft: &Draft) -> Result<bool, AllocError>
    ensures second { IfOk result (λ is. is ≡ is_seen (contains_text keys.old) (entry_in (said_of draft.now))) }
    ensures keys { OnOk result ((x : List ℕ)
        → contains_text keys.new x ≡ seen_with (contains_text keys.old) (entry_in (said_of draft.now)) x) }
{
    match draft {
        Draft::Entry(entry) => see(alloc, keys, entry),
        _ => Ok(false),
    }
}
