//! The keys of register entries: source, kind, page and item.

ghost use Rattle.std.specs.Prelude.{◌≡◌, ◌<◌, Some, IfOk, MatchOption, string_bytes};
ghost use Rattle.std.specs.FinMap.{get};
ghost use Rattle.record_shapes.specs.Lists.{Ascends};
ghost use Rattle.sound_records.specs.Knowing.{HasAll};
ghost use Rattle.sound_records.specs.Keys as specs;

use archive_state::State;
use record_kinds::{Entry, Record};
use std::alloc::{AllocError, Global};
use std::collections::BTreeSet;

/// The first of these numbers, which ascend, whose entry has the source, kind, page and item of one before it.
pub(crate) fn first_taken(
    alloc: Global,
    state: &State,
    numbers: &[u32],
) -> Result<Option<u32>, AllocError>
    ensures { Ascends numbers.now → HasAll numbers.now state.now.records → IfOk result (λ o. MatchOption o
        (specs.AreApart state.now.records) (specs.HasTaken state.now.records)) }
{
    let mut keys = BTreeSet::new(alloc);
    'numbers: for number in numbers {
        if !add_at(alloc, state, *number, &mut keys)? {
            return Ok(Some(*number));
        }
    }
    Ok(None)
}

/// Adds the key of the entry of a number, where there is one, and answers whether it was not there.
fn add_at(
    alloc: Global,
    state: &State,
    number: u32,
    keys: &mut BTreeSet<String>,
) -> Result<bool, AllocError>
    ensures { IfOk result (λ b. specs.Adds keys.old keys.new (specs.entry_in (get state.now.records number)) b) }
{
    match state.record(number) {
        Some(Record::Entry(entry)) => add(alloc, entry, keys),
        _ => Ok(true),
    }
}

fn add(alloc: Global, entry: &Entry, keys: &mut BTreeSet<String>) -> Result<bool, AllocError>
    ensures { IfOk result (λ b. specs.AddsKey keys.old keys.new entry.now b) }
{
    let words = key_words(alloc, entry)?;
    let added = keys.insert(words)?;
    Ok(added)
}

/// Source, kind, item and page of an entry, parted by U+0000.
#[tactic(auto, using(list_laws::proofs::Bytes::four_joined))]
fn key_words(alloc: Global, entry: &Entry) -> Result<String, AllocError>
    ensures fits { IfOk result (λ _. entry.now.source < 4294967296) }
    ensures words { IfOk result (λ words. string_bytes words ≡ specs.key_words entry.now) }
{
    let item = entry.item.number.to_string(alloc)?;
    let mut words = number(entry.source).to_string(alloc)?;
    words.push_str("\0")?;
    words.push_str(entry.kind.as_str())?;
    words.push_str("\0")?;
    words.push_str(item.as_str())?;
    words.push_str("\0")?;
    words.push_str(entry.page.as_str())?;
    Ok(words)
}

/// The number as it is, which has 32 bits.
fn number(number: u32) -> u32
    ensures same { result ≡ number }
    ensures fits { number < 4294967296 }
{
    number
}
