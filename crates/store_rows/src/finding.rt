//! Places by their paths and entries by their keys: the numbers that an index gives, each looked at on its own.

ghost use Rattle.std.specs.Prelude.{◌≡◌, ◌≢◌, ◌<◌, ◌++◌, ◌↔◌, ℕ, List, Some, MatchOption, IsTrue, OnOk, length, false};
ghost use Rattle.sqlite.specs.Held.{state};
ghost use Rattle.record_kinds.specs.Model as model;
ghost use Rattle.record_kinds.specs.declared.record.Record.TheVariants as kind;
ghost use Rattle.archive_state.specs.Entries.{IsEntryAt};
ghost use Rattle.archive_state.specs.Paths.{HasPath};
ghost use Rattle.store_tables.specs.Looking.{Looks};
ghost use Rattle.store_rows.specs.Looking.{Sees};
ghost use Rattle.store_rows.specs.Finding.{
  HasAllSaying,
  HasSaying,
  IsClimbFrom,
  IsEntryFound,
  IsLowestAmong,
  LeadsBelow,
  lower,
};

use crate::looking::record_at;
use archive_state::is_entry_of;
use record_fields::{EntryKind, Item};
use record_kinds::{Place, Record};
use record_text::{RefusalKind, Text};
use sqlite::{Alter, Connection};
use std::alloc::{AllocError, Global};
use store_tables::soughts;

/// The numbers of all places with a name that a place with this path may have: the whole path, or what stands before a
/// comma in it.
pub(crate) fn numbers_with_a_front<S: Alter>(
    alloc: Global,
    conn: &mut Connection<S>,
    path: &str,
) -> Result<Vec<u32>, RefusalKind>
    requires autocommit { conn.old.in_transaction ≡ false }
    ensures looks { Looks (λ rows found. HasAllSaying path.now rows found.items) (state S.Store conn.old)
        (state S.Store conn.new) result }
    ensures ended { conn.new.in_transaction ≡ false }
{
    let mut found = soughts::sought_by(alloc, conn, path)?;
    'bytes: for at in 0..path.len() {
        let more = numbers_before(alloc, conn, path, at)?;
        append(&mut found, &more)?;
    }
    Ok(found)
}

/// The numbers that are looked for by what stands before a comma at this byte; none where there is no comma.
fn numbers_before<S: Alter>(
    alloc: Global,
    conn: &mut Connection<S>,
    path: &str,
    at: usize,
) -> Result<Vec<u32>, RefusalKind>
    requires autocommit { conn.old.in_transaction ≡ false }
    requires within { at < length path.now }
    ensures looks { Looks (λ rows found. HasSaying at path.now rows found.items) (state S.Store conn.old)
        (state S.Store conn.new) result }
    ensures ended { conn.new.in_transaction ≡ false }
{
    if path.as_bytes()[at] != b',' {
        return Ok(Vec::new(alloc));
    }
    soughts::sought_by(alloc, conn, &path[..at])
}

fn append(numbers: &mut Vec<u32>, more: &[u32]) -> Result<(), AllocError>
    ensures { OnOk result (numbers.new.items ≡ numbers.old.items ++ more.now) }
{
    numbers.extend_from_slice(more)?;
    Ok(())
}

/// The lowest of the numbers whose place has this path.
pub(crate) fn lowest_place<S: Alter>(
    alloc: Global,
    conn: &mut Connection<S>,
    numbers: &[u32],
    path: &[u8],
) -> Result<Option<u32>, RefusalKind>
    requires autocommit { conn.old.in_transaction ≡ false }
    ensures sees { Sees (λ c found. IsLowestAmong (λ n. HasPath c.records n path.now) numbers.now found)
        (state S.Store conn.old) (state S.Store conn.new) result }
    ensures ended { conn.new.in_transaction ≡ false }
{
    let mut lowest = None;
    'numbers: for number in numbers {
        if has_path(alloc, conn, *number, path)? {
            lowest = Some(lower(lowest, *number));
        }
    }
    Ok(lowest)
}

/// The lower of two numbers, where the first is there.
fn lower(lowest: Option<u32>, number: u32) -> u32
    ensures { result ≡ lower lowest number }
{
    match lowest {
        Some(other) if other < number => other,
        _ => number,
    }
}

/// Whether the place of a number has this path, by the records of this number and of those that it is within. A place
/// whose parent has no smaller number has none.
fn has_path<S: Alter>(
    alloc: Global,
    conn: &mut Connection<S>,
    number: u32,
    path: &[u8],
) -> Result<bool, RefusalKind>
    requires autocommit { conn.old.in_transaction ≡ false }
    ensures sees { Sees (λ c is. IsTrue is ↔ HasPath c.records number path.now) (state S.Store conn.old)
        (state S.Store conn.new) result }
    ensures ended { conn.new.in_transaction ≡ false }
{
    let found = record_at(alloc, conn, number)?;
    match climbed(found, number, path) {
        Climb::Ended(answer) => Ok(answer),
        Climb::Above(parent, rest) => has_path(alloc, conn, parent, rest),
    }
}

/// Whether a place has a path, as far as the place itself tells.
#[derive(Drop)]
pub(crate) enum Climb<'a> {
    /// Whether it has.
    Ended(bool),
    /// It has where the place of this number, a smaller one, has this path.
    Above(u32, &'a [u8]),
}

/// Whether what was found at a number is a place with this path, or where that is to be asked.
fn climbed<'a>(found: Option<Record>, number: u32, path: &'a [u8]) -> Climb<'a>
    ensures tells { IsClimbFrom found number path.now result }
    ensures below { LeadsBelow number result }
{
    let step = climbed_at(&found, number, path);
    drop(found);
    step
}

fn climbed_at<'a>(found: &Option<Record>, number: u32, path: &'a [u8]) -> Climb<'a>
    ensures tells { IsClimbFrom found.now number path.now result }
    ensures below { LeadsBelow number result }
{
    match place_in(found) {
        Some(place) => climbed_from(place, number, path),
        None => Climb::Ended(false),
    }
}

/// The place, where a place was found.
fn place_in(found: &Option<Record>) -> Option<&Place>
    ensures { MatchOption result
        ((p : model.Place) → found.now ≢ Some (kind.Place p)) (λ p. found.now ≡ Some (kind.Place p.now)) }
{
    match found {
        Some(Record::Place(place)) => Some(place),
        _ => None,
    }
}

/// The same of a place.
fn climbed_from<'a>(place: &Place, number: u32, path: &'a [u8]) -> Climb<'a>
    ensures tells { IsClimbFrom (Some (kind.Place place.now)) number path.now result }
    ensures below { LeadsBelow number result }
{
    let Some(rest) = behind(path, place.name.as_str().as_bytes()) else {
        return Climb::Ended(false);
    };
    let Some(parent) = place.parent else {
        return Climb::Ended(rest.is_empty());
    };
    if parent >= number {
        return Climb::Ended(false);
    }
    match behind(rest, b", ") {
        Some(above) => Climb::Above(parent, above),
        None => Climb::Ended(false),
    }
}

/// What stands after the front, where the bytes begin with it.
fn behind<'a>(bytes: &'a [u8], front: &[u8]) -> Option<&'a [u8]>
    ensures { MatchOption result
        ((rest : List ℕ) → bytes.now ≢ front.now ++ rest) (λ rest. bytes.now ≡ front.now ++ rest.now) }
{
    bytes.strip_prefix(front)
}

/// The lowest of the numbers at which an entry of this source, kind, page and item is.
pub(crate) fn lowest_entry<S: Alter>(
    alloc: Global,
    conn: &mut Connection<S>,
    numbers: &[u32],
    source: u32,
    kind: EntryKind,
    page: &Text,
    item: Item,
) -> Result<Option<u32>, RefusalKind>
    requires autocommit { conn.old.in_transaction ≡ false }
    ensures sees { Sees (λ c found. IsLowestAmong (λ n. IsEntryAt c.records source kind page.now item n) numbers.now
        found) (state S.Store conn.old) (state S.Store conn.new) result }
    ensures ended { conn.new.in_transaction ≡ false }
{
    let mut lowest = None;
    'numbers: for number in numbers {
        if is_entry_at(alloc, conn, *number, source, kind, page, item)? {
            lowest = Some(lower(lowest, *number));
        }
    }
    Ok(lowest)
}

/// Whether an entry of this source, kind, page and item is at a number, by the record of this number.
fn is_entry_at<S: Alter>(
    alloc: Global,
    conn: &mut Connection<S>,
    number: u32,
    source: u32,
    kind: EntryKind,
    page: &Text,
    item: Item,
) -> Result<bool, RefusalKind>
    requires autocommit { conn.old.in_transaction ≡ false }
    ensures sees { Sees (λ c is. IsTrue is ↔ IsEntryAt c.records source kind page.now item number)
        (state S.Store conn.old) (state S.Store conn.new) result }
    ensures ended { conn.new.in_transaction ≡ false }
{
    let found = record_at(alloc, conn, number)?;
    let is = is_entry_found(&found, source, kind, page, item);
    drop(found);
    Ok(is)
}

/// Whether what was found is such an entry.
fn is_entry_found(
    found: &Option<Record>,
    source: u32,
    kind: EntryKind,
    page: &Text,
    item: Item,
) -> bool
    ensures { IsTrue result ↔ IsEntryFound found.now source kind page.now item }
{
    match found {
        Some(record) => is_entry_of(record, source, kind, page, item),
        None => false,
    }
}
