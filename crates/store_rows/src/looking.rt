//! Single records, receipts and slips of an archive, each read of its own rows.

ghost use Rattle.std.specs.Prelude.{◌≡◌, ◌++◌, ◌∷◌, [], false, IfOk, OnOk};
ghost use Rattle.std.specs.BTreeSet as set;
ghost use Rattle.std.specs.FinMap as map;
ghost use Rattle.std.specs.Ordering.{nat_cmp};
ghost use Rattle.sqlite.specs.Held.{state};
ghost use Rattle.archive_state.specs.Entries.{IsEntryAt};
ghost use Rattle.archive_state.specs.Paths.{HasPath, IsLowest};
ghost use Rattle.archive_state.specs.Referrers.{referrers};
ghost use Rattle.store_tables.specs.Looking.{Looks};
ghost use Rattle.store_rows.specs.Links.{KeepsLinks, linked_naming, names_at};
ghost use Rattle.store_rows.specs.Looking.{Sees, SeesBy};
ghost use Rattle.store_rows.specs.Grouped.{last_kept, numbers_by};
ghost use Rattle.store_rows.specs.Meaning.{has_record, is_closed};
ghost use Rattle.store_rows.specs.Sought.{KeepsSought};

use crate::finding;
use crate::grouping::closed_batches;
use crate::sides::changes_of;
use archive_state::{Slip, is_naming};
use receipts::{Receipt, Token};
use record_fields::{EntryKind, Item};
use record_kinds::Record;
use record_text::{RefusalKind, Text};
use records::{entry_key, record_of};
use sqlite::{Alter, Connection};
use std::alloc::{AllocError, Global};
use std::collections::BTreeSet;
use store_tables::{
    LinkRow, ReceiptRow, RecordRow, keyed, links, read_records_by_batch, sides, soughts,
};

/// The record of a number, read only of the rows of this number. No transaction may be open.
///
/// 40: the rows cannot be read, as where somebody else wrote them. 80: the database failed. 1: memory was refused. So
/// of all calls below.
pub fn record_at<S: Alter>(
    alloc: Global,
    conn: &mut Connection<S>,
    number: u32,
) -> Result<Option<Record>, RefusalKind>
    requires autocommit { conn.old.in_transaction ≡ false }
    ensures sees { Sees (λ c found. found ≡ map.get c.records number) (state S.Store conn.old)
        (state S.Store conn.new) result }
    ensures ended { conn.new.in_transaction ≡ false }
{
    let Some(pack) = keyed::closed_lines_at(alloc, conn, number)? else {
        return record_by_rows(alloc, conn, number);
    };
    Ok(Some(record_of(alloc, &pack.lines)?))
}

/// The same by a query of each table. 40 also if a record has no lines.
fn record_by_rows<S: Alter>(
    alloc: Global,
    conn: &mut Connection<S>,
    number: u32,
) -> Result<Option<Record>, RefusalKind>
    requires autocommit { conn.old.in_transaction ≡ false }
    ensures sees { Sees (λ c found. found ≡ map.get c.records number) (state S.Store conn.old)
        (state S.Store conn.new) result }
    ensures ended { conn.new.in_transaction ≡ false }
{
    if !has_record(alloc, conn, number)? {
        return Ok(None);
    }
    let lines = keyed::lines_at(alloc, conn, number)?;
    Ok(Some(record_of(alloc, &lines)?))
}

/// The numbers of all records, ascending, read of the rows of `record` and of the batches: one number a row is kept.
pub fn record_numbers<S: Alter>(
    alloc: Global,
    conn: &mut Connection<S>,
) -> Result<Vec<u32>, RefusalKind>
    requires autocommit { conn.old.in_transaction ≡ false }
    ensures sees { Sees (λ c found. found.items ≡ map.keys c.records) (state S.Store conn.old)
        (state S.Store conn.new) result }
    ensures ended { conn.new.in_transaction ≡ false }
{
    let (batches, rows) = read_records_by_batch(alloc, conn)?;
    let closed = closed_batches(alloc, &batches)?;
    Ok(numbers_in(alloc, &closed, &rows)?)
}

/// The numbers of the rows in these batches, in their order.
fn numbers_in(
    alloc: Global,
    closed: &BTreeSet<u32>,
    rows: &[RecordRow],
) -> Result<Vec<u32>, AllocError>
    ensures { IfOk result (λ found. found.items ≡ numbers_by (set.contains nat_cmp closed.now) rows.now) }
{
    let mut found = Vec::new(alloc);
    'rows: for row in rows {
        if closed.contains(&row.batch) {
            found.push(row.number)?;
        }
    }
    Ok(found)
}

/// The numbers of the records that name a number, ascending, read of the links to it and of the records that these are
/// of: of a link that says more than its record the record is right.
pub fn referrers_of<S: Alter>(
    alloc: Global,
    conn: &mut Connection<S>,
    number: u32,
) -> Result<Vec<u32>, RefusalKind>
    requires autocommit { conn.old.in_transaction ≡ false }
    ensures sees { SeesBy KeepsLinks (λ c found. found.items ≡ referrers c number) (state S.Store conn.old)
        (state S.Store conn.new) result }
    ensures ended { conn.new.in_transaction ≡ false }
{
    let links = links::links_to(alloc, conn, number)?;
    naming_of(alloc, conn, &links, number)
}

/// The records of these links that name a number, in the order of the links.
fn naming_of<S: Alter>(
    alloc: Global,
    conn: &mut Connection<S>,
    links: &[LinkRow],
    number: u32,
) -> Result<Vec<u32>, RefusalKind>
    requires autocommit { conn.old.in_transaction ≡ false }
    ensures sees { Sees (λ c found. found.items ≡ linked_naming number c links.now) (state S.Store conn.old)
        (state S.Store conn.new) result }
    ensures ended { conn.new.in_transaction ≡ false }
{
    let mut found = Vec::new(alloc);
    'links: for link in links {
        if is_naming_at(alloc, conn, link.number, number)? {
            push(&mut found, link.number)?;
        }
    }
    Ok(found)
}

/// Whether there is a record of a number that names another one.
fn is_naming_at<S: Alter>(
    alloc: Global,
    conn: &mut Connection<S>,
    number: u32,
    named: u32,
) -> Result<bool, RefusalKind>
    requires autocommit { conn.old.in_transaction ≡ false }
    ensures sees { Sees (λ c is. is ≡ names_at named (map.get c.records number)) (state S.Store conn.old)
        (state S.Store conn.new) result }
    ensures ended { conn.new.in_transaction ≡ false }
{
    let found = record_at(alloc, conn, number)?;
    let is = is_naming_found(&found, named);
    drop(found);
    Ok(is)
}

/// Whether what was found names a number.
fn is_naming_found(found: &Option<Record>, named: u32) -> bool
    ensures { result ≡ names_at named found.now }
{
    match found {
        Some(record) => is_naming(record, named),
        None => false,
    }
}

/// What is kept under a token, read only of the rows of this token. Of two rows the later one is meant.
pub fn receipt_at<S: Alter>(
    alloc: Global,
    conn: &mut Connection<S>,
    token: &Token,
) -> Result<Option<Receipt>, RefusalKind>
    requires autocommit { conn.old.in_transaction ≡ false }
    ensures sees { Sees (λ c found. found ≡ map.get c.receipts token.now) (state S.Store conn.old)
        (state S.Store conn.new) result }
    ensures ended { conn.new.in_transaction ≡ false }
{
    Ok(last_kept(keyed::receipts_at(alloc, conn, token)?))
}

/// The slip of a number, read only of the rows of this slip.
pub fn slip_at<S: Alter>(
    alloc: Global,
    conn: &mut Connection<S>,
    number: u32,
) -> Result<Option<Slip>, RefusalKind>
    requires autocommit { conn.old.in_transaction ≡ false }
    ensures sees { Sees (λ c found. found ≡ map.get c.slips number) (state S.Store conn.old)
        (state S.Store conn.new) result }
    ensures ended { conn.new.in_transaction ≡ false }
{
    let Some(row) = keyed::slip_at(alloc, conn, number)? else {
        return Ok(None);
    };
    let lines = sides::slip_lines_at(alloc, conn, number)?;
    Ok(Some(Slip {
        keep: row.keep,
        gone: row.gone,
        changes: changes_of(alloc, &lines)?,
        is_undone: row.is_undone,
    }))
}

/// The number that the next record or slip gets.
pub fn next<S: Alter>(alloc: Global, conn: &mut Connection<S>) -> Result<u64, RefusalKind>
    requires autocommit { conn.old.in_transaction ≡ false }
    ensures sees { Sees (λ c next. next ≡ c.next) (state S.Store conn.old) (state S.Store conn.new) result }
    ensures ended { conn.new.in_transaction ≡ false }
{
    keyed::next(alloc, conn)
}

/// The lowest number of a place that has this path, read of the records that an index gives: those that are looked for
/// by what stands before a comma in the path, or by the whole path. Of each the places that it is within are read too.
pub fn place_at<S: Alter>(
    alloc: Global,
    conn: &mut Connection<S>,
    path: &Text,
) -> Result<Option<u32>, RefusalKind>
    requires autocommit { conn.old.in_transaction ≡ false }
    ensures sees { SeesBy KeepsSought (λ c found. IsLowest (λ n. HasPath c.records n path.now) found)
        (state S.Store conn.old) (state S.Store conn.new) result }
    ensures ended { conn.new.in_transaction ≡ false }
{
    let numbers = finding::numbers_with_a_front(alloc, conn, path.as_str())?;
    finding::lowest_place(alloc, conn, &numbers, path.as_str().as_bytes())
}

/// The lowest number of an entry of this source, kind, page and item, read of the records that an index gives: those
/// that are looked for by the words of its key and the source.
pub fn entry_at<S: Alter>(
    alloc: Global,
    conn: &mut Connection<S>,
    source: u32,
    kind: EntryKind,
    page: &Text,
    item: Item,
) -> Result<Option<u32>, RefusalKind>
    requires autocommit { conn.old.in_transaction ≡ false }
    ensures sees { SeesBy KeepsSought (λ c found. IsLowest (λ n. IsEntryAt c.records source kind page.now item n) found)
        (state S.Store conn.old) (state S.Store conn.new) result }
    ensures ended { conn.new.in_transaction ≡ false }
{
    let words = entry_key(alloc, item, page)?;
    let numbers = soughts::sought_by_of(alloc, conn, words.as_str(), source)?;
    finding::lowest_entry(alloc, conn, &numbers, source, kind, page, item)
}

/// Adds a number at the end.
fn push(numbers: &mut Vec<u32>, number: u32) -> Result<(), AllocError>
    ensures { OnOk result (numbers.new.items ≡ numbers.old.items ++ number ∷ []) }
{
    numbers.push(number)?;
    Ok(())
}

/// Whether a number has a record: its row is of a batch that is closed.
pub fn has_record<S: Alter>(
    alloc: Global,
    conn: &mut Connection<S>,
    number: u32,
) -> Result<bool, RefusalKind>
    requires autocommit { conn.old.in_transaction ≡ false }
    ensures looks { Looks (λ rows is. is ≡ has_record number rows) (state S.Store conn.old)
        (state S.Store conn.new) result }
    ensures ended { conn.new.in_transaction ≡ false }
{
    match keyed::record_at(alloc, conn, number)? {
        Some(row) => is_closed(alloc, conn, row.batch),
        None => Ok(false),
    }
}

/// Whether a batch is there and closed.
fn is_closed<S: Alter>(
    alloc: Global,
    conn: &mut Connection<S>,
    batch: u32,
) -> Result<bool, RefusalKind>
    requires autocommit { conn.old.in_transaction ≡ false }
    ensures looks { Looks (λ rows is. is ≡ is_closed batch rows.batches) (state S.Store conn.old)
        (state S.Store conn.new) result }
    ensures ended { conn.new.in_transaction ≡ false }
{
    match keyed::batch_at(alloc, conn, batch)? {
        Some(row) => Ok(!row.is_open),
        None => Ok(false),
    }
}

/// What the last of these rows keeps.
fn last_kept(mut rows: Vec<ReceiptRow>) -> Option<Receipt>
    ensures { result ≡ last_kept rows.items }
{
    match rows.pop() {
        Some(row) => Some(row.receipt),
        None => None,
    }
}
