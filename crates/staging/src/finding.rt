//! What an open batch has: the numbers of its records, and the links of these.

ghost use Rattle.std.specs.Prelude.{◌≡◌, ◌==◌, ◌++◌, ◌∷◌, [], ℕ, filter, false, IfErr, IfOk, OnOk};
ghost use Rattle.std.specs.BTreeSet as set;
ghost use Rattle.std.specs.List.{list_any};
ghost use Rattle.std.specs.Ordering.{nat_cmp};
ghost use Rattle.sqlite.specs.Held.{state};
ghost use Rattle.store_tables.specs.Batches.{numbers_in};
ghost use Rattle.store_tables.specs.Looking.{IsFailure, Looks};
ghost use Rattle.store_tables.specs.Rows.{LinkRow};
ghost use Rattle.staged_rows.specs.Removing.{links_from};

use record_text::RefusalKind;
use sqlite::{Alter, Connection};
use std::alloc::{AllocError, Global};
use std::collections::BTreeSet;
use store_tables::LinkRow;
use store_tables::batches::numbers_in;
use store_tables::links::read_links;

/// The numbers of a batch, in order. 1: memory was refused. 80: any other error.
pub(crate) fn find_numbers<S: Alter>(
    alloc: Global,
    conn: &mut Connection<S>,
    batch: u32,
) -> Result<Vec<u32>, RefusalKind>
    requires autocommit { conn.old.in_transaction ≡ false }
    ensures looks { Looks (λ rows items. items.items ≡ numbers_in batch rows) (state S.Store conn.old)
        (state S.Store conn.new) result }
    ensures failure { IfErr result IsFailure }
    ensures ended { conn.new.in_transaction ≡ false }
{
    match numbers_in(alloc, conn, batch) {
        Ok(numbers) => Ok(numbers),
        Err(RefusalKind::OutOfMemory) => Err(RefusalKind::OutOfMemory),
        Err(_) => Err(RefusalKind::Storage),
    }
}

/// The links of these numbers, in order, of tables that have spans or none. 1: memory was refused. 80: any other error.
pub(crate) fn find_links<S: Alter>(
    alloc: Global,
    conn: &mut Connection<S>,
    has_spans: bool,
    numbers: &[u32],
) -> Result<Vec<LinkRow>, RefusalKind>
    requires autocommit { conn.old.in_transaction ≡ false }
    ensures looks { Looks (λ rows items. rows.has_spans ≡ has_spans → items.items ≡ links_from numbers.now rows)
        (state S.Store conn.old) (state S.Store conn.new) result }
    ensures failure { IfErr result IsFailure }
    ensures ended { conn.new.in_transaction ≡ false }
{
    if !has_spans {
        return Ok(Vec::new(alloc));
    }
    match links_of(alloc, conn, numbers) {
        Ok(links) => Ok(links),
        Err(RefusalKind::OutOfMemory) => Err(RefusalKind::OutOfMemory),
        Err(_) => Err(RefusalKind::Storage),
    }
}

/// The links of these numbers, of tables that have spans. All links are read.
fn links_of<S: Alter>(
    alloc: Global,
    conn: &mut Connection<S>,
    numbers: &[u32],
) -> Result<Vec<LinkRow>, RefusalKind>
    requires autocommit { conn.old.in_transaction ≡ false }
    ensures looks { Looks (λ rows items. items.items ≡ links_from numbers.now rows) (state S.Store conn.old)
        (state S.Store conn.new) result }
    ensures ended { conn.new.in_transaction ≡ false }
{
    let all = read_links(alloc, conn)?;
    let numbers = distinct(alloc, numbers)?;
    Ok(links_among(alloc, all, &numbers)?)
}

/// The numbers, each once, in order.
fn distinct(alloc: Global, numbers: &[u32]) -> Result<BTreeSet<u32>, AllocError>
    ensures { IfOk result (λ all. (n : ℕ) → set.contains nat_cmp all n ≡ list_any (λ k. k == n) numbers.now) }
{
    let mut all: BTreeSet<u32> = BTreeSet::new(alloc);
    'numbers: for number in numbers {
        all.insert(*number)?;
    }
    Ok(all)
}

/// Those of the links whose record's number is among these.
fn links_among(
    alloc: Global,
    links: Vec<LinkRow>,
    numbers: &BTreeSet<u32>,
) -> Result<Vec<LinkRow>, AllocError>
    ensures { IfOk result (λ found. found.items
        ≡ filter (λ (l : LinkRow). set.contains nat_cmp numbers.now l.no) links.items) }
{
    let mut found = Vec::new(alloc);
    'links: for link in links {
        add_if(link, numbers, &mut found)?;
    }
    Ok(found)
}

/// Adds a link, where its record's number is among these.
fn add_if(
    link: LinkRow,
    numbers: &BTreeSet<u32>,
    found: &mut Vec<LinkRow>,
) -> Result<(), AllocError>
    ensures { OnOk result (found.new.items
        ≡ found.old.items ++ filter (λ (l : LinkRow). set.contains nat_cmp numbers.now l.no) (link ∷ [])) }
{
    if numbers.contains(&link.number) {
        found.push(link)?;
    }
    Ok(())
}
