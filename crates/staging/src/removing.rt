//! A batch that is removed with its rows, in commits of at most 256 rows.

ghost use Rattle.std.specs.Prelude.{◌≡◌, ◌⊎◌, ◌≤◌, ◌==◌, ℕ, List, false, true, OnOk, IfOk, IfErr};
ghost use Rattle.std.specs.List.{list_any};
ghost use Rattle.sqlite.specs.State.{HasCleanDisk};
ghost use Rattle.sqlite.specs.Held.{state};
ghost use Rattle.record_text.specs.declared.refusal.RefusalKind.TheVariants.{OutOfMemory, Storage};
ghost use Rattle.store_tables.specs.Batches as rows_of;
ghost use Rattle.store_tables.specs.Calls.{LeavesOnly, Settled};
ghost use Rattle.store_tables.specs.Looking.{IsFailure};
ghost use Rattle.store_tables.specs.Rows.{Rows};
ghost use Rattle.store_rows.specs.Meaning.{is_closed};
ghost use Rattle.store_rows.specs.Links.{without_all_links};
ghost use Rattle.store_rows.specs.Spans.{without_all_of};
ghost use Rattle.store_rows.specs.Writing.{without_all_lines, without_record_rows, without_records};
ghost use Rattle.staged_rows.specs.Removing.{
  AreAside,
  AreLinksAside,
  AreOf,
  links_from,
  without_batch,
  without_later,
};
ghost use Rattle.staged_rows.specs.Staging.{AreAllClosed};
ghost use Rattle.staging.specs.Clearing.{Clears, IsCleared, IsThinned, LeavesSeen};
ghost use Rattle.staging.specs.Opening.{LeavesOne};

use crate::clearing::{
    Failed, clear_batch, clear_lines, clear_lines_from, clear_links, clear_packs, clear_rows,
    clear_spans,
};
use crate::finding::{find_links, find_numbers};
use record_text::RefusalKind;
use sqlite::{Alter, Connection};
use std::alloc::Global;
use store_tables::batches::count_lines;
use store_tables::{LinkRow, read_batches};

/// How many rows a commit takes out, at most.
const ROOM: usize = 256;

/// Of so many numbers a commit takes out what goes first, since each may have a span and be looked for.
const HALF: usize = 128;

/// Takes every open batch out with its rows, in commits of at most 256 rows, of tables that have spans or none. Where
/// all are closed, nothing is written.
///
/// 80: the database failed. 1: memory was refused. After either some rows of open batches may be left.
pub fn remove_open<S: Alter>(
    alloc: Global,
    conn: &mut Connection<S>,
    has_spans: bool,
) -> Result<(), RefusalKind>
    requires autocommit { conn.old.in_transaction ≡ false }
    ensures cleared { HasCleanDisk (state S.Store conn.new)
        → OnOk result ((rows : Rows) → Settled (state S.Store conn.old) rows → rows.has_spans ≡ has_spans
        → IsCleared (state S.Store conn.new) rows) }
    ensures untouched { HasCleanDisk (state S.Store conn.new)
        → OnOk result ((rows : Rows) → Settled (state S.Store conn.old) rows → AreAllClosed rows
        → Settled (state S.Store conn.new) rows) }
    ensures idle { HasCleanDisk (state S.Store conn.new) → (rows : Rows) → Settled (state S.Store conn.old) rows
        → AreAllClosed rows → LeavesOnly (state S.Store conn.new) rows }
    ensures crash { HasCleanDisk (state S.Store conn.new) → (rows : Rows) → Settled (state S.Store conn.old) rows
        → rows.has_spans ≡ has_spans → LeavesSeen (state S.Store conn.new) rows }
    ensures refused { HasCleanDisk (state S.Store conn.new)
        → IfErr result (λ kind. (rows : Rows) → Settled (state S.Store conn.old) rows → IsFailure kind) }
    ensures stays { HasCleanDisk (state S.Store conn.new) → IfErr result (λ kind. (rows : Rows)
        → Settled (state S.Store conn.old) rows → rows.has_spans ≡ has_spans
        → (kind ≡ Storage) ⊎ LeavesOne (state S.Store conn.new) rows) }
    ensures clean { HasCleanDisk (state S.Store conn.new) → HasCleanDisk (state S.Store conn.old) }
    ensures ended { conn.new.in_transaction ≡ false }
{
    let batches = read_batches(alloc, conn)?;
    'batches: for batch in &batches {
        if batch.is_open {
            remove_found(alloc, conn, has_spans, batch.number)?;
        }
    }
    Ok(())
}

/// Takes a batch out with all rows that it has.
///
/// 80: the database failed, and some of the rows may be left. 1: memory was refused, and all of them are left.
fn remove_found<S: Alter>(
    alloc: Global,
    conn: &mut Connection<S>,
    has_spans: bool,
    batch: u32,
) -> Result<(), RefusalKind>
    requires autocommit { conn.old.in_transaction ≡ false }
    ensures gone { HasCleanDisk (state S.Store conn.new)
        → OnOk result ((rows : Rows) → Settled (state S.Store conn.old) rows → rows.has_spans ≡ has_spans
        → Settled (state S.Store conn.new) (without_batch batch (rows_of.numbers_in batch rows)
        (links_from (rows_of.numbers_in batch rows) rows) rows)) }
    ensures crash { HasCleanDisk (state S.Store conn.new) → (rows : Rows) → Settled (state S.Store conn.old) rows
        → rows.has_spans ≡ has_spans → is_closed batch rows.batches ≡ false
        → LeavesSeen (state S.Store conn.new) rows }
    ensures stays { HasCleanDisk (state S.Store conn.new) → IfErr result (λ kind. (kind ≡ Storage)
        ⊎ ((kind ≡ OutOfMemory) × ((rows : Rows) → Settled (state S.Store conn.old) rows
        → LeavesOnly (state S.Store conn.new) rows))) }
    ensures clean { HasCleanDisk (state S.Store conn.new) → HasCleanDisk (state S.Store conn.old) }
    ensures ended { conn.new.in_transaction ≡ false }
{
    let numbers = find_numbers(alloc, conn, batch)?;
    let links = find_links(alloc, conn, has_spans, &numbers)?;
    remove_batch(conn, has_spans, batch, &numbers, &links)
}

/// Takes a batch out, of tables that have spans or none: the spans of its numbers and what they are looked for by, then
/// its links, then the lines of its numbers, then their rows in `record`, then its own row, in commits of at most 256
/// rows. Of a batch that is open nothing is seen, whatever a stop leaves of it.
///
/// 80: the database failed, and some of the rows may be left. Takes no memory outside of it.
pub fn remove_batch<S: Alter>(
    conn: &mut Connection<S>,
    has_spans: bool,
    batch: u32,
    numbers: &[u32],
    links: &[LinkRow],
) -> Result<(), RefusalKind>
    requires autocommit { conn.old.in_transaction ≡ false }
    ensures gone { HasCleanDisk (state S.Store conn.new)
        → OnOk result ((rows : Rows) → Settled (state S.Store conn.old) rows → rows.has_spans ≡ has_spans
        → Settled (state S.Store conn.new) (without_batch batch numbers.now links.now rows)) }
    ensures crash { HasCleanDisk (state S.Store conn.new) → (rows : Rows) → Settled (state S.Store conn.old) rows
        → rows.has_spans ≡ has_spans → is_closed batch rows.batches ≡ false → AreAside numbers.now rows
        → AreOf numbers.now links.now → LeavesSeen (state S.Store conn.new) rows }
    ensures refused { IfErr result (λ kind. kind ≡ Storage) }
    ensures clean { HasCleanDisk (state S.Store conn.new) → HasCleanDisk (state S.Store conn.old) }
    ensures ended { conn.new.in_transaction ≡ false }
{
    match take_out(conn, has_spans, batch, numbers, links) {
        Ok(()) => Ok(()),
        Err(_) => Err(RefusalKind::Storage),
    }
}

/// The same, but for the refusal.
fn take_out<S: Alter>(
    conn: &mut Connection<S>,
    has_spans: bool,
    batch: u32,
    numbers: &[u32],
    links: &[LinkRow],
) -> Result<(), Failed>
    requires autocommit { conn.old.in_transaction ≡ false }
    ensures gone { HasCleanDisk (state S.Store conn.new)
        → OnOk result ((rows : Rows) → Settled (state S.Store conn.old) rows → rows.has_spans ≡ has_spans
        → Settled (state S.Store conn.new) (without_batch batch numbers.now links.now rows)) }
    ensures crash { HasCleanDisk (state S.Store conn.new) → (rows : Rows) → Settled (state S.Store conn.old) rows
        → rows.has_spans ≡ has_spans → is_closed batch rows.batches ≡ false → AreAside numbers.now rows
        → AreOf numbers.now links.now → LeavesSeen (state S.Store conn.new) rows }
    ensures clean { HasCleanDisk (state S.Store conn.new) → HasCleanDisk (state S.Store conn.old) }
    ensures ended { conn.new.in_transaction ≡ false }
{
    take_later_if(conn, has_spans, numbers, links)?;
    take_rows_out(conn, has_spans, numbers)?;
    clear_batch(conn, batch)
}

/// Takes the spans of these numbers out, what they are looked for by and these links, where the tables have spans.
fn take_later_if<S: Alter>(
    conn: &mut Connection<S>,
    has_spans: bool,
    numbers: &[u32],
    links: &[LinkRow],
) -> Result<(), Failed>
    requires autocommit { conn.old.in_transaction ≡ false }
    ensures done { HasCleanDisk (state S.Store conn.new)
        → OnOk result ((rows : Rows) → Settled (state S.Store conn.old) rows → rows.has_spans ≡ has_spans
        → Settled (state S.Store conn.new) (without_later numbers.now links.now rows)) }
    ensures crash { HasCleanDisk (state S.Store conn.new) → (rows : Rows) → Settled (state S.Store conn.old) rows
        → rows.has_spans ≡ has_spans → AreAside numbers.now rows → AreOf numbers.now links.now
        → LeavesSeen (state S.Store conn.new) rows }
    ensures clean { HasCleanDisk (state S.Store conn.new) → HasCleanDisk (state S.Store conn.old) }
    ensures ended { conn.new.in_transaction ≡ false }
{
    if has_spans {
        take_later(conn, numbers, links)
    } else {
        Ok(())
    }
}

/// The same of tables that have spans.
fn take_later<S: Alter>(
    conn: &mut Connection<S>,
    numbers: &[u32],
    links: &[LinkRow],
) -> Result<(), Failed>
    requires autocommit { conn.old.in_transaction ≡ false }
    ensures done { HasCleanDisk (state S.Store conn.new)
        → OnOk result ((rows : Rows) → Settled (state S.Store conn.old) rows → rows.has_spans ≡ true
        → Settled (state S.Store conn.new) (without_later numbers.now links.now rows)) }
    ensures crash { HasCleanDisk (state S.Store conn.new) → (rows : Rows) → Settled (state S.Store conn.old) rows
        → rows.has_spans ≡ true → AreAside numbers.now rows → AreOf numbers.now links.now
        → LeavesSeen (state S.Store conn.new) rows }
    ensures clean { HasCleanDisk (state S.Store conn.new) → HasCleanDisk (state S.Store conn.old) }
    ensures ended { conn.new.in_transaction ≡ false }
{
    take_spans(conn, numbers)?;
    take_links(conn, links)
}

/// Takes the spans of these numbers, and what they are looked for by, out of tables that have spans.
fn take_spans<S: Alter>(conn: &mut Connection<S>, numbers: &[u32]) -> Result<(), Failed>
    requires autocommit { conn.old.in_transaction ≡ false }
    ensures done { HasCleanDisk (state S.Store conn.new)
        → OnOk result ((rows : Rows) → Settled (state S.Store conn.old) rows → rows.has_spans ≡ true
        → Settled (state S.Store conn.new) (without_all_of numbers.now rows)) }
    ensures crash { HasCleanDisk (state S.Store conn.new) → (rows : Rows) → Settled (state S.Store conn.old) rows
        → rows.has_spans ≡ true → AreAside numbers.now rows → LeavesSeen (state S.Store conn.new) rows }
    ensures clean { HasCleanDisk (state S.Store conn.new) → HasCleanDisk (state S.Store conn.old) }
    ensures ended { conn.new.in_transaction ≡ false }
{
    let mut rest = numbers;
    'spans: while !rest.is_empty() {
        let (part, more) = rest.split_at(rest.len().min(HALF));
        clear_spans(conn, part)?;
        rest = more;
    }
    Ok(())
}

/// Takes these links out of tables that have spans.
fn take_links<S: Alter>(conn: &mut Connection<S>, links: &[LinkRow]) -> Result<(), Failed>
    requires autocommit { conn.old.in_transaction ≡ false }
    ensures done { HasCleanDisk (state S.Store conn.new)
        → OnOk result ((rows : Rows) → Settled (state S.Store conn.old) rows → rows.has_spans ≡ true
        → Settled (state S.Store conn.new) (without_all_links links.now rows)) }
    ensures crash { HasCleanDisk (state S.Store conn.new) → (rows : Rows) → Settled (state S.Store conn.old) rows
        → rows.has_spans ≡ true → AreLinksAside links.now rows
        → LeavesSeen (state S.Store conn.new) rows }
    ensures clean { HasCleanDisk (state S.Store conn.new) → HasCleanDisk (state S.Store conn.old) }
    ensures ended { conn.new.in_transaction ≡ false }
{
    let mut rest = links;
    'links: while !rest.is_empty() {
        let (part, more) = rest.split_at(rest.len().min(ROOM));
        clear_links(conn, part)?;
        rest = more;
    }
    Ok(())
}

/// Takes the lines of these numbers out, of tables that have spans or none, and then their rows in `record`.
fn take_rows_out<S: Alter>(
    conn: &mut Connection<S>,
    has_spans: bool,
    numbers: &[u32],
) -> Result<(), Failed>
    requires autocommit { conn.old.in_transaction ≡ false }
    ensures clears { Clears numbers.now (λ rows after. after ≡ without_records numbers.now rows)
        (state S.Store conn.old) (state S.Store conn.new) result }
    ensures ended { conn.new.in_transaction ≡ false }
{
    take_lines_of(conn, has_spans, numbers)?;
    take_rows(conn, numbers)
}

/// Takes the lines of these numbers out, of tables that have spans, where each number has them in one row, or none.
fn take_lines_of<S: Alter>(
    conn: &mut Connection<S>,
    has_spans: bool,
    numbers: &[u32],
) -> Result<(), Failed>
    requires autocommit { conn.old.in_transaction ≡ false }
    ensures clears { Clears numbers.now (λ rows after. after ≡ without_all_lines numbers.now rows)
        (state S.Store conn.old) (state S.Store conn.new) result }
    ensures ended { conn.new.in_transaction ≡ false }
{
    if has_spans {
        take_packs(conn, numbers)
    } else {
        take_lines(conn, numbers)
    }
}

/// Takes the lines of these numbers out, of which each has them in one row.
fn take_packs<S: Alter>(conn: &mut Connection<S>, numbers: &[u32]) -> Result<(), Failed>
    requires autocommit { conn.old.in_transaction ≡ false }
    ensures clears { Clears numbers.now (λ rows after. after ≡ without_all_lines numbers.now rows)
        (state S.Store conn.old) (state S.Store conn.new) result }
    ensures ended { conn.new.in_transaction ≡ false }
{
    let mut rest = numbers;
    'packs: while !rest.is_empty() {
        let (part, more) = rest.split_at(rest.len().min(ROOM));
        clear_packs(conn, part)?;
        rest = more;
    }
    Ok(())
}

/// Takes the lines of these numbers out, of which each has a row a line: of several numbers in one commit where they
/// are few.
fn take_lines<S: Alter>(conn: &mut Connection<S>, numbers: &[u32]) -> Result<(), Failed>
    requires autocommit { conn.old.in_transaction ≡ false }
    ensures clears { Clears numbers.now (λ rows after. after ≡ without_all_lines numbers.now rows)
        (state S.Store conn.old) (state S.Store conn.new) result }
    ensures ended { conn.new.in_transaction ≡ false }
{
    let mut first: usize = 0;
    let mut gathered: usize = 0;
    'numbers: for at in 0..numbers.len() {
        let count = thinned(conn, numbers[at])?;
        if gathered + count <= ROOM {
            gathered += count;
            continue;
        }
        clear_lines(conn, &numbers[first..at])?;
        first = at;
        gathered = count;
    }
    clear_lines(conn, &numbers[first..])
}

/// How many lines a number has, 256 at most: of one that has more the others are removed, from the last ones on.
fn thinned<S: Alter>(conn: &mut Connection<S>, number: u32) -> Result<usize, Failed>
    requires autocommit { conn.old.in_transaction ≡ false }
    ensures small { IfOk result (λ count. count ≤ 256) }
    ensures clears { (ns : List ℕ) → list_any (λ n. n == number) ns ≡ true
        → Clears ns (IsThinned number) (state S.Store conn.old) (state S.Store conn.new) result }
    ensures ended { conn.new.in_transaction ≡ false }
{
    let count = count_lines(conn, number)?;
    if count <= ROOM {
        return Ok(count);
    }
    let Ok(parts) = u32::try_from(count / ROOM) else {
        return Err(Failed);
    };
    thin(conn, number, parts)?;
    Ok(ROOM)
}

/// Takes the lines of a number out, so many times 256, from the last ones on.
fn thin<S: Alter>(conn: &mut Connection<S>, number: u32, parts: u32) -> Result<(), Failed>
    requires autocommit { conn.old.in_transaction ≡ false }
    ensures clears { (ns : List ℕ) → list_any (λ n. n == number) ns ≡ true
        → Clears ns (IsThinned number) (state S.Store conn.old) (state S.Store conn.new) result }
    ensures ended { conn.new.in_transaction ≡ false }
{
    'parts: for done in 0..parts {
        clear_lines_from(conn, number, (parts - done).saturating_mul(256))?;
    }
    Ok(())
}

/// Takes the rows of these numbers out of `record`.
fn take_rows<S: Alter>(conn: &mut Connection<S>, numbers: &[u32]) -> Result<(), Failed>
    requires autocommit { conn.old.in_transaction ≡ false }
    ensures clears { Clears numbers.now (λ rows after. after ≡ without_record_rows numbers.now rows)
        (state S.Store conn.old) (state S.Store conn.new) result }
    ensures ended { conn.new.in_transaction ≡ false }
{
    let mut rest = numbers;
    'rows: while !rest.is_empty() {
        let (part, more) = rest.split_at(rest.len().min(ROOM));
        clear_rows(conn, part)?;
        rest = more;
    }
    Ok(())
}
