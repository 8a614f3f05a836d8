//! The rows of an import, written inside a transaction.

ghost use Rattle.std.specs.Prelude.{◌≡◌, ◌⊎◌, ◌<◌, ◌≤◌, ◌+◌, ◌∷◌, [], length, map, take, drop, OnOk, IfOk, IfErr};
ghost use Rattle.sqlite.specs.Held.{state};
ghost use Rattle.sqlite.specs.State.{HasCleanDisk};
ghost use Rattle.record_text.specs.declared.refusal.RefusalKind.TheVariants.{OutOfMemory, Storage};
ghost use Rattle.record_shapes.specs.Lists.{EachOf};
ghost use Rattle.store_tables.specs.Calls.{Follows, LeavesAsBefore, Writes, WritesDated};
ghost use Rattle.store_tables.specs.Rows.{with_closed, with_next};
ghost use Rattle.store_rows.specs.Shallow.{IsShallowPut};
ghost use Rattle.store_rows.specs.Writing.{with_kept_written};
ghost use Rattle.staged_rows.specs.Staging.{a_link, lines_of_put, record_of, with_published, with_staged};
ghost use Rattle.staging.specs.Opened.{
  FollowsStaged,
  GoesOnLater,
  IsPlaced,
  later_left,
  left_of,
  new_record,
  row_of_sought_row,
  row_of_span,
};

use crate::cursor::Cursor;
use crate::dated::Dated;
use crate::later::Later;
use crate::opened::OpenImport;
use archive_state::{Kept, Numbered};
use bulk_inserts::{NewRecord, insert_links, insert_records};
use record_text::RefusalKind;
use records::lines_of;
use sqlite::{Alter, Error, Transaction};
use std::alloc::{AllocError, Global};
use store_rows::{Unwritten, kind_of, kind_word, write_kept};
use store_tables::lines::insert_lines;
use store_tables::{LinkRow, SoughtRow, batches, rows, soughts, spans};

/// How many rows a stage writes.
pub(crate) const STAGE: u32 = 256;

/// Writes the next 256 rows of an import, or all that are left, into tables that have spans.
///
/// 80: the database answered an error. 1: memory for the lines of a record was refused. After either the transaction is
/// to be given up; the import is as it was.
pub fn stage_rows<S: Alter>(
    alloc: Global,
    tx: &mut Transaction<'_, S>,
    import: &mut OpenImport,
) -> Result<(), RefusalKind>
    ensures same_reference { tx.new.conn.ghost_name ≡ tx.old.conn.ghost_name }
    ensures ok { HasCleanDisk (state S.Store tx.new.conn.now) → OnOk result
        (FollowsStaged (state S.Store tx.old.conn.now) (state S.Store tx.new.conn.now) (take 256 import.old.left)) }
    ensures left { OnOk result (import.new ≡ record import.old { left = drop 256 import.old.left }) }
    ensures kept { IfErr result (λ _. import.new ≡ import.old) }
    ensures survives { LeavesAsBefore (state S.Store tx.old.conn.now) (state S.Store tx.new.conn.now) }
    ensures refused { IfErr result (λ kind. (kind ≡ OutOfMemory) ⊎ (kind ≡ Storage)) }
{
    let before = import.cursor;
    let written = write_rows(
        alloc,
        tx,
        import.batch,
        &import.changes.puts,
        &import.later,
        &mut import.cursor,
    );
    match written {
        Ok(()) => Ok(()),
        Err(why) => {
            import.cursor = before;
            Err(kind_of(why))
        }
    }
}

/// Publishes an import: its batch is closed, the next number is after its numbers, and its answer is kept.
/// `Err`: a statement failed.
pub fn publish_rows<S: Alter>(tx: &mut Transaction<'_, S>, import: &OpenImport) -> Result<(), Error>
    ensures same_reference { tx.new.conn.ghost_name ≡ tx.old.conn.ghost_name }
    ensures ok { Writes (state S.Store tx.old.conn.now) (state S.Store tx.new.conn.now)
        result (with_published import.now.batch import.now.changes) }
    ensures survives { LeavesAsBefore (state S.Store tx.old.conn.now) (state S.Store tx.new.conn.now) }
    ensures shallow { OnOk result (import.now.left ≡ [] → EachOf IsShallowPut import.now.changes.puts) }
{
    publish(tx, import.batch, import.changes.next, &import.changes.kept)
}

/// Closes a batch, moves the next number and keeps an answer.
fn publish<S: Alter>(
    tx: &mut Transaction<'_, S>,
    batch: u32,
    next: u64,
    kept: &Option<Kept>,
) -> Result<(), Error>
    ensures same_reference { tx.new.conn.ghost_name ≡ tx.old.conn.ghost_name }
    ensures ok { Writes (state S.Store tx.old.conn.now) (state S.Store tx.new.conn.now)
        result (λ rows. with_kept_written kept.now (with_next next (with_closed batch rows))) }
    ensures survives { LeavesAsBefore (state S.Store tx.old.conn.now) (state S.Store tx.new.conn.now) }
{
    batches::close_batch(tx, batch)?;
    rows::set_next(tx, next)?;
    write_kept(tx, kept)
}

/// Writes the next 256 rows, or all that are left.
fn write_rows<S: Alter>(
    alloc: Global,
    tx: &mut Transaction<'_, S>,
    batch: u32,
    puts: &[Numbered],
    later: &Later,
    cursor: &mut Cursor,
) -> Result<(), Unwritten>
    requires placed { IsPlaced puts.now cursor.old }
    ensures same_reference { tx.new.conn.ghost_name ≡ tx.old.conn.ghost_name }
    ensures ok { HasCleanDisk (state S.Store tx.new.conn.now) → OnOk result
        (FollowsStaged (state S.Store tx.old.conn.now) (state S.Store tx.new.conn.now)
        (take 256 (left_of batch puts.now later.now cursor.old))) }
    ensures left { OnOk result (left_of batch puts.now later.now cursor.new
        ≡ drop 256 (left_of batch puts.now later.now cursor.old)) }
    ensures placed { OnOk result (IsPlaced puts.now cursor.new) }
    ensures survives { LeavesAsBefore (state S.Store tx.old.conn.now) (state S.Store tx.new.conn.now) }
{
    let mut room = STAGE as usize;
    'rows: while room > 0 {
        let written = write_some(alloc, tx, batch, puts, later, cursor, room)?;
        room -= written;
    }
    Ok(())
}

/// Writes some of the next rows, at most so many, and returns how many: rows of `record` and links together, all others
/// one by one. Where none is left, one counts as written.
fn write_some<S: Alter>(
    alloc: Global,
    tx: &mut Transaction<'_, S>,
    batch: u32,
    puts: &[Numbered],
    later: &Later,
    cursor: &mut Cursor,
    room: usize,
) -> Result<usize, Unwritten>
    requires placed { IsPlaced puts.now cursor.old }
    requires room { 0 < room }
    ensures same_reference { tx.new.conn.ghost_name ≡ tx.old.conn.ghost_name }
    ensures few { IfOk result (λ n. (0 < n) × (n ≤ room)) }
    ensures ok { HasCleanDisk (state S.Store tx.new.conn.now) → IfOk result (λ n.
        FollowsStaged (state S.Store tx.old.conn.now) (state S.Store tx.new.conn.now)
        (take n (left_of batch puts.now later.now cursor.old))) }
    ensures left { IfOk result (λ n. left_of batch puts.now later.now cursor.new
        ≡ drop n (left_of batch puts.now later.now cursor.old)) }
    ensures placed { OnOk result (IsPlaced puts.now cursor.new) }
    ensures survives { LeavesAsBefore (state S.Store tx.old.conn.now) (state S.Store tx.new.conn.now) }
{
    if cursor.rows < puts.len() {
        let written = write_records(alloc, tx, batch, puts, cursor, room)?;
        return Ok(written);
    }
    let Some(put) = puts.get(cursor.done) else {
        let written = write_later(tx, later, cursor, room)?;
        return Ok(written);
    };
    write_lines(alloc, tx, put)?;
    cursor.done += 1;
    Ok(1)
}

/// Writes the next rows of `record`, at most so many, and returns how many.
fn write_records<S: Alter>(
    alloc: Global,
    tx: &mut Transaction<'_, S>,
    batch: u32,
    puts: &[Numbered],
    cursor: &mut Cursor,
    room: usize,
) -> Result<usize, Unwritten>
    requires there { cursor.old.rows < length puts.now }
    requires room { 0 < room }
    ensures same_reference { tx.new.conn.ghost_name ≡ tx.old.conn.ghost_name }
    ensures few { IfOk result (λ n. (0 < n) × (n ≤ room) × (cursor.old.rows + n ≤ length puts.now)) }
    ensures ok { HasCleanDisk (state S.Store tx.new.conn.now) → IfOk result (λ n.
        Follows (state S.Store tx.old.conn.now) (state S.Store tx.new.conn.now)
        (with_staged (map (record_of batch) (take n (drop cursor.old.rows puts.now))))) }
    ensures next { IfOk result (λ n. cursor.new ≡ record cursor.old { rows = cursor.old.rows + n }) }
    ensures survives { LeavesAsBefore (state S.Store tx.old.conn.now) (state S.Store tx.new.conn.now) }
{
    let (_, left) = puts.split_at(cursor.rows);
    let number = room.min(left.len());
    let (some, _) = left.split_at(number);
    let records = new_records(alloc, some)?;
    insert_records(tx, records.as_slice(), batch)?;
    cursor.rows += number;
    Ok(number)
}

/// The rows of `record` of what is put, without their batch.
fn new_records(alloc: Global, puts: &[Numbered]) -> Result<Vec<NewRecord>, AllocError>
    ensures { IfOk result (λ rows. rows.items ≡ map new_record puts.now) }
{
    let mut rows = Vec::with_capacity(alloc, puts.len())?;
    'puts: for put in puts {
        rows.push(NewRecord {
            number: put.number,
            kind: kind_word(&put.record),
        })?;
    }
    Ok(rows)
}

/// Writes the next rows that come after the lines, at most so many, and returns how many: links together, all others
/// one by one. Where none is left, one counts as written.
fn write_later<S: Alter>(
    tx: &mut Transaction<'_, S>,
    later: &Later,
    cursor: &mut Cursor,
    room: usize,
) -> Result<usize, Error>
    requires room { 0 < room }
    ensures same_reference { tx.new.conn.ghost_name ≡ tx.old.conn.ghost_name }
    ensures few { IfOk result (λ n. (0 < n) × (n ≤ room)) }
    ensures ok { HasCleanDisk (state S.Store tx.new.conn.now) → IfOk result (λ n.
        FollowsStaged (state S.Store tx.old.conn.now) (state S.Store tx.new.conn.now)
        (take n (later_left later.now cursor.old))) }
    ensures left { IfOk result (λ n. later_left later.now cursor.new ≡ drop n (later_left later.now cursor.old)) }
    ensures others { OnOk result (GoesOnLater cursor.old cursor.new) }
    ensures survives { LeavesAsBefore (state S.Store tx.old.conn.now) (state S.Store tx.new.conn.now) }
{
    let links = later.links.as_slice();
    if cursor.links < links.len() {
        let written = write_links(tx, links, cursor, room)?;
        return Ok(written);
    }
    let soughts = later.soughts.as_slice();
    if cursor.soughts < soughts.len() {
        write_sought(tx, soughts, cursor)?;
        return Ok(1);
    }
    let spans = later.spans.as_slice();
    write_span(tx, spans, cursor)?;
    Ok(1)
}

/// Writes the next links, at most so many, and returns how many.
fn write_links<S: Alter>(
    tx: &mut Transaction<'_, S>,
    links: &[LinkRow],
    cursor: &mut Cursor,
    room: usize,
) -> Result<usize, Error>
    requires there { cursor.old.links < length links.now }
    requires room { 0 < room }
    ensures same_reference { tx.new.conn.ghost_name ≡ tx.old.conn.ghost_name }
    ensures few { IfOk result (λ n. (0 < n) × (n ≤ room) × (cursor.old.links + n ≤ length links.now)) }
    ensures ok { HasCleanDisk (state S.Store tx.new.conn.now) → IfOk result (λ n.
        FollowsStaged (state S.Store tx.old.conn.now) (state S.Store tx.new.conn.now)
        (map a_link (take n (drop cursor.old.links links.now)))) }
    ensures next { IfOk result (λ n. cursor.new ≡ record cursor.old { links = cursor.old.links + n }) }
    ensures survives { LeavesAsBefore (state S.Store tx.old.conn.now) (state S.Store tx.new.conn.now) }
{
    let (_, left) = links.split_at(cursor.links);
    let number = room.min(left.len());
    let (some, _) = left.split_at(number);
    insert_links(tx, some)?;
    cursor.links += number;
    Ok(number)
}

/// Writes what the next record is looked for by.
fn write_sought<S: Alter>(
    tx: &mut Transaction<'_, S>,
    soughts: &[SoughtRow],
    cursor: &mut Cursor,
) -> Result<(), Error>
    requires there { cursor.old.soughts < length soughts.now }
    ensures same_reference { tx.new.conn.ghost_name ≡ tx.old.conn.ghost_name }
    ensures ok { WritesDated (state S.Store tx.old.conn.now) (state S.Store tx.new.conn.now)
        result (with_staged (take 1 (map row_of_sought_row (drop cursor.old.soughts soughts.now)))) }
    ensures next { OnOk result (cursor.new ≡ record cursor.old { soughts = cursor.old.soughts + 1 }) }
    ensures survives { LeavesAsBefore (state S.Store tx.old.conn.now) (state S.Store tx.new.conn.now) }
{
    let sought = &soughts[cursor.soughts];
    soughts::insert_sought(tx, sought.number, &sought.text, sought.target)?;
    cursor.soughts += 1;
    Ok(())
}

/// Writes the next span, where one is left.
fn write_span<S: Alter>(
    tx: &mut Transaction<'_, S>,
    spans: &[Dated],
    cursor: &mut Cursor,
) -> Result<(), Error>
    ensures same_reference { tx.new.conn.ghost_name ≡ tx.old.conn.ghost_name }
    ensures ok { WritesDated (state S.Store tx.old.conn.now) (state S.Store tx.new.conn.now)
        result (with_staged (take 1 (map row_of_span (drop cursor.old.spans spans.now)))) }
    ensures left { OnOk result (map row_of_span (drop cursor.new.spans spans.now)
        ≡ drop 1 (map row_of_span (drop cursor.old.spans spans.now))) }
    ensures others { OnOk result (cursor.new ≡ record cursor.old { spans = cursor.new.spans }) }
    ensures survives { LeavesAsBefore (state S.Store tx.old.conn.now) (state S.Store tx.new.conn.now) }
{
    let Some(dated) = spans.get(cursor.spans) else {
        return Ok(());
    };
    spans::insert_span(tx, dated.number, dated.span.lo, dated.span.hi)?;
    cursor.spans += 1;
    Ok(())
}

/// Writes the row with all lines of a record.
fn write_lines<S: Alter>(
    alloc: Global,
    tx: &mut Transaction<'_, S>,
    put: &Numbered,
) -> Result<(), Unwritten>
    ensures same_reference { tx.new.conn.ghost_name ≡ tx.old.conn.ghost_name }
    ensures ok { Writes (state S.Store tx.old.conn.now) (state S.Store tx.new.conn.now)
        result (with_staged (lines_of_put put.now ∷ [])) }
    ensures shallow { OnOk result (IsShallowPut put.now) }
    ensures survives { LeavesAsBefore (state S.Store tx.old.conn.now) (state S.Store tx.new.conn.now) }
{
    let lines = lines_of(alloc, &put.record)?;
    insert_lines(alloc, tx, put.number, &lines)?;
    Ok(())
}
