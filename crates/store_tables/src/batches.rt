//! Batches: what one has is read; one is closed, or removed with its rows, by calls inside a transaction.

ghost use Rattle.std.specs.Prelude.{◌≡◌, false, IfErr};
ghost use Rattle.sqlite.specs.Held.{state};
ghost use Rattle.record_text.specs.declared.refusal.RefusalKind.TheVariants.{Storage};
ghost use Rattle.store_tables.specs.Batches.{count_of_lines, numbers_in};
ghost use Rattle.store_tables.specs.Calls.{LeavesAsBefore, Writes};
ghost use Rattle.store_tables.specs.Looking.{Looks};
ghost use Rattle.store_tables.specs.Rows.{with_closed, without_batch_row, without_lines_from};

use crate::reading::{ask, read_all};
use record_text::RefusalKind;
use sqlite::{Alter, Connection, Error, Transaction, params};
use std::alloc::Global;

const NUMBERS_IN: &str = "SELECT no FROM record WHERE batch = ?1 ORDER BY no";

const OWN_LINES: &str = "SELECT no FROM line WHERE no = ?1 ORDER BY rowid";

/// The numbers of a batch, in order. Errors as of `read_rows`.
pub fn numbers_in<S: Alter>(
    alloc: Global,
    conn: &mut Connection<S>,
    batch: u32,
) -> Result<Vec<u32>, RefusalKind>
    requires autocommit { conn.old.in_transaction ≡ false }
    ensures looks { Looks (λ rows items. items.items ≡ numbers_in batch rows) (state S.Store conn.old)
        (state S.Store conn.new) result }
    ensures ended { conn.new.in_transaction ≡ false }
{
    read_all(alloc, conn, NUMBERS_IN, params![batch])
}

/// How many rows with lines a number has: in the second schema one, where it has any. 80: the database failed, or
/// memory was refused to it. Takes no memory outside of it.
pub fn count_lines<S: Alter>(conn: &mut Connection<S>, number: u32) -> Result<usize, RefusalKind>
    requires autocommit { conn.old.in_transaction ≡ false }
    ensures looks { Looks (λ rows count. count ≡ count_of_lines number rows) (state S.Store conn.old)
        (state S.Store conn.new) result }
    ensures storage { IfErr result (λ kind. kind ≡ Storage) }
    ensures ended { conn.new.in_transaction ≡ false }
{
    match ask(conn, OWN_LINES, params![number]) {
        Ok(rows) => Ok(rows.len()),
        Err(_) => Err(RefusalKind::Storage),
    }
}

/// A batch is closed from now on, where it is there.
pub fn close_batch<S: Alter>(tx: &mut Transaction<'_, S>, number: u32) -> Result<(), Error>
    ensures same_reference { tx.new.conn.ghost_name ≡ tx.old.conn.ghost_name }
    ensures ok { Writes (state S.Store tx.old.conn.now) (state S.Store tx.new.conn.now) result (with_closed number) }
    ensures survives { LeavesAsBefore (state S.Store tx.old.conn.now) (state S.Store tx.new.conn.now) }
{
    tx.execute(
        "UPDATE batch SET is_open = 0 WHERE no = ?1",
        params![number],
    )?;
    Ok(())
}

/// Takes the row of a batch out. Its records go first.
pub fn delete_batch<S: Alter>(tx: &mut Transaction<'_, S>, number: u32) -> Result<(), Error>
    ensures same_reference { tx.new.conn.ghost_name ≡ tx.old.conn.ghost_name }
    ensures ok { Writes (state S.Store tx.old.conn.now) (state S.Store tx.new.conn.now)
        result (without_batch_row number) }
    ensures survives { LeavesAsBefore (state S.Store tx.old.conn.now) (state S.Store tx.new.conn.now) }
{
    tx.execute("DELETE FROM batch WHERE no = ?1", params![number])?;
    Ok(())
}

/// Takes the lines of a number out, from a place on. In the second schema they stand at place 0.
pub fn delete_lines_from<S: Alter>(
    tx: &mut Transaction<'_, S>,
    number: u32,
    place: u32,
) -> Result<(), Error>
    ensures same_reference { tx.new.conn.ghost_name ≡ tx.old.conn.ghost_name }
    ensures ok { Writes (state S.Store tx.old.conn.now) (state S.Store tx.new.conn.now)
        result (without_lines_from number place) }
    ensures survives { LeavesAsBefore (state S.Store tx.old.conn.now) (state S.Store tx.new.conn.now) }
{
    tx.execute(
        "DELETE FROM line WHERE no = ?1 AND pos >= ?2",
        params![number, place],
    )?;
    Ok(())
}
