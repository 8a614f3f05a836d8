//! Single rows, each written by a call of its own inside a transaction.

ghost use Rattle.std.specs.Prelude.{◌≡◌, IfSome};
ghost use Rattle.sqlite.specs.Held.{state};
ghost use Rattle.store_tables.specs.Calls.{LeavesAsBefore, Writes};
ghost use Rattle.store_tables.specs.Reading.{IsU32};
ghost use Rattle.store_tables.specs.Rows.{
  flag,
  with_next,
  with_batch,
  with_record_row,
  without_record_row,
  without_lines,
  with_receipt,
  with_slip_row,
};

use receipts::{Receipt, Token};
use sqlite::{Alter, Error, Transaction, params};

/// A batch under its number.
pub fn insert_batch<S: Alter>(
    tx: &mut Transaction<'_, S>,
    number: u32,
    is_open: bool,
) -> Result<(), Error>
    ensures same_reference { tx.new.conn.ghost_name ≡ tx.old.conn.ghost_name }
    ensures ok { Writes (state S.Store tx.old.conn.now) (state S.Store tx.new.conn.now)
        result (with_batch number is_open) }
    ensures survives { LeavesAsBefore (state S.Store tx.old.conn.now) (state S.Store tx.new.conn.now) }
{
    let flag = flag(is_open);
    tx.execute(
        "INSERT INTO batch (no, is_open) VALUES (?1, ?2)",
        params![number, flag],
    )?;
    Ok(())
}

/// A flag as a number.
pub(crate) fn flag(is_set: bool) -> u32
    ensures { result ≡ flag is_set }
{
    if is_set { 1 } else { 0 }
}

/// Sets the next number.
pub fn set_next<S: Alter>(tx: &mut Transaction<'_, S>, next: u64) -> Result<(), Error>
    ensures same_reference { tx.new.conn.ghost_name ≡ tx.old.conn.ghost_name }
    ensures ok { Writes (state S.Store tx.old.conn.now) (state S.Store tx.new.conn.now) result (with_next next) }
    ensures survives { LeavesAsBefore (state S.Store tx.old.conn.now) (state S.Store tx.new.conn.now) }
{
    // A column of integers has no room for more.
    let Ok(next) = i64::try_from(next) else {
        return Err(Error::IntegralValueOutOfRange(0));
    };
    tx.execute("UPDATE meta SET next = ?1", params![next])?;
    Ok(())
}

/// A new row of `record`.
pub fn insert_record<S: Alter>(
    tx: &mut Transaction<'_, S>,
    number: u32,
    kind: &str,
    batch: u32,
) -> Result<(), Error>
    ensures same_reference { tx.new.conn.ghost_name ≡ tx.old.conn.ghost_name }
    ensures ok { Writes (state S.Store tx.old.conn.now) (state S.Store tx.new.conn.now)
        result (with_record_row number kind.now batch) }
    ensures survives { LeavesAsBefore (state S.Store tx.old.conn.now) (state S.Store tx.new.conn.now) }
{
    tx.execute(
        "INSERT INTO record (no, kind, batch) VALUES (?1, ?2, ?3)",
        params![number, kind, batch],
    )?;
    Ok(())
}

/// Takes the row of a number out of `record`. Its lines go first.
pub fn delete_record<S: Alter>(tx: &mut Transaction<'_, S>, number: u32) -> Result<(), Error>
    ensures same_reference { tx.new.conn.ghost_name ≡ tx.old.conn.ghost_name }
    ensures ok { Writes (state S.Store tx.old.conn.now) (state S.Store tx.new.conn.now)
        result (without_record_row number) }
    ensures survives { LeavesAsBefore (state S.Store tx.old.conn.now) (state S.Store tx.new.conn.now) }
{
    tx.execute("DELETE FROM record WHERE no = ?1", params![number])?;
    Ok(())
}

/// The number that a line names, where it names one.
pub(crate) fn named(target: Option<u32>) -> Option<u32>
    ensures same { result ≡ target }
    ensures number { IfSome target IsU32 }
{
    match target {
        Some(number) => Some(number),
        None => None,
    }
}

/// Takes the lines of a number out.
pub fn delete_lines<S: Alter>(tx: &mut Transaction<'_, S>, number: u32) -> Result<(), Error>
    ensures same_reference { tx.new.conn.ghost_name ≡ tx.old.conn.ghost_name }
    ensures ok { Writes (state S.Store tx.old.conn.now) (state S.Store tx.new.conn.now) result (without_lines number) }
    ensures survives { LeavesAsBefore (state S.Store tx.old.conn.now) (state S.Store tx.new.conn.now) }
{
    tx.execute("DELETE FROM line WHERE no = ?1", params![number])?;
    Ok(())
}

/// What is kept under a token.
pub fn insert_receipt<S: Alter>(
    tx: &mut Transaction<'_, S>,
    token: &Token,
    receipt: &Receipt,
) -> Result<(), Error>
    ensures same_reference { tx.new.conn.ghost_name ≡ tx.old.conn.ghost_name }
    ensures ok { Writes (state S.Store tx.old.conn.now) (state S.Store tx.new.conn.now)
        result (with_receipt token.now receipt.now) }
    ensures survives { LeavesAsBefore (state S.Store tx.old.conn.now) (state S.Store tx.new.conn.now) }
{
    let (words, digest) = (token.as_str(), receipt.digest.as_slice());
    let (first, count) = (receipt.answer.first, receipt.answer.count);
    tx.execute(
        "INSERT INTO receipt (token, digest, first, count) VALUES (?1, ?2, ?3, ?4)",
        params![words, digest, first, count],
    )?;
    Ok(())
}

/// The row of a slip.
pub fn insert_slip<S: Alter>(
    tx: &mut Transaction<'_, S>,
    number: u32,
    keep: u32,
    gone: u32,
    is_undone: bool,
) -> Result<(), Error>
    ensures same_reference { tx.new.conn.ghost_name ≡ tx.old.conn.ghost_name }
    ensures ok { Writes (state S.Store tx.old.conn.now) (state S.Store tx.new.conn.now)
        result (with_slip_row number keep gone is_undone) }
    ensures survives { LeavesAsBefore (state S.Store tx.old.conn.now) (state S.Store tx.new.conn.now) }
{
    let undone = flag(is_undone);
    tx.execute(
        "INSERT INTO slip (no, keep, gone, undone) VALUES (?1, ?2, ?3, ?4)",
        params![number, keep, gone, undone],
    )?;
    Ok(())
}
