//! The rows of values of before: for each record that a request overwrites or removes, one.

ghost use Rattle.std.specs.Prelude.{◌≡◌};
ghost use Rattle.sqlite.specs.Held.{state};
ghost use Rattle.earlier_values.specs.Earlier as earlier;
ghost use Rattle.store_tables.specs.Calls.{LeavesAsBefore, WritesDated};
ghost use Rattle.store_tables.specs.Rows.{with_past};
ghost use Rattle.store_rows.specs.Pasts.{with_all_pasts, with_pasts_written};

use super::Unwritten;
use archive_state::{Kept, Numbered};
use earlier_values::past_text;
use receipts::Token;
use record_kinds::Record;
use sqlite::{Alter, Transaction};
use std::alloc::Global;
use store_tables::pasts::insert_past;

/// The values of before, under the token that the request is kept under; none where nothing is kept of it.
pub(crate) fn write_pasts<S: Alter>(
    alloc: Global,
    tx: &mut Transaction<'_, S>,
    kept: &Option<Kept>,
    pasts: &[Numbered],
) -> Result<(), Unwritten>
    ensures same_reference { tx.new.conn.ghost_name ≡ tx.old.conn.ghost_name }
    ensures ok { WritesDated (state S.Store tx.old.conn.now) (state S.Store tx.new.conn.now)
        result (with_pasts_written kept.now pasts.now) }
    ensures survives { LeavesAsBefore (state S.Store tx.old.conn.now) (state S.Store tx.new.conn.now) }
{
    match kept {
        Some(kept) => put_pasts(alloc, tx, &kept.token, pasts),
        None => Ok(()),
    }
}

/// A row for each of these records.
fn put_pasts<S: Alter>(
    alloc: Global,
    tx: &mut Transaction<'_, S>,
    token: &Token,
    pasts: &[Numbered],
) -> Result<(), Unwritten>
    ensures same_reference { tx.new.conn.ghost_name ≡ tx.old.conn.ghost_name }
    ensures ok { WritesDated (state S.Store tx.old.conn.now) (state S.Store tx.new.conn.now)
        result (with_all_pasts token.now pasts.now) }
    ensures survives { LeavesAsBefore (state S.Store tx.old.conn.now) (state S.Store tx.new.conn.now) }
{
    'pasts: for past in pasts {
        put_past(alloc, tx, token, past.number, &past.record)?;
    }
    Ok(())
}

/// The row of a record.
fn put_past<S: Alter>(
    alloc: Global,
    tx: &mut Transaction<'_, S>,
    token: &Token,
    number: u32,
    record: &Record,
) -> Result<(), Unwritten>
    ensures same_reference { tx.new.conn.ghost_name ≡ tx.old.conn.ghost_name }
    ensures ok { WritesDated (state S.Store tx.old.conn.now) (state S.Store tx.new.conn.now)
        result (with_past number token.now (earlier.past «record».now)) }
    ensures survives { LeavesAsBefore (state S.Store tx.old.conn.now) (state S.Store tx.new.conn.now) }
{
    let text = past_text(alloc, record)?;
    insert_past(tx, number, token, &text)?;
    Ok(())
}
