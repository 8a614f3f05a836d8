//! Rows that are there already, changed.

ghost use Rattle.std.specs.Prelude.{◌≡◌, ◌==◌, IfOk, length, filter};
ghost use Rattle.sqlite.specs.State.{HasCleanDisk};
ghost use Rattle.sqlite.specs.Held.{state};
ghost use Rattle.store_tables.specs.Calls.{Inside, LeavesAsBefore, Writes};
ghost use Rattle.store_tables.specs.Rows.{Rows, RecordRow, record_at, with_record_row, with_undone};

use crate::rows;
use sqlite::{Alter, Error, Transaction, params};

/// The row of a number in `record`: a row that is there is changed, since lines may name it, else one is made.
pub fn put_record<S: Alter>(
    tx: &mut Transaction<'_, S>,
    number: u32,
    kind: &str,
    batch: u32,
) -> Result<(), Error>
    ensures same_reference { tx.new.conn.ghost_name ≡ tx.old.conn.ghost_name }
    ensures ok { Writes (state S.Store tx.old.conn.now) (state S.Store tx.new.conn.now)
        result (with_record_row number kind.now batch) }
    ensures survives { LeavesAsBefore (state S.Store tx.old.conn.now) (state S.Store tx.new.conn.now) }
{
    let changed = update_record(tx, number, kind, batch)?;
    if changed == 0 {
        rows::insert_record(tx, number, kind, batch)?;
    }
    Ok(())
}

/// Changes the row of a number in `record`, and answers how many rows were changed: 1, or 0 where there is none.
fn update_record<S: Alter>(
    tx: &mut Transaction<'_, S>,
    number: u32,
    kind: &str,
    batch: u32,
) -> Result<usize, Error>
    ensures same_reference { tx.new.conn.ghost_name ≡ tx.old.conn.ghost_name }
    ensures ok { Writes (state S.Store tx.old.conn.now) (state S.Store tx.new.conn.now)
        result (record_at number kind.now batch) }
    ensures counts { HasCleanDisk (state S.Store tx.new.conn.now)
        → IfOk result (λ count. (rows : Rows) → Inside (state S.Store tx.old.conn.now) rows
        → count ≡ length (filter (λ (r : RecordRow). r.no == number) rows.records)) }
    ensures survives { LeavesAsBefore (state S.Store tx.old.conn.now) (state S.Store tx.new.conn.now) }
{
    let changed = tx.execute(
        "UPDATE record SET kind = ?2, batch = ?3 WHERE no = ?1",
        params![number, kind, batch],
    )?;
    Ok(changed)
}

/// The slip of a number is undone from now on.
pub fn undo_slip<S: Alter>(tx: &mut Transaction<'_, S>, number: u32) -> Result<(), Error>
    ensures same_reference { tx.new.conn.ghost_name ≡ tx.old.conn.ghost_name }
    ensures ok { Writes (state S.Store tx.old.conn.now) (state S.Store tx.new.conn.now) result (with_undone number) }
    ensures survives { LeavesAsBefore (state S.Store tx.old.conn.now) (state S.Store tx.new.conn.now) }
{
    tx.execute("UPDATE slip SET undone = 1 WHERE no = ?1", params![number])?;
    Ok(())
}
