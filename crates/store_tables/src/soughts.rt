//! What records are looked for by: a row for each record that has such a text.

ghost use Rattle.std.specs.Prelude.{◌≡◌, false, true, IfOk};
ghost use Rattle.sqlite.specs.State.{HasCleanDisk};
ghost use Rattle.sqlite.specs.Held.{state};
ghost use Rattle.store_tables.specs.Calls.{LeavesAsBefore, WritesDated};
ghost use Rattle.store_tables.specs.Keyed.{sought_by, sought_by_of};
ghost use Rattle.store_tables.specs.Looking.{Looks};
ghost use Rattle.store_tables.specs.Prepared.{sought_query};
ghost use Rattle.store_tables.specs.Rows.{with_sought, without_sought};
ghost use Rattle.store_tables.specs.Schema.{archive_schema};
ghost use Rattle.store_tables.specs.Showing.{ShowsEach, ShowsSought};

use crate::reading::read_later;
use crate::stored::SoughtRow;
use record_text::{RefusalKind, Text};
use sqlite::{Alter, Connection, Error, Transaction, params};
use std::alloc::Global;

/// The query of all that is looked for, in the order of the numbers.
pub(crate) const SELECT_SOUGHTS: &str = "SELECT no, text, dst FROM sought ORDER BY no";

const SOUGHT_BY: &str = "SELECT no FROM sought WHERE text = ?1 ORDER BY no";

const SOUGHT_BY_OF: &str = "SELECT no FROM sought WHERE text = ?1 AND dst = ?2 ORDER BY no";

/// What a number is looked for by, where there is nothing yet that it is looked for by.
pub fn insert_sought<S: Alter>(
    tx: &mut Transaction<'_, S>,
    number: u32,
    text: &Text,
    target: Option<u32>,
) -> Result<(), Error>
    ensures same_reference { tx.new.conn.ghost_name ≡ tx.old.conn.ghost_name }
    ensures ok { WritesDated (state S.Store tx.old.conn.now) (state S.Store tx.new.conn.now)
        result (with_sought number text.now target) }
    ensures survives { LeavesAsBefore (state S.Store tx.old.conn.now) (state S.Store tx.new.conn.now) }
{
    tx.execute(
        "INSERT INTO sought (no, text, dst) VALUES (?1, ?2, ?3)",
        params![number, text.as_str(), target],
    )?;
    Ok(())
}

/// Takes out what a number is looked for by, where there is such a row.
pub fn delete_sought<S: Alter>(tx: &mut Transaction<'_, S>, number: u32) -> Result<(), Error>
    ensures same_reference { tx.new.conn.ghost_name ≡ tx.old.conn.ghost_name }
    ensures ok { WritesDated (state S.Store tx.old.conn.now) (state S.Store tx.new.conn.now)
        result (without_sought number) }
    ensures survives { LeavesAsBefore (state S.Store tx.old.conn.now) (state S.Store tx.new.conn.now) }
{
    tx.execute("DELETE FROM sought WHERE no = ?1", params![number])?;
    Ok(())
}

/// What all numbers are looked for by, in the order of the numbers. Errors as of `read_rows`.
pub fn read_soughts<S: Alter>(
    alloc: Global,
    conn: &mut Connection<S>,
) -> Result<Vec<SoughtRow>, RefusalKind>
    requires autocommit { conn.old.in_transaction ≡ false }
    ensures looks { Looks (λ rows items. items.items ≡ rows.soughts) (state S.Store conn.old)
        (state S.Store conn.new) result }
    ensures shown { HasCleanDisk (state S.Store conn.new)
        → (state S.Store conn.old).now.schema ≡ archive_schema true
        → IfOk result (λ items. ShowsEach sought_query ShowsSought (state S.Store conn.old)
        (state S.Store conn.new) items.items) }
    ensures ended { conn.new.in_transaction ≡ false }
{
    read_later(alloc, conn, SELECT_SOUGHTS, &[])
}

/// The numbers that are looked for by a text, in order. Errors as of `read_rows`.
pub fn sought_by<S: Alter>(
    alloc: Global,
    conn: &mut Connection<S>,
    text: &str,
) -> Result<Vec<u32>, RefusalKind>
    requires autocommit { conn.old.in_transaction ≡ false }
    ensures looks { Looks (λ rows items. items.items ≡ sought_by text.now rows) (state S.Store conn.old)
        (state S.Store conn.new) result }
    ensures ended { conn.new.in_transaction ≡ false }
{
    read_later(alloc, conn, SOUGHT_BY, params![text])
}

/// The numbers that are looked for by a text and another number, in order. Errors as of `read_rows`.
pub fn sought_by_of<S: Alter>(
    alloc: Global,
    conn: &mut Connection<S>,
    text: &str,
    target: u32,
) -> Result<Vec<u32>, RefusalKind>
    requires autocommit { conn.old.in_transaction ≡ false }
    ensures looks { Looks (λ rows items. items.items ≡ sought_by_of text.now target rows) (state S.Store conn.old)
        (state S.Store conn.new) result }
    ensures ended { conn.new.in_transaction ≡ false }
{
    read_later(alloc, conn, SOUGHT_BY_OF, params![text, target])
}
