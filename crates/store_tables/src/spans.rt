//! Spans: the days that the dates of records may mean, a row for each record with a date.

ghost use Rattle.std.specs.Prelude.{◌≡◌, false, true, IfOk};
ghost use Rattle.sqlite.specs.State.{HasCleanDisk};
ghost use Rattle.sqlite.specs.Held.{state};
ghost use Rattle.store_tables.specs.Calls.{LeavesAsBefore, WritesDated};
ghost use Rattle.store_tables.specs.Looking.{Looks};
ghost use Rattle.store_tables.specs.Prepared.{span_query};
ghost use Rattle.store_tables.specs.Rows.{with_span, with_version, without_span};
ghost use Rattle.store_tables.specs.Schema.{archive_schema};
ghost use Rattle.store_tables.specs.Showing.{ShowsEach, ShowsSpan};

use crate::reading::read_later;
use crate::stored::SpanRow;
use record_text::RefusalKind;
use sqlite::{Alter, Connection, Error, Transaction, params};
use std::alloc::Global;

/// The query of all spans, in the order of their numbers.
pub(crate) const SELECT_SPANS: &str = "SELECT no, lo, hi FROM span ORDER BY no";

/// The first and the last day of a number, in place of those that it had.
pub fn insert_span<S: Alter>(
    tx: &mut Transaction<'_, S>,
    number: u32,
    lo: Option<i32>,
    hi: Option<i32>,
) -> Result<(), Error>
    ensures same_reference { tx.new.conn.ghost_name ≡ tx.old.conn.ghost_name }
    ensures ok { WritesDated (state S.Store tx.old.conn.now) (state S.Store tx.new.conn.now)
        result (with_span number lo hi) }
    ensures survives { LeavesAsBefore (state S.Store tx.old.conn.now) (state S.Store tx.new.conn.now) }
{
    tx.execute(
        "INSERT INTO span (no, lo, hi) VALUES (?1, ?2, ?3)",
        params![number, lo, hi],
    )?;
    Ok(())
}

/// Takes the span of a number out, where it has one.
pub fn delete_span<S: Alter>(tx: &mut Transaction<'_, S>, number: u32) -> Result<(), Error>
    ensures same_reference { tx.new.conn.ghost_name ≡ tx.old.conn.ghost_name }
    ensures ok { WritesDated (state S.Store tx.old.conn.now) (state S.Store tx.new.conn.now)
        result (without_span number) }
    ensures survives { LeavesAsBefore (state S.Store tx.old.conn.now) (state S.Store tx.new.conn.now) }
{
    tx.execute("DELETE FROM span WHERE no = ?1", params![number])?;
    Ok(())
}

/// An archive with spans shows the version that this program writes.
pub fn set_version<S: Alter>(tx: &mut Transaction<'_, S>) -> Result<(), Error>
    ensures same_reference { tx.new.conn.ghost_name ≡ tx.old.conn.ghost_name }
    ensures ok { WritesDated (state S.Store tx.old.conn.now) (state S.Store tx.new.conn.now) result (with_version 2) }
    ensures survives { LeavesAsBefore (state S.Store tx.old.conn.now) (state S.Store tx.new.conn.now) }
{
    tx.execute("UPDATE meta SET version = 2", &[])?;
    Ok(())
}

/// The spans, in the order of their numbers. Errors as of `read_rows`.
pub fn read_spans<S: Alter>(
    alloc: Global,
    conn: &mut Connection<S>,
) -> Result<Vec<SpanRow>, RefusalKind>
    requires autocommit { conn.old.in_transaction ≡ false }
    ensures looks { Looks (λ rows items. rows.has_spans ≡ true → items.items ≡ rows.spans) (state S.Store conn.old)
        (state S.Store conn.new) result }
    ensures shown { HasCleanDisk (state S.Store conn.new)
        → (state S.Store conn.old).now.schema ≡ archive_schema true
        → IfOk result (λ items. ShowsEach span_query ShowsSpan (state S.Store conn.old)
        (state S.Store conn.new) items.items) }
    ensures ended { conn.new.in_transaction ≡ false }
{
    read_later(alloc, conn, SELECT_SPANS, &[])
}
