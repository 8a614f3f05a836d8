//! The rows of spans: of the records that are put, and of those that are removed.

ghost use Rattle.std.specs.Prelude.{◌≡◌, ◌∷◌, [], true, OnOk};
ghost use Rattle.sqlite.specs.State.{HasCleanDisk};
ghost use Rattle.sqlite.specs.Held.{state};
ghost use Rattle.store_tables.specs.Calls.{FollowsDated, Inside, LeavesAsBefore, WritesDated};
ghost use Rattle.store_tables.specs.Rows.{Rows};
ghost use Rattle.store_rows.specs.Spans.{AreDrawn, Drawn, with_drawn, with_span_if, without_all_spans};

use super::Unwritten;
use archive_state::Numbered;
use date_spans::span_of;
use gedcom_date::Span;
use sqlite::{Alter, Error, Transaction};
use std::alloc::Global;
use store_tables::spans;

/// The spans of the records that are put, each in place of the one that its number had.
pub(crate) fn put_spans<S: Alter>(
    alloc: Global,
    tx: &mut Transaction<'_, S>,
    puts: &[Numbered],
) -> Result<(), Unwritten>
    ensures same_reference { tx.new.conn.ghost_name ≡ tx.old.conn.ghost_name }
    ensures ok { HasCleanDisk (state S.Store tx.new.conn.now)
        → OnOk result ((drawn : Drawn) × AreDrawn puts.now drawn
        × FollowsDated (state S.Store tx.old.conn.now) (state S.Store tx.new.conn.now) (with_drawn drawn)) }
    ensures survives { LeavesAsBefore (state S.Store tx.old.conn.now) (state S.Store tx.new.conn.now) }
{
    'puts: for put in puts {
        put_span(alloc, tx, put)?;
    }
    Ok(())
}

/// The span of a record, in place of the one that its number had.
fn put_span<S: Alter>(
    alloc: Global,
    tx: &mut Transaction<'_, S>,
    put: &Numbered,
) -> Result<(), Unwritten>
    ensures same_reference { tx.new.conn.ghost_name ≡ tx.old.conn.ghost_name }
    ensures ok { HasCleanDisk (state S.Store tx.new.conn.now)
        → OnOk result ((drawn : Drawn) × AreDrawn (put.now ∷ []) drawn
        × FollowsDated (state S.Store tx.old.conn.now) (state S.Store tx.new.conn.now) (with_drawn drawn)) }
    ensures survives { LeavesAsBefore (state S.Store tx.old.conn.now) (state S.Store tx.new.conn.now) }
{
    let span = span_of(alloc, &put.record)?;
    spans::delete_span(tx, put.number)?;
    insert_if(tx, put.number, span)?;
    Ok(())
}

/// A span, where there is one.
fn insert_if<S: Alter>(
    tx: &mut Transaction<'_, S>,
    number: u32,
    span: Option<Span>,
) -> Result<(), Error>
    ensures same_reference { tx.new.conn.ghost_name ≡ tx.old.conn.ghost_name }
    ensures ok { WritesDated (state S.Store tx.old.conn.now) (state S.Store tx.new.conn.now)
        result (with_span_if number span) }
    ensures survives { LeavesAsBefore (state S.Store tx.old.conn.now) (state S.Store tx.new.conn.now) }
{
    match span {
        Some(span) => spans::insert_span(tx, number, span.lo, span.hi),
        None => Ok(()),
    }
}

/// Takes the spans of these numbers out. They go before the rows in `record`, which they are of.
pub(crate) fn remove_spans<S: Alter>(
    tx: &mut Transaction<'_, S>,
    numbers: &[u32],
) -> Result<(), Error>
    ensures same_reference { tx.new.conn.ghost_name ≡ tx.old.conn.ghost_name }
    ensures ok { WritesDated (state S.Store tx.old.conn.now) (state S.Store tx.new.conn.now)
        result (without_all_spans numbers.now) }
    ensures survives { LeavesAsBefore (state S.Store tx.old.conn.now) (state S.Store tx.new.conn.now) }
{
    'numbers: for number in numbers {
        spans::delete_span(tx, *number)?;
    }
    Ok(())
}
