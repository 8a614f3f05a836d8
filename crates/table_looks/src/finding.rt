//! The numbers between two days.

ghost use Rattle.std.specs.Prelude.{◌≡◌, ◌↔◌, ◌++◌, ◌∷◌, [], IsTrue, OnOk, false};
ghost use Rattle.sqlite.specs.Held.{state};
ghost use Rattle.date_spans.specs.Between.{AreAll, IsBetween};
ghost use Rattle.date_spans.specs.Meeting.{Meets};
ghost use Rattle.store_tables.specs.Looking.{Looks};
ghost use Rattle.table_looks.specs.Dated.{SeesDated};
ghost use Rattle.table_looks.specs.Picking.{IsFoundRow, days_of};

use date_spans::meets;
use gedcom_date::Span;
use record_text::RefusalKind;
use sqlite::{Alter, Connection};
use std::alloc::{AllocError, Global};
use store_rows::looking::has_record;
use store_tables::SpanRow;
use store_tables::spans::read_spans;

/// The numbers of the events and register entries whose date has a span that meets the days from the first to the
/// last, ascending, in an archive of the second version. Days are counted from 1970-01-01, day 0; any two are taken.
/// All spans are read, and of each that meets the days whether its number has a record. No transaction may be open.
///
/// 40: the spans cannot be read, as where somebody else wrote them. 80: the database failed. 1: memory was refused.
pub fn between_days<S: Alter>(
    alloc: Global,
    conn: &mut Connection<S>,
    first: i32,
    last: i32,
) -> Result<Vec<u32>, RefusalKind>
    requires autocommit { conn.old.in_transaction ≡ false }
    ensures sees { SeesDated (λ c found. AreAll (IsBetween c.records first last) found.items)
        (state S.Store conn.old) (state S.Store conn.new) result }
    ensures ended { conn.new.in_transaction ≡ false }
{
    let spans = read_spans(alloc, conn)?;
    let mut found = Vec::new(alloc);
    'rows: for row in spans {
        if is_found(alloc, conn, &row, first, last)? {
            push(&mut found, row.number)?;
        }
    }
    Ok(found)
}

/// Whether the days of a row meet those from the first to the last, and its number has a record.
fn is_found<S: Alter>(
    alloc: Global,
    conn: &mut Connection<S>,
    row: &SpanRow,
    first: i32,
    last: i32,
) -> Result<bool, RefusalKind>
    requires autocommit { conn.old.in_transaction ≡ false }
    ensures looks { Looks (λ rows is. IsTrue is ↔ IsFoundRow rows first last row.now) (state S.Store conn.old)
        (state S.Store conn.new) result }
    ensures ended { conn.new.in_transaction ≡ false }
{
    if !meet(row, first, last) {
        return Ok(false);
    }
    has_record(alloc, conn, row.number)
}

/// Whether the days of a row meet those from the first to the last.
fn meet(row: &SpanRow, first: i32, last: i32) -> bool
    ensures { IsTrue result ↔ Meets (days_of row.now) first last }
{
    let days = Span {
        lo: row.lo,
        hi: row.hi,
    };
    meets(days, first, last)
}

/// Adds a number at the end.
fn push(numbers: &mut Vec<u32>, number: u32) -> Result<(), AllocError>
    ensures { OnOk result (numbers.new.items ≡ numbers.old.items ++ number ∷ []) }
{
    numbers.push(number)?;
    Ok(())
}
