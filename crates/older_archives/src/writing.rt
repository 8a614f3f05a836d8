//! What is read anew, written as rows inside a transaction.

ghost use Rattle.std.specs.Prelude.{◌≡◌};
ghost use Rattle.sqlite.specs.Held.{state};
ghost use Rattle.store_tables.specs.Calls.{LeavesAsBefore, WritesDated, WritesUndated};
ghost use Rattle.store_rows.specs.Sought.{with_sought_if};
ghost use Rattle.store_rows.specs.Spans.{with_span_if};
ghost use Rattle.older_archives.specs.Renewing.{
  with_later_anew,
  with_record_anew,
  with_records_anew,
  with_renewal,
  with_slip_anew,
  with_slips_anew,
};

use crate::anew::{Anew, RecordAnew, Renewal, SlipAnew};
use gedcom_date::Span;
use sqlite::{Alter, Error, Transaction};
use std::alloc::Global;
use store_rows::{SoughtText, link_lines};
use store_tables::lines::change_lines;
use store_tables::sides::write_sides;
use store_tables::{create_later_tables, soughts, spans};

/// Writes what is read anew in tables of the first version: the tables that the second one has and its number, the
/// lines of each record, the spans, what is looked for, the links, and the sides of each slip. After an error the
/// transaction is to be given up.
pub fn write_renewal<S: Alter>(
    alloc: Global,
    tx: &mut Transaction<'_, S>,
    renewal: &Renewal,
) -> Result<(), Error>
    ensures same_reference { tx.new.conn.ghost_name ≡ tx.old.conn.ghost_name }
    ensures ok { WritesUndated (state S.Store tx.old.conn.now) (state S.Store tx.new.conn.now)
        result (with_renewal renewal.now) }
    ensures survives { LeavesAsBefore (state S.Store tx.old.conn.now) (state S.Store tx.new.conn.now) }
{
    create_later_tables(tx)?;
    spans::set_version(tx)?;
    write_records(alloc, tx, &renewal.records)?;
    write_slips(alloc, tx, &renewal.slips)
}

/// The lines of the records, and all spans, all that is looked for and all links.
fn write_records<S: Alter>(
    alloc: Global,
    tx: &mut Transaction<'_, S>,
    records: &[RecordAnew],
) -> Result<(), Error>
    ensures same_reference { tx.new.conn.ghost_name ≡ tx.old.conn.ghost_name }
    ensures ok { WritesDated (state S.Store tx.old.conn.now) (state S.Store tx.new.conn.now)
        result (with_records_anew records.now) }
    ensures survives { LeavesAsBefore (state S.Store tx.old.conn.now) (state S.Store tx.new.conn.now) }
{
    'records: for record in records {
        write_record(alloc, tx, record)?;
    }
    Ok(())
}

/// The lines of a record, its span, what it is looked for by, and its links.
fn write_record<S: Alter>(
    alloc: Global,
    tx: &mut Transaction<'_, S>,
    record: &RecordAnew,
) -> Result<(), Error>
    ensures same_reference { tx.new.conn.ghost_name ≡ tx.old.conn.ghost_name }
    ensures ok { WritesDated (state S.Store tx.old.conn.now) (state S.Store tx.new.conn.now)
        result (with_record_anew «record».now) }
    ensures survives { LeavesAsBefore (state S.Store tx.old.conn.now) (state S.Store tx.new.conn.now) }
{
    write_anew(alloc, tx, record.number, &record.anew)
}

/// The same of a number.
fn write_anew<S: Alter>(
    alloc: Global,
    tx: &mut Transaction<'_, S>,
    number: u32,
    anew: &Anew,
) -> Result<(), Error>
    ensures same_reference { tx.new.conn.ghost_name ≡ tx.old.conn.ghost_name }
    ensures ok { WritesDated (state S.Store tx.old.conn.now) (state S.Store tx.new.conn.now)
        result (with_record_anew (record { number = number; anew = anew.now })) }
    ensures survives { LeavesAsBefore (state S.Store tx.old.conn.now) (state S.Store tx.new.conn.now) }
{
    change_lines(alloc, tx, number, &anew.lines)?;
    write_later(tx, number, anew)
}

/// The span of a record, what it is looked for by, and its links.
fn write_later<S: Alter>(tx: &mut Transaction<'_, S>, number: u32, anew: &Anew) -> Result<(), Error>
    ensures same_reference { tx.new.conn.ghost_name ≡ tx.old.conn.ghost_name }
    ensures ok { WritesDated (state S.Store tx.old.conn.now) (state S.Store tx.new.conn.now)
        result (with_later_anew number anew.now) }
    ensures survives { LeavesAsBefore (state S.Store tx.old.conn.now) (state S.Store tx.new.conn.now) }
{
    write_span(tx, number, anew.span)?;
    write_sought(tx, number, &anew.sought)?;
    link_lines(tx, number, &anew.lines)
}

/// The span of a record, where it has one.
fn write_span<S: Alter>(
    tx: &mut Transaction<'_, S>,
    number: u32,
    span: Option<Span>,
) -> Result<(), Error>
    ensures same_reference { tx.new.conn.ghost_name ≡ tx.old.conn.ghost_name }
    ensures ok { WritesDated (state S.Store tx.old.conn.now) (state S.Store tx.new.conn.now)
        result (with_span_if number span) }
    ensures survives { LeavesAsBefore (state S.Store tx.old.conn.now) (state S.Store tx.new.conn.now) }
{
    match span {
        Some(span) => spans::insert_span(tx, number, span.lo, span.hi),
        None => Ok(()),
    }
}

/// What a record is looked for by, where it is looked for.
fn write_sought<S: Alter>(
    tx: &mut Transaction<'_, S>,
    number: u32,
    sought: &Option<SoughtText>,
) -> Result<(), Error>
    ensures same_reference { tx.new.conn.ghost_name ≡ tx.old.conn.ghost_name }
    ensures ok { WritesDated (state S.Store tx.old.conn.now) (state S.Store tx.new.conn.now)
        result (with_sought_if number sought.now) }
    ensures survives { LeavesAsBefore (state S.Store tx.old.conn.now) (state S.Store tx.new.conn.now) }
{
    match sought {
        Some(sought) => soughts::insert_sought(tx, number, &sought.text, sought.target),
        None => Ok(()),
    }
}

/// The sides of the slips.
fn write_slips<S: Alter>(
    alloc: Global,
    tx: &mut Transaction<'_, S>,
    slips: &[SlipAnew],
) -> Result<(), Error>
    ensures same_reference { tx.new.conn.ghost_name ≡ tx.old.conn.ghost_name }
    ensures ok { WritesDated (state S.Store tx.old.conn.now) (state S.Store tx.new.conn.now)
        result (with_slips_anew slips.now) }
    ensures survives { LeavesAsBefore (state S.Store tx.old.conn.now) (state S.Store tx.new.conn.now) }
{
    'slips: for slip in slips {
        write_slip(alloc, tx, slip)?;
    }
    Ok(())
}

/// The sides of a slip, in place of the lines that it had.
fn write_slip<S: Alter>(
    alloc: Global,
    tx: &mut Transaction<'_, S>,
    slip: &SlipAnew,
) -> Result<(), Error>
    ensures same_reference { tx.new.conn.ghost_name ≡ tx.old.conn.ghost_name }
    ensures ok { WritesDated (state S.Store tx.old.conn.now) (state S.Store tx.new.conn.now)
        result (with_slip_anew slip.now) }
    ensures survives { LeavesAsBefore (state S.Store tx.old.conn.now) (state S.Store tx.new.conn.now) }
{
    write_sides(alloc, tx, slip.number, &slip.sides)
}
