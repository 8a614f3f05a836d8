//! The rows of records: of those that are put, and of those that are removed.

ghost use Rattle.std.specs.Prelude.{◌≡◌, OnOk};
ghost use Rattle.sqlite.specs.Held.{state};
ghost use Rattle.store_tables.specs.Calls.{LeavesAsBefore, Writes};
ghost use Rattle.store_tables.specs.Rows.{with_changed_lines};
ghost use Rattle.record_shapes.specs.Lists.{EachOf};
ghost use Rattle.records.specs.Shallow.{IsShallow};
ghost use Rattle.records.specs.Stored.{stored};
ghost use Rattle.store_rows.specs.Shallow.{IsShallowPut};
ghost use Rattle.store_rows.specs.Writing.{
  kind_word,
  with_record_rows,
  with_all_lines,
  with_puts_written,
  without_all_lines,
  without_record_rows,
  without_records,
};

use super::Unwritten;
use archive_state::Numbered;
use record_kinds::Record;
use records::lines_of;
use sqlite::{Alter, Error, Transaction};
use std::alloc::Global;
use store_tables::lines::change_lines;
use store_tables::records::put_record;
use store_tables::rows;

/// The number of the batch that all commands but imports write in.
const COMMANDS: u32 = 0;

/// Writes the records that are put, and takes out those of the removed numbers.
pub(crate) fn write_records<S: Alter>(
    alloc: Global,
    tx: &mut Transaction<'_, S>,
    puts: &[Numbered],
    removals: &[u32],
) -> Result<(), Unwritten>
    ensures same_reference { tx.new.conn.ghost_name ≡ tx.old.conn.ghost_name }
    ensures ok { Writes (state S.Store tx.old.conn.now) (state S.Store tx.new.conn.now)
        result (λ rows. without_records removals.now (with_puts_written puts.now rows)) }
    ensures survives { LeavesAsBefore (state S.Store tx.old.conn.now) (state S.Store tx.new.conn.now) }
    ensures shallow { OnOk result (EachOf IsShallowPut puts.now) }
{
    put_rows(tx, puts)?;
    put_lines(alloc, tx, puts)?;
    remove_lines(tx, removals)?;
    remove_rows(tx, removals)?;
    Ok(())
}

/// A row in `record` for each number. All of them come before any line, since a line may name each.
fn put_rows<S: Alter>(tx: &mut Transaction<'_, S>, puts: &[Numbered]) -> Result<(), Error>
    ensures same_reference { tx.new.conn.ghost_name ≡ tx.old.conn.ghost_name }
    ensures ok { Writes (state S.Store tx.old.conn.now) (state S.Store tx.new.conn.now)
        result (with_record_rows puts.now) }
    ensures survives { LeavesAsBefore (state S.Store tx.old.conn.now) (state S.Store tx.new.conn.now) }
{
    'puts: for put in puts {
        put_record(tx, put.number, kind_word(&put.record), COMMANDS)?;
    }
    Ok(())
}

/// The word of a record's kind.
pub fn kind_word(record: &Record) -> &'static str
    ensures { result.now ≡ kind_word «record».now }
{
    match record {
        Record::Place(_) => "place",
        Record::Repo(_) => "repo",
        Record::Source(_) => "source",
        Record::Person(_) => "person",
        Record::Family(_) => "family",
        Record::Citation(_) => "citation",
        Record::Event(_) => "event",
        Record::Entry(_) => "entry",
        Record::Other(_) => "other",
    }
}

/// The lines of each record, in place of those that its number had.
fn put_lines<S: Alter>(
    alloc: Global,
    tx: &mut Transaction<'_, S>,
    puts: &[Numbered],
) -> Result<(), Unwritten>
    ensures same_reference { tx.new.conn.ghost_name ≡ tx.old.conn.ghost_name }
    ensures ok { Writes (state S.Store tx.old.conn.now) (state S.Store tx.new.conn.now)
        result (with_all_lines puts.now) }
    ensures survives { LeavesAsBefore (state S.Store tx.old.conn.now) (state S.Store tx.new.conn.now) }
    ensures shallow { OnOk result (EachOf IsShallowPut puts.now) }
{
    'puts: for put in puts {
        put_lines_of(alloc, tx, put.number, &put.record)?;
    }
    Ok(())
}

/// The lines of a record, in place of those that its number had.
fn put_lines_of<S: Alter>(
    alloc: Global,
    tx: &mut Transaction<'_, S>,
    number: u32,
    record: &Record,
) -> Result<(), Unwritten>
    ensures same_reference { tx.new.conn.ghost_name ≡ tx.old.conn.ghost_name }
    ensures ok { Writes (state S.Store tx.old.conn.now) (state S.Store tx.new.conn.now)
        result (with_changed_lines number (stored «record».now)) }
    ensures survives { LeavesAsBefore (state S.Store tx.old.conn.now) (state S.Store tx.new.conn.now) }
    ensures shallow { OnOk result (IsShallow «record».now) }
{
    let lines = lines_of(alloc, record)?;
    change_lines(alloc, tx, number, &lines)?;
    Ok(())
}

/// Takes the lines of these numbers out. All of them go before any row in `record`, since a line may name each.
pub fn remove_lines<S: Alter>(tx: &mut Transaction<'_, S>, numbers: &[u32]) -> Result<(), Error>
    ensures same_reference { tx.new.conn.ghost_name ≡ tx.old.conn.ghost_name }
    ensures ok { Writes (state S.Store tx.old.conn.now) (state S.Store tx.new.conn.now)
        result (without_all_lines numbers.now) }
    ensures survives { LeavesAsBefore (state S.Store tx.old.conn.now) (state S.Store tx.new.conn.now) }
{
    'numbers: for number in numbers {
        rows::delete_lines(tx, *number)?;
    }
    Ok(())
}

/// Takes the rows of these numbers out of `record`.
pub fn remove_rows<S: Alter>(tx: &mut Transaction<'_, S>, numbers: &[u32]) -> Result<(), Error>
    ensures same_reference { tx.new.conn.ghost_name ≡ tx.old.conn.ghost_name }
    ensures ok { Writes (state S.Store tx.old.conn.now) (state S.Store tx.new.conn.now)
        result (without_record_rows numbers.now) }
    ensures survives { LeavesAsBefore (state S.Store tx.old.conn.now) (state S.Store tx.new.conn.now) }
{
    'numbers: for number in numbers {
        rows::delete_record(tx, *number)?;
    }
    Ok(())
}
