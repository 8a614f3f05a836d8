//! The rows of what is looked for: of the records that are put, and of those that are removed.

ghost use Rattle.std.specs.Prelude.{◌≡◌, Some};
ghost use Rattle.sqlite.specs.Held.{state};
ghost use Rattle.store_tables.specs.Calls.{LeavesAsBefore, WritesDated};
ghost use Rattle.record_kinds.specs.declared.record.Record.TheVariants as kind;
ghost use Rattle.store_rows.specs.Sought.{
  sought_of,
  with_all_sought,
  with_sought_anew,
  with_sought_if,
  without_all_sought,
};

use super::Unwritten;
use archive_state::Numbered;
use record_kinds::{Entry, Record};
use records::entry_key;
use sqlite::{Alter, Error, Transaction};
use std::alloc::Global;
use store_tables::soughts;

/// What the records that are put are looked for by, each in place of what its number was looked for by.
pub(crate) fn put_sought<S: Alter>(
    alloc: Global,
    tx: &mut Transaction<'_, S>,
    puts: &[Numbered],
) -> Result<(), Unwritten>
    ensures same_reference { tx.new.conn.ghost_name ≡ tx.old.conn.ghost_name }
    ensures ok { WritesDated (state S.Store tx.old.conn.now) (state S.Store tx.new.conn.now)
        result (with_all_sought puts.now) }
    ensures survives { LeavesAsBefore (state S.Store tx.old.conn.now) (state S.Store tx.new.conn.now) }
{
    'puts: for put in puts {
        put_sought_of(alloc, tx, put.number, &put.record)?;
    }
    Ok(())
}

/// What a record is looked for by, in place of what its number was looked for by.
fn put_sought_of<S: Alter>(
    alloc: Global,
    tx: &mut Transaction<'_, S>,
    number: u32,
    record: &Record,
) -> Result<(), Unwritten>
    ensures same_reference { tx.new.conn.ghost_name ≡ tx.old.conn.ghost_name }
    ensures ok { WritesDated (state S.Store tx.old.conn.now) (state S.Store tx.new.conn.now)
        result (with_sought_anew number (sought_of «record».now)) }
    ensures survives { LeavesAsBefore (state S.Store tx.old.conn.now) (state S.Store tx.new.conn.now) }
{
    soughts::delete_sought(tx, number)?;
    insert_if(alloc, tx, number, record)
}

/// What a record is looked for by, where it is looked for.
fn insert_if<S: Alter>(
    alloc: Global,
    tx: &mut Transaction<'_, S>,
    number: u32,
    record: &Record,
) -> Result<(), Unwritten>
    ensures same_reference { tx.new.conn.ghost_name ≡ tx.old.conn.ghost_name }
    ensures ok { WritesDated (state S.Store tx.old.conn.now) (state S.Store tx.new.conn.now)
        result (with_sought_if number (sought_of «record».now)) }
    ensures survives { LeavesAsBefore (state S.Store tx.old.conn.now) (state S.Store tx.new.conn.now) }
{
    match record {
        Record::Place(place) => Ok(soughts::insert_sought(tx, number, &place.name, None)?),
        Record::Entry(entry) => insert_entry(alloc, tx, number, entry),
        _ => Ok(()),
    }
}

/// The key of an entry, and its source.
fn insert_entry<S: Alter>(
    alloc: Global,
    tx: &mut Transaction<'_, S>,
    number: u32,
    entry: &Entry,
) -> Result<(), Unwritten>
    ensures same_reference { tx.new.conn.ghost_name ≡ tx.old.conn.ghost_name }
    ensures ok { WritesDated (state S.Store tx.old.conn.now) (state S.Store tx.new.conn.now)
        result (with_sought_if number (sought_of (kind.Entry entry.now))) }
    ensures survives { LeavesAsBefore (state S.Store tx.old.conn.now) (state S.Store tx.new.conn.now) }
{
    let words = entry_key(alloc, entry.item, &entry.page)?;
    soughts::insert_sought(tx, number, &words, Some(entry.source))?;
    Ok(())
}

/// Takes out what these numbers are looked for by. That goes before the rows in `record`, which it is of.
pub(crate) fn remove_sought<S: Alter>(
    tx: &mut Transaction<'_, S>,
    numbers: &[u32],
) -> Result<(), Error>
    ensures same_reference { tx.new.conn.ghost_name ≡ tx.old.conn.ghost_name }
    ensures ok { WritesDated (state S.Store tx.old.conn.now) (state S.Store tx.new.conn.now)
        result (without_all_sought numbers.now) }
    ensures survives { LeavesAsBefore (state S.Store tx.old.conn.now) (state S.Store tx.new.conn.now) }
{
    'numbers: for number in numbers {
        soughts::delete_sought(tx, *number)?;
    }
    Ok(())
}
