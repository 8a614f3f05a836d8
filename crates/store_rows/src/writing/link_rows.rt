//! The rows of links: for each number that a record names, one.

ghost use Rattle.std.specs.Prelude.{◌≡◌};
ghost use Rattle.sqlite.specs.Held.{state};
ghost use Rattle.records.specs.Stored.{stored};
ghost use Rattle.store_tables.specs.Calls.{LeavesAsBefore, WritesDated};
ghost use Rattle.store_rows.specs.Links.{
  with_all_links,
  with_link_anew,
  with_link_if,
  with_links,
  without_all_links,
};

use super::Unwritten;
use archive_state::Numbered;
use record_kinds::Record;
use records::lines_of;
use sqlite::{Alter, Error, Transaction};
use std::alloc::Global;
use store_tables::{LinkRow, links};
use stored_lines::StoredLine;

/// The links of the records that are put. Those that their numbers had before stay: a row too many does no harm.
pub(crate) fn put_links<S: Alter>(
    alloc: Global,
    tx: &mut Transaction<'_, S>,
    puts: &[Numbered],
) -> Result<(), Unwritten>
    ensures same_reference { tx.new.conn.ghost_name ≡ tx.old.conn.ghost_name }
    ensures ok { WritesDated (state S.Store tx.old.conn.now) (state S.Store tx.new.conn.now)
        result (with_all_links puts.now) }
    ensures survives { LeavesAsBefore (state S.Store tx.old.conn.now) (state S.Store tx.new.conn.now) }
{
    'puts: for put in puts {
        put_links_of(alloc, tx, put.number, &put.record)?;
    }
    Ok(())
}

/// The links of a record.
fn put_links_of<S: Alter>(
    alloc: Global,
    tx: &mut Transaction<'_, S>,
    number: u32,
    record: &Record,
) -> Result<(), Unwritten>
    ensures same_reference { tx.new.conn.ghost_name ≡ tx.old.conn.ghost_name }
    ensures ok { WritesDated (state S.Store tx.old.conn.now) (state S.Store tx.new.conn.now)
        result (with_links number (stored «record».now)) }
    ensures survives { LeavesAsBefore (state S.Store tx.old.conn.now) (state S.Store tx.new.conn.now) }
{
    let lines = lines_of(alloc, record)?;
    link_lines(tx, number, &lines)?;
    Ok(())
}

/// A link for each line of a number that names another one.
pub fn link_lines<S: Alter>(
    tx: &mut Transaction<'_, S>,
    number: u32,
    lines: &[StoredLine],
) -> Result<(), Error>
    ensures same_reference { tx.new.conn.ghost_name ≡ tx.old.conn.ghost_name }
    ensures ok { WritesDated (state S.Store tx.old.conn.now) (state S.Store tx.new.conn.now)
        result (with_links number lines.now) }
    ensures survives { LeavesAsBefore (state S.Store tx.old.conn.now) (state S.Store tx.new.conn.now) }
{
    'lines: for line in lines {
        link_if(tx, number, line.target)?;
    }
    Ok(())
}

/// A link, where a number is named.
fn link_if<S: Alter>(
    tx: &mut Transaction<'_, S>,
    number: u32,
    target: Option<u32>,
) -> Result<(), Error>
    ensures same_reference { tx.new.conn.ghost_name ≡ tx.old.conn.ghost_name }
    ensures ok { WritesDated (state S.Store tx.old.conn.now) (state S.Store tx.new.conn.now)
        result (with_link_if number target) }
    ensures survives { LeavesAsBefore (state S.Store tx.old.conn.now) (state S.Store tx.new.conn.now) }
{
    match target {
        Some(target) => link_anew(tx, target, number),
        None => Ok(()),
    }
}

/// A link that may be there already.
fn link_anew<S: Alter>(tx: &mut Transaction<'_, S>, target: u32, number: u32) -> Result<(), Error>
    ensures same_reference { tx.new.conn.ghost_name ≡ tx.old.conn.ghost_name }
    ensures ok { WritesDated (state S.Store tx.old.conn.now) (state S.Store tx.new.conn.now)
        result (with_link_anew target number) }
    ensures survives { LeavesAsBefore (state S.Store tx.old.conn.now) (state S.Store tx.new.conn.now) }
{
    links::delete_link(tx, target, number)?;
    links::insert_link(tx, target, number)
}

/// Takes these links out, where they are there.
pub fn remove_links<S: Alter>(tx: &mut Transaction<'_, S>, links: &[LinkRow]) -> Result<(), Error>
    ensures same_reference { tx.new.conn.ghost_name ≡ tx.old.conn.ghost_name }
    ensures ok { WritesDated (state S.Store tx.old.conn.now) (state S.Store tx.new.conn.now)
        result (without_all_links links.now) }
    ensures survives { LeavesAsBefore (state S.Store tx.old.conn.now) (state S.Store tx.new.conn.now) }
{
    'links: for link in links {
        links::delete_link(tx, link.target, link.number)?;
    }
    Ok(())
}
