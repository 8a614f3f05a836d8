//! Links: for each record and each number that it names, a row whose key is an integer that stands for the pair.

ghost use Rattle.std.specs.Prelude.{◌≡◌, false, true, IfOk, OnOk};
ghost use Rattle.std.specs.List.{list_any};
ghost use Rattle.sqlite.specs.State.{HasCleanDisk};
ghost use Rattle.sqlite.specs.Held.{state};
ghost use Rattle.store_tables.specs.Calls.{Inside, LeavesAsBefore, WritesDated};
ghost use Rattle.store_tables.specs.Keyed.{links_to};
ghost use Rattle.store_tables.specs.Looking.{Looks};
ghost use Rattle.store_tables.specs.Prepared.{link_query};
ghost use Rattle.store_tables.specs.Rows.{Rows, is_pair, with_link, without_link};
ghost use Rattle.store_tables.specs.Schema.{archive_schema};
ghost use Rattle.store_tables.specs.Showing.{ShowsEach, ShowsLink};

use crate::pairs::integer_of;
use crate::reading::read_later;
use crate::stored::LinkRow;
use record_text::RefusalKind;
use sqlite::{Alter, Connection, Error, Transaction, params};
use std::alloc::Global;

/// The query of all links, in the order of the numbers that are named, and then in that of the records.
pub(crate) const SELECT_LINKS: &str = "SELECT id FROM link ORDER BY id";

const LINKS_BETWEEN: &str = "SELECT id FROM link WHERE id >= ?1 AND id <= ?2 ORDER BY id";

/// A record names a number. `Err` where this is there already, too: it goes out first.
pub fn insert_link<S: Alter>(
    tx: &mut Transaction<'_, S>,
    target: u32,
    number: u32,
) -> Result<(), Error>
    ensures same_reference { tx.new.conn.ghost_name ≡ tx.old.conn.ghost_name }
    ensures ok { WritesDated (state S.Store tx.old.conn.now) (state S.Store tx.new.conn.now)
        result (with_link target number) }
    ensures fresh { HasCleanDisk (state S.Store tx.new.conn.now) → OnOk result ((rows : Rows)
        → rows.has_spans ≡ true → Inside (state S.Store tx.old.conn.now) rows
        → list_any (is_pair target number) rows.links ≡ false) }
    ensures survives { LeavesAsBefore (state S.Store tx.old.conn.now) (state S.Store tx.new.conn.now) }
{
    let integer = integer_of(target, number);
    tx.execute("INSERT INTO link (id) VALUES (?1)", params![integer])?;
    Ok(())
}

/// Takes out that a record names a number, where that is there.
pub fn delete_link<S: Alter>(
    tx: &mut Transaction<'_, S>,
    target: u32,
    number: u32,
) -> Result<(), Error>
    ensures same_reference { tx.new.conn.ghost_name ≡ tx.old.conn.ghost_name }
    ensures ok { WritesDated (state S.Store tx.old.conn.now) (state S.Store tx.new.conn.now)
        result (without_link target number) }
    ensures survives { LeavesAsBefore (state S.Store tx.old.conn.now) (state S.Store tx.new.conn.now) }
{
    let integer = integer_of(target, number);
    tx.execute("DELETE FROM link WHERE id = ?1", params![integer])?;
    Ok(())
}

/// All links, in the order of the numbers that are named, and then in that of the records. Errors as of `read_rows`.
pub fn read_links<S: Alter>(
    alloc: Global,
    conn: &mut Connection<S>,
) -> Result<Vec<LinkRow>, RefusalKind>
    requires autocommit { conn.old.in_transaction ≡ false }
    ensures looks { Looks (λ rows items. items.items ≡ rows.links) (state S.Store conn.old)
        (state S.Store conn.new) result }
    ensures shown { HasCleanDisk (state S.Store conn.new)
        → (state S.Store conn.old).now.schema ≡ archive_schema true
        → IfOk result (λ items. ShowsEach link_query ShowsLink (state S.Store conn.old)
        (state S.Store conn.new) items.items) }
    ensures ended { conn.new.in_transaction ≡ false }
{
    read_later(alloc, conn, SELECT_LINKS, &[])
}

/// The links to a number, in the order of the records that name it. Errors as of `read_rows`.
pub fn links_to<S: Alter>(
    alloc: Global,
    conn: &mut Connection<S>,
    target: u32,
) -> Result<Vec<LinkRow>, RefusalKind>
    requires autocommit { conn.old.in_transaction ≡ false }
    ensures looks { Looks (λ rows items. items.items ≡ links_to target rows) (state S.Store conn.old)
        (state S.Store conn.new) result }
    ensures ended { conn.new.in_transaction ≡ false }
{
    let first = integer_of(target, 0);
    let last = integer_of(target, u32::MAX);
    read_later(alloc, conn, LINKS_BETWEEN, params![first, last])
}
