//! A new archive.

ghost use Rattle.std.specs.Prelude.{◌≡◌, ◌⊎◌, ℕ, false, OnOk};
ghost use Rattle.sqlite.specs.State.{HasCleanDisk};
ghost use Rattle.sqlite.specs.Held.{state};
ghost use Rattle.sqlite.specs.Schema.{Schema};
ghost use Rattle.sqlite.specs.Table.{Table};
ghost use Rattle.sqlite.specs.Tree.{Trees};
ghost use Rattle.sqlite_schema.specs.declared.schema.Index.{Index};
ghost use Rattle.sqlite_catalog.specs.Change.{created, indexed};
ghost use Rattle.store_tables.specs.Schema.{archive_schema, no_schema, schema_4, schema_7};
ghost use Rattle.store_tables.specs.Rows.{bare_first, nothing_yet, with_later_tables};
ghost use Rattle.store_tables.specs.Creating.{IsCreate, IsCreateIndex};
ghost use Rattle.store_tables.specs.Calls.{
  Builds,
  Built,
  Good,
  Inside,
  IsBlank,
  LeavesAsBefore,
  Settled,
  SettledBlank,
  WritesUndated,
};

use crate::{rows, spans};
use record_text::Text;
use sqlite::{Alter, Connection, Error, Transaction, params};

/// Both schemas have a table of this text.
const CREATE_SLIP_LINE: &str =
    "CREATE TABLE slip_line (id INTEGER PRIMARY KEY, slip INTEGER NOT NULL REFERENCES slip (no) ON DELETE RESTRICT, side INTEGER NOT NULL, no INTEGER NOT NULL, pos INTEGER NOT NULL, depth INTEGER NOT NULL, tag TEXT NOT NULL, text TEXT, dst INTEGER) STRICT";

/// A table, by the text of its CREATE.
fn create_table<S: Alter>(tx: &mut Transaction<'_, S>, text: &str) -> Result<(), Error>
    ensures same_reference { tx.new.conn.ghost_name ≡ tx.old.conn.ghost_name }
    ensures ok { HasCleanDisk (state S.Store tx.new.conn.now)
        → OnOk result ((schema : Schema) (table : Table) → IsCreate schema text.now table
        → Builds (state S.Store tx.old.conn.now) (state S.Store tx.new.conn.now) schema (created schema table)) }
    ensures survives { LeavesAsBefore (state S.Store tx.old.conn.now) (state S.Store tx.new.conn.now) }
{
    tx.execute(text, &[])?;
    Ok(())
}

/// An index, by the text of its CREATE.
fn create_index<S: Alter>(tx: &mut Transaction<'_, S>, text: &str) -> Result<(), Error>
    ensures same_reference { tx.new.conn.ghost_name ≡ tx.old.conn.ghost_name }
    ensures ok { HasCleanDisk (state S.Store tx.new.conn.now)
        → OnOk result ((schema : Schema) (at : ℕ) (table : Table) (index : Index)
        → IsCreateIndex schema text.now at table index
        → Builds (state S.Store tx.old.conn.now) (state S.Store tx.new.conn.now) schema (indexed schema table index)) }
    ensures survives { LeavesAsBefore (state S.Store tx.old.conn.now) (state S.Store tx.new.conn.now) }
{
    tx.execute(text, &[])?;
    Ok(())
}

fn create_records<S: Alter>(tx: &mut Transaction<'_, S>) -> Result<(), Error>
    ensures same_reference { tx.new.conn.ghost_name ≡ tx.old.conn.ghost_name }
    ensures ok { HasCleanDisk (state S.Store tx.new.conn.now)
        → OnOk result (Builds (state S.Store tx.old.conn.now) (state S.Store tx.new.conn.now) no_schema schema_4) }
    ensures survives { LeavesAsBefore (state S.Store tx.old.conn.now) (state S.Store tx.new.conn.now) }
{
    create_table(
        tx,
        "CREATE TABLE meta (one INTEGER PRIMARY KEY, version INTEGER NOT NULL, next INTEGER NOT NULL, society TEXT NOT NULL) STRICT",
    )?;
    create_table(
        tx,
        "CREATE TABLE batch (no INTEGER PRIMARY KEY, is_open INTEGER NOT NULL) STRICT",
    )?;
    create_table(
        tx,
        "CREATE TABLE record (no INTEGER PRIMARY KEY, kind TEXT NOT NULL, batch INTEGER NOT NULL REFERENCES batch (no) ON DELETE RESTRICT) STRICT",
    )?;
    create_table(
        tx,
        "CREATE TABLE line (id INTEGER PRIMARY KEY, no INTEGER NOT NULL REFERENCES record (no) ON DELETE RESTRICT, pos INTEGER NOT NULL, depth INTEGER NOT NULL, tag TEXT NOT NULL, text TEXT, dst INTEGER REFERENCES record (no) ON DELETE RESTRICT) STRICT",
    )
}

fn create_receipts<S: Alter>(tx: &mut Transaction<'_, S>) -> Result<(), Error>
    ensures same_reference { tx.new.conn.ghost_name ≡ tx.old.conn.ghost_name }
    ensures ok { HasCleanDisk (state S.Store tx.new.conn.now)
        → OnOk result (Builds (state S.Store tx.old.conn.now) (state S.Store tx.new.conn.now) schema_4 schema_7) }
    ensures survives { LeavesAsBefore (state S.Store tx.old.conn.now) (state S.Store tx.new.conn.now) }
{
    create_table(
        tx,
        "CREATE TABLE receipt (id INTEGER PRIMARY KEY, token TEXT NOT NULL, digest BLOB NOT NULL, first INTEGER NOT NULL, count INTEGER NOT NULL) STRICT",
    )?;
    create_table(
        tx,
        "CREATE TABLE slip (no INTEGER PRIMARY KEY, keep INTEGER NOT NULL, gone INTEGER NOT NULL, undone INTEGER NOT NULL) STRICT",
    )?;
    create_table(tx, CREATE_SLIP_LINE)
}

fn create_indexes<S: Alter>(tx: &mut Transaction<'_, S>) -> Result<(), Error>
    ensures same_reference { tx.new.conn.ghost_name ≡ tx.old.conn.ghost_name }
    ensures ok { HasCleanDisk (state S.Store tx.new.conn.now)
        → OnOk result (Builds (state S.Store tx.old.conn.now) (state S.Store tx.new.conn.now) schema_7
        (archive_schema false)) }
    ensures survives { LeavesAsBefore (state S.Store tx.old.conn.now) (state S.Store tx.new.conn.now) }
{
    create_index(tx, "CREATE INDEX line_by_record ON line (no)")?;
    create_index(tx, "CREATE INDEX line_by_target ON line (dst)")?;
    create_index(tx, "CREATE INDEX receipt_by_token ON receipt (token)")?;
    create_index(tx, "CREATE INDEX slip_line_by_slip ON slip_line (slip)")?;
    create_index(tx, "CREATE INDEX line_by_text ON line (text, dst)")
}

fn insert_meta<S: Alter>(tx: &mut Transaction<'_, S>, society: &Text) -> Result<(), Error>
    ensures same_reference { tx.new.conn.ghost_name ≡ tx.old.conn.ghost_name }
    ensures ok { HasCleanDisk (state S.Store tx.new.conn.now)
        → OnOk result (Built (state S.Store tx.old.conn.now) (archive_schema false)
        → Inside (state S.Store tx.new.conn.now) (bare_first society.now)
        × ((state S.Store tx.new.conn.now).committed ≡ (state S.Store tx.old.conn.now).committed)) }
    ensures survives { LeavesAsBefore (state S.Store tx.old.conn.now) (state S.Store tx.new.conn.now) }
{
    tx.execute(
        "INSERT INTO meta (one, version, next, society) VALUES (1, 1, 1, ?1)",
        params![society.as_str()],
    )?;
    Ok(())
}

/// The indexes, what a new archive holds, and what makes it one of the second version: all as it is done to an archive
/// of the first version that is converted.
fn fill<S: Alter>(tx: &mut Transaction<'_, S>, society: &Text) -> Result<(), Error>
    ensures same_reference { tx.new.conn.ghost_name ≡ tx.old.conn.ghost_name }
    ensures ok { HasCleanDisk (state S.Store tx.new.conn.now)
        → OnOk result (Built (state S.Store tx.old.conn.now) schema_7
        → Inside (state S.Store tx.new.conn.now) (nothing_yet society.now)
        × ((state S.Store tx.new.conn.now).committed ≡ (state S.Store tx.old.conn.now).committed)) }
    ensures survives { LeavesAsBefore (state S.Store tx.old.conn.now) (state S.Store tx.new.conn.now) }
{
    create_indexes(tx)?;
    insert_meta(tx, society)?;
    rows::insert_batch(tx, 0, false)?;
    create_later_tables(tx)?;
    spans::set_version(tx)
}

/// The tables that only the second schema has, without rows, in an archive of the first schema, whose lines go, those
/// of slips too.
pub fn create_later_tables<S: Alter>(tx: &mut Transaction<'_, S>) -> Result<(), Error>
    ensures same_reference { tx.new.conn.ghost_name ≡ tx.old.conn.ghost_name }
    ensures ok { WritesUndated (state S.Store tx.old.conn.now) (state S.Store tx.new.conn.now)
        result with_later_tables }
    ensures survives { LeavesAsBefore (state S.Store tx.old.conn.now) (state S.Store tx.new.conn.now) }
{
    tx.execute("DROP TABLE line", &[])?;
    tx.execute("DROP TABLE slip_line", &[])?;
    tx.execute(CREATE_SLIP_LINE, &[])?;
    tx.execute(
        "CREATE TABLE line (no INTEGER PRIMARY KEY REFERENCES record (no) ON DELETE RESTRICT, pos INTEGER NOT NULL, depth INTEGER NOT NULL, tag TEXT NOT NULL, text TEXT, dst INTEGER) STRICT",
        &[],
    )?;
    tx.execute(
        "CREATE TABLE span (no INTEGER PRIMARY KEY REFERENCES record (no) ON DELETE RESTRICT, lo INTEGER, hi INTEGER) STRICT",
        &[],
    )?;
    tx.execute("CREATE TABLE link (id INTEGER PRIMARY KEY) STRICT", &[])?;
    tx.execute(
        "CREATE TABLE sought (no INTEGER PRIMARY KEY REFERENCES record (no) ON DELETE RESTRICT, text TEXT NOT NULL, dst INTEGER) STRICT",
        &[],
    )?;
    tx.execute(
        "CREATE TABLE past (id INTEGER PRIMARY KEY, no INTEGER NOT NULL, token TEXT NOT NULL, text TEXT NOT NULL) STRICT",
        &[],
    )?;
    tx.execute("CREATE INDEX sought_by_text ON sought (text, dst)", &[])?;
    Ok(())
}

/// All tables and indexes, and what a new archive holds.
fn build<S: Alter>(tx: &mut Transaction<'_, S>, society: &Text) -> Result<(), Error>
    ensures same_reference { tx.new.conn.ghost_name ≡ tx.old.conn.ghost_name }
    ensures ok { HasCleanDisk (state S.Store tx.new.conn.now)
        → OnOk result (Built (state S.Store tx.old.conn.now) no_schema
        → Inside (state S.Store tx.new.conn.now) (nothing_yet society.now)
        × ((state S.Store tx.new.conn.now).committed ≡ (state S.Store tx.old.conn.now).committed)) }
    ensures survives { LeavesAsBefore (state S.Store tx.old.conn.now) (state S.Store tx.new.conn.now) }
{
    create_records(tx)?;
    create_receipts(tx)?;
    fill(tx, society)
}

/// A new archive of a society in a store where nothing was made, in one commit. At an error the store is opened again.
pub fn create<S: Alter>(conn: &mut Connection<S>, society: &Text) -> Result<(), Error>
    requires autocommit { conn.old.in_transaction ≡ false }
    ensures done { HasCleanDisk (state S.Store conn.new)
        → OnOk result (SettledBlank (state S.Store conn.old) → Settled (state S.Store conn.new)
        (nothing_yet society.now)) }
    ensures crash { HasCleanDisk (state S.Store conn.new) → SettledBlank (state S.Store conn.old)
        → (t : Trees) → (state S.Store conn.new).may_leave t → IsBlank t ⊎ Good (nothing_yet society.now) t }
    ensures clean { HasCleanDisk (state S.Store conn.new) → HasCleanDisk (state S.Store conn.old) }
    ensures ended { conn.new.in_transaction ≡ false }
{
    let mut tx = conn.transaction();
    build(&mut tx, society)?;
    tx.commit()
}
