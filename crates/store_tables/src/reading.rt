//! All rows of an archive, read from its tables.

ghost use Rattle.std.specs.Prelude.{◌≡◌, ◌⊎◌, Bool, List, [], ◌∷◌, length, true, false, map, IfOk, IfErr};
ghost use Rattle.std.specs.List.{AllByRecursion};
ghost use Rattle.sqlite.specs.declared.types.Value.{Value};
ghost use Rattle.sqlite.specs.Held.{state};
ghost use Rattle.sqlite.specs.Listing.{understood};
ghost use Rattle.sqlite.specs.State.{CommitsShowing, HasCleanDisk, Shown, FailsToQuery, Survives};
ghost use Rattle.sqlite.specs.Values.{bound};
ghost use Rattle.sqlite.proofs.Callers.{IsPlain};
ghost use Rattle.record_text.specs.declared.refusal.RefusalKind.TheVariants.{BadStored};
ghost use Rattle.store_tables.specs.Calls.{IsNoOther, Settled, LeavesOnly};
ghost use Rattle.store_tables.specs.Conversion.{EachWith, read_meta};
ghost use Rattle.store_tables.specs.Looking.{IsFailure, Looks, meta_query};
ghost use Rattle.store_tables.specs.Reading.{
  read_of,
  read_record,
  read_line,
  read_pack,
  read_receipt,
  read_sides,
};
ghost use Rattle.store_tables.specs.Rows.{Rows};
ghost use Rattle.store_tables.specs.Schema.{archive_schema};
ghost use Rattle.store_tables.specs.Prepared.{
  IsOfSecond,
  batch_query,
  record_query,
  line_query,
  pack_query,
  receipt_query,
  slip_query,
};
ghost use Rattle.store_tables.specs.Showing.{
  ShowsBatch,
  ShowsEach,
  ShowsHistory,
  ShowsLine,
  ShowsLines,
  ShowsMeta,
  ShowsPack,
  ShowsRead,
  ShowsReceipt,
  ShowsRecord,
  ShowsRecords,
  ShowsSides,
  ShowsSlip,
};
ghost use Rattle.store_tables.specs.Telling.{tells_no_archive};

use crate::connection::is_second;
use crate::sides;
use crate::stored::{
    BatchRow, LineRow, PackRow, ReceiptRow, RecordRow, SlipLineRow, SlipRow, StoredRows,
};
use crate::typing::{FromRow, Meta, from_rows, only};
use record_text::{RefusalKind, Text};
use sqlite::types::ValueRef;
use sqlite::{Alter, Connection, Error, Row};
use std::alloc::Global;

/// The query of the one row of `meta`.
pub(crate) const SELECT_META: &str = "SELECT version, next, society FROM meta";

// The queries of the other tables, in the order of their keys.
pub(crate) const SELECT_BATCHES: &str = "SELECT no, is_open FROM batch ORDER BY no";

pub(crate) const SELECT_RECORDS: &str = "SELECT no, batch FROM record ORDER BY no";

// Under the first schema the lines in the order in which they were written.
pub(crate) const SELECT_LINES: &str = "SELECT no, depth, tag, text, dst FROM line ORDER BY rowid";

pub(crate) const SELECT_PACKS: &str = "SELECT no, tag, text, dst FROM line ORDER BY no";

pub(crate) const SELECT_RECEIPTS: &str =
    "SELECT token, digest, first, count FROM receipt ORDER BY id";

const RECEIPT_KEYS: &str = "SELECT id FROM receipt ORDER BY id";

pub(crate) const SELECT_SLIPS: &str = "SELECT no, keep, gone, undone FROM slip ORDER BY no";

// The lines of slips, in the order in which they were written; under the second schema those of a side in one row.
pub(crate) const SELECT_SLIP_LINES: &str =
    "SELECT slip, side, no, depth, tag, text, dst FROM slip_line ORDER BY id";

/// All rows of an archive. `OutOfMemory`: memory was refused. `Storage`: the database failed. `BadStored`: somebody
/// else wrote the tables.
pub fn read_rows<S: Alter>(
    alloc: Global,
    conn: &mut Connection<S>,
) -> Result<StoredRows, RefusalKind>
    requires autocommit { conn.old.in_transaction ≡ false }
    ensures looks { Looks (λ rows read. read ≡ read_of rows) (state S.Store conn.old) (state S.Store conn.new) result }
    ensures shown { HasCleanDisk (state S.Store conn.new) → (has_spans : Bool)
        → (state S.Store conn.old).now.schema ≡ archive_schema has_spans
        → IfOk result (λ read. ShowsRead has_spans read
        (state S.Store conn.old) (state S.Store conn.new)) }
    ensures ended { conn.new.in_transaction ≡ false }
{
    let meta = read_meta(alloc, conn)?;
    let (batches, records) = read_records_by_batch(alloc, conn)?;
    let (lines, packs) = read_stored(alloc, conn)?;
    let (receipts, slips, slip_lines) = read_history(alloc, conn)?;
    Ok(StoredRows {
        next: meta.next,
        batches,
        records,
        lines,
        packs,
        receipts,
        slips,
        slip_lines,
    })
}

/// The society of an archive. Errors as of `read_rows`.
pub fn society<S: Alter>(alloc: Global, conn: &mut Connection<S>) -> Result<Text, RefusalKind>
    requires autocommit { conn.old.in_transaction ≡ false }
    ensures looks { Looks (λ rows text. text ≡ rows.society) (state S.Store conn.old) (state S.Store conn.new) result }
    ensures ended { conn.new.in_transaction ≡ false }
{
    Ok(read_meta(alloc, conn)?.society)
}

/// How many answers are kept. 80: the database failed, or memory was refused to it. A key of each is read.
pub fn count_receipts<S: Alter>(conn: &mut Connection<S>) -> Result<usize, RefusalKind>
    requires autocommit { conn.old.in_transaction ≡ false }
    ensures looks { Looks (λ rows count. count ≡ length rows.receipts) (state S.Store conn.old)
        (state S.Store conn.new) result }
    ensures ended { conn.new.in_transaction ≡ false }
{
    match ask(conn, RECEIPT_KEYS, &[]) {
        Ok(rows) => Ok(rows.len()),
        Err(_) => Err(RefusalKind::Storage),
    }
}

/// What the one row of `meta` says.
pub(crate) fn read_meta<S: Alter>(
    alloc: Global,
    conn: &mut Connection<S>,
) -> Result<Meta, RefusalKind>
    requires autocommit { conn.old.in_transaction ≡ false }
    ensures looks { Looks (λ rows meta. meta ≡ read_meta rows) (state S.Store conn.old)
        (state S.Store conn.new) result }
    ensures shown { HasCleanDisk (state S.Store conn.new) → (has_spans : Bool)
        → (state S.Store conn.old).now.schema ≡ archive_schema has_spans
        → IfOk result (λ meta. ShowsEach meta_query ShowsMeta (state S.Store conn.old)
        (state S.Store conn.new) (meta ∷ [])) }
    ensures ended { conn.new.in_transaction ≡ false }
{
    only(read_meta_rows(alloc, conn)?)
}

/// The batches, and the records with the batch of each, both in the order of their numbers. Errors as of `read_rows`.
pub fn read_records_by_batch<S: Alter>(
    alloc: Global,
    conn: &mut Connection<S>,
) -> Result<(Vec<BatchRow>, Vec<RecordRow>), RefusalKind>
    requires autocommit { conn.old.in_transaction ≡ false }
    ensures looks { Looks (λ rows all. (all.0.items ≡ rows.batches) × (all.1.items ≡ map read_record rows.records))
        (state S.Store conn.old) (state S.Store conn.new) result }
    ensures shown { HasCleanDisk (state S.Store conn.new) → (has_spans : Bool)
        → (state S.Store conn.old).now.schema ≡ archive_schema has_spans
        → IfOk result (λ all. ShowsRecords all.0.items all.1.items
        (state S.Store conn.old) (state S.Store conn.new)) }
    ensures ended { conn.new.in_transaction ≡ false }
{
    let batches = read_batches(alloc, conn)?;
    let records = read_records(alloc, conn)?;
    Ok((batches, records))
}

/// The lines of the records, as the schema has them: in rows of their own, or all lines of a record in one row.
fn read_stored<S: Alter>(
    alloc: Global,
    conn: &mut Connection<S>,
) -> Result<(Vec<LineRow>, Vec<PackRow>), RefusalKind>
    requires autocommit { conn.old.in_transaction ≡ false }
    ensures looks { Looks (λ rows all. (all.0.items ≡ map read_line rows.lines)
        × (all.1.items ≡ map read_pack rows.packs)) (state S.Store conn.old) (state S.Store conn.new) result }
    ensures shown { HasCleanDisk (state S.Store conn.new) → (has_spans : Bool)
        → (state S.Store conn.old).now.schema ≡ archive_schema has_spans
        → IfOk result (λ all. ShowsLines has_spans all.0.items all.1.items
        (state S.Store conn.old) (state S.Store conn.new)) }
    ensures ended { conn.new.in_transaction ≡ false }
{
    if is_second(conn) {
        let packs = read_packs(alloc, conn)?;
        Ok((Vec::new(alloc), packs))
    } else {
        let lines = read_lines(alloc, conn)?;
        Ok((lines, Vec::new(alloc)))
    }
}

/// The receipts, the slips and their lines.
fn read_history<S: Alter>(
    alloc: Global,
    conn: &mut Connection<S>,
) -> Result<(Vec<ReceiptRow>, Vec<SlipRow>, Vec<SlipLineRow>), RefusalKind>
    requires autocommit { conn.old.in_transaction ≡ false }
    ensures looks { Looks (λ rows all. (all.0.items ≡ map read_receipt rows.receipts) × (all.1.items ≡ rows.slips)
        × (all.2.items ≡ read_sides rows))
        (state S.Store conn.old) (state S.Store conn.new) result }
    ensures shown { HasCleanDisk (state S.Store conn.new) → (has_spans : Bool)
        → (state S.Store conn.old).now.schema ≡ archive_schema has_spans
        → IfOk result (λ all. ShowsHistory has_spans all.0.items all.1.items all.2.items
        (state S.Store conn.old) (state S.Store conn.new)) }
    ensures ended { conn.new.in_transaction ≡ false }
{
    let receipts = read_receipts(alloc, conn)?;
    let slips = read_slips(alloc, conn)?;
    let slip_lines = read_sides(alloc, conn)?;
    Ok((receipts, slips, slip_lines))
}

/// The lines of slips, as the schema has them: in rows of their own, or all lines of a side in one row.
fn read_sides<S: Alter>(
    alloc: Global,
    conn: &mut Connection<S>,
) -> Result<Vec<SlipLineRow>, RefusalKind>
    requires autocommit { conn.old.in_transaction ≡ false }
    ensures looks { Looks (λ rows items. items.items ≡ read_sides rows) (state S.Store conn.old)
        (state S.Store conn.new) result }
    ensures shown { HasCleanDisk (state S.Store conn.new) → (has_spans : Bool)
        → (state S.Store conn.old).now.schema ≡ archive_schema has_spans
        → IfOk result (λ items. ShowsSides has_spans items.items (state S.Store conn.old) (state S.Store conn.new)) }
    ensures ended { conn.new.in_transaction ≡ false }
{
    if is_second(conn) {
        sides::read_lines(alloc, conn)
    } else {
        read_slip_lines(alloc, conn)
    }
}

fn read_meta_rows<S: Alter>(
    alloc: Global,
    conn: &mut Connection<S>,
) -> Result<Vec<Meta>, RefusalKind>
    requires autocommit { conn.old.in_transaction ≡ false }
    ensures looks { Looks (λ rows items. items.items ≡ read_meta rows ∷ []) (state S.Store conn.old)
        (state S.Store conn.new) result }
    ensures shown { HasCleanDisk (state S.Store conn.new) → (has_spans : Bool)
        → (state S.Store conn.old).now.schema ≡ archive_schema has_spans
        → IfOk result (λ items. ShowsEach meta_query ShowsMeta (state S.Store conn.old)
        (state S.Store conn.new) items.items) }
    ensures ended { conn.new.in_transaction ≡ false }
{
    read_all(alloc, conn, SELECT_META, &[])
}

/// The batches, in the order of their numbers. Errors as of `read_rows`.
pub fn read_batches<S: Alter>(
    alloc: Global,
    conn: &mut Connection<S>,
) -> Result<Vec<BatchRow>, RefusalKind>
    requires autocommit { conn.old.in_transaction ≡ false }
    ensures looks { Looks (λ rows items. items.items ≡ rows.batches) (state S.Store conn.old)
        (state S.Store conn.new) result }
    ensures shown { HasCleanDisk (state S.Store conn.new) → (has_spans : Bool)
        → (state S.Store conn.old).now.schema ≡ archive_schema has_spans
        → IfOk result (λ items. ShowsEach batch_query ShowsBatch (state S.Store conn.old)
        (state S.Store conn.new) items.items) }
    ensures ended { conn.new.in_transaction ≡ false }
{
    read_all(alloc, conn, SELECT_BATCHES, &[])
}

fn read_records<S: Alter>(
    alloc: Global,
    conn: &mut Connection<S>,
) -> Result<Vec<RecordRow>, RefusalKind>
    requires autocommit { conn.old.in_transaction ≡ false }
    ensures looks { Looks (λ rows items. items.items ≡ map read_record rows.records) (state S.Store conn.old)
        (state S.Store conn.new) result }
    ensures shown { HasCleanDisk (state S.Store conn.new) → (has_spans : Bool)
        → (state S.Store conn.old).now.schema ≡ archive_schema has_spans
        → IfOk result (λ items. ShowsEach record_query ShowsRecord (state S.Store conn.old)
        (state S.Store conn.new) items.items) }
    ensures ended { conn.new.in_transaction ≡ false }
{
    read_all(alloc, conn, SELECT_RECORDS, &[])
}

/// The lines of tables that are not those of the second schema.
fn read_lines<S: Alter>(
    alloc: Global,
    conn: &mut Connection<S>,
) -> Result<Vec<LineRow>, RefusalKind>
    requires autocommit { conn.old.in_transaction ≡ false }
    requires first { IsNoOther false (state S.Store conn.old) }
    ensures looks { Looks (λ rows items. items.items ≡ map read_line rows.lines) (state S.Store conn.old)
        (state S.Store conn.new) result }
    ensures shown { HasCleanDisk (state S.Store conn.new) → (has_spans : Bool)
        → (state S.Store conn.old).now.schema ≡ archive_schema has_spans
        → IfOk result (λ items. ShowsEach line_query ShowsLine (state S.Store conn.old)
        (state S.Store conn.new) items.items) }
    ensures ended { conn.new.in_transaction ≡ false }
{
    read_all(alloc, conn, SELECT_LINES, &[])
}

/// The records with all their lines, of tables that are not those of the first schema. 40: the text of one is none
/// that lines have.
fn read_packs<S: Alter>(
    alloc: Global,
    conn: &mut Connection<S>,
) -> Result<Vec<PackRow>, RefusalKind>
    requires autocommit { conn.old.in_transaction ≡ false }
    requires second { IsNoOther true (state S.Store conn.old) }
    ensures looks { Looks (λ rows items. items.items ≡ map read_pack rows.packs) (state S.Store conn.old)
        (state S.Store conn.new) result }
    ensures shown { HasCleanDisk (state S.Store conn.new) → (has_spans : Bool)
        → (state S.Store conn.old).now.schema ≡ archive_schema has_spans
        → IfOk result (λ items. ShowsEach pack_query ShowsPack (state S.Store conn.old)
        (state S.Store conn.new) items.items) }
    ensures ended { conn.new.in_transaction ≡ false }
{
    read_all(alloc, conn, SELECT_PACKS, &[])
}

fn read_receipts<S: Alter>(
    alloc: Global,
    conn: &mut Connection<S>,
) -> Result<Vec<ReceiptRow>, RefusalKind>
    requires autocommit { conn.old.in_transaction ≡ false }
    ensures looks { Looks (λ rows items. items.items ≡ map read_receipt rows.receipts) (state S.Store conn.old)
        (state S.Store conn.new) result }
    ensures shown { HasCleanDisk (state S.Store conn.new) → (has_spans : Bool)
        → (state S.Store conn.old).now.schema ≡ archive_schema has_spans
        → IfOk result (λ items. ShowsEach receipt_query ShowsReceipt (state S.Store conn.old)
        (state S.Store conn.new) items.items) }
    ensures ended { conn.new.in_transaction ≡ false }
{
    read_all(alloc, conn, SELECT_RECEIPTS, &[])
}

fn read_slips<S: Alter>(
    alloc: Global,
    conn: &mut Connection<S>,
) -> Result<Vec<SlipRow>, RefusalKind>
    requires autocommit { conn.old.in_transaction ≡ false }
    ensures looks { Looks (λ rows items. items.items ≡ rows.slips) (state S.Store conn.old)
        (state S.Store conn.new) result }
    ensures shown { HasCleanDisk (state S.Store conn.new) → (has_spans : Bool)
        → (state S.Store conn.old).now.schema ≡ archive_schema has_spans
        → IfOk result (λ items. ShowsEach slip_query ShowsSlip (state S.Store conn.old)
        (state S.Store conn.new) items.items) }
    ensures ended { conn.new.in_transaction ≡ false }
{
    read_all(alloc, conn, SELECT_SLIPS, &[])
}

/// The lines of slips, of tables that are not those of the second schema.
fn read_slip_lines<S: Alter>(
    alloc: Global,
    conn: &mut Connection<S>,
) -> Result<Vec<SlipLineRow>, RefusalKind>
    requires autocommit { conn.old.in_transaction ≡ false }
    requires first { IsNoOther false (state S.Store conn.old) }
    ensures looks { Looks (λ rows items. items.items ≡ read_sides rows) (state S.Store conn.old)
        (state S.Store conn.new) result }
    ensures shown { HasCleanDisk (state S.Store conn.new) → (has_spans : Bool)
        → (state S.Store conn.old).now.schema ≡ archive_schema has_spans
        → IfOk result (λ items. ShowsSides has_spans items.items (state S.Store conn.old) (state S.Store conn.new)) }
    ensures ended { conn.new.in_transaction ≡ false }
{
    read_all(alloc, conn, SELECT_SLIP_LINES, &[])
}

/// All that a plain query shows, with the program's types.
pub(crate) fn read_all<T: FromRow, S: Alter>(
    alloc: Global,
    conn: &mut Connection<S>,
    sql: &str,
    params: &[ValueRef<'_>],
) -> Result<Vec<T>, RefusalKind>
    requires autocommit { conn.old.in_transaction ≡ false }
    requires plain { (has_spans : Bool) → IsPlain (understood (archive_schema has_spans) sql.now) }
    ensures read { HasCleanDisk (state S.Store conn.new) → IfOk result (λ items.
        (shown : List (List Value)) × Shown sql.now (bound params.now) (state S.Store conn.old)
        (state S.Store conn.new) shown × EachWith T.reads_as shown items.items) }
    ensures refused { HasCleanDisk (state S.Store conn.new) → IfErr result (λ kind. IsFailure kind ⊎
        ((shown : List (List Value)) × Shown sql.now (bound params.now) (state S.Store conn.old)
        (state S.Store conn.new) shown × ¬ (AllByRecursion T.is_readable shown))) }
    ensures same { HasCleanDisk (state S.Store conn.new)
        → IfOk result (λ _. (rows : Rows) → Settled (state S.Store conn.old) rows
        → Settled (state S.Store conn.new) rows) }
    ensures crash { HasCleanDisk (state S.Store conn.new) → (rows : Rows) → Settled (state S.Store conn.old) rows
        → LeavesOnly (state S.Store conn.new) rows }
    ensures clean { HasCleanDisk (state S.Store conn.new) → HasCleanDisk (state S.Store conn.old) }
    ensures ended { conn.new.in_transaction ≡ false }
{
    match ask(conn, sql, params) {
        Ok(rows) => from_rows(alloc, rows),
        Err(_) => Err(RefusalKind::Storage),
    }
}

/// All rows that a plain query shows: one that reads no clock and writes nothing.
pub(crate) fn ask<S: Alter>(
    conn: &mut Connection<S>,
    sql: &str,
    params: &[ValueRef<'_>],
) -> Result<Vec<Row>, Error>
    requires autocommit { conn.old.in_transaction ≡ false }
    requires plain { (has_spans : Bool) → IsPlain (understood (archive_schema has_spans) sql.now) }
    ensures shown { HasCleanDisk (state S.Store conn.new)
        → IfOk result (λ rows. Shown sql.now (bound params.now) (state S.Store conn.old)
        (state S.Store conn.new) rows.items) }
    ensures same { HasCleanDisk (state S.Store conn.new)
        → IfOk result (λ _. (rows : Rows) → Settled (state S.Store conn.old) rows
        → Settled (state S.Store conn.new) rows) }
    ensures failed { HasCleanDisk (state S.Store conn.new)
        → IfErr result (λ e. FailsToQuery sql.now (bound params.now) (state S.Store conn.old)
        (state S.Store conn.new) e) }
    ensures known { HasCleanDisk (state S.Store conn.new)
        → IfErr result (λ e. (rows : Rows) → Settled (state S.Store conn.old) rows → tells_no_archive e ≡ false) }
    ensures crash { HasCleanDisk (state S.Store conn.new) → (rows : Rows) → Settled (state S.Store conn.old) rows
        → LeavesOnly (state S.Store conn.new) rows }
    ensures clean { HasCleanDisk (state S.Store conn.new) → HasCleanDisk (state S.Store conn.old) }
    ensures survives { Survives (state S.Store conn.old) (state S.Store conn.new)
        (CommitsShowing sql.now (bound params.now) (state S.Store conn.old)) }
    ensures ended { conn.new.in_transaction ≡ false }
{
    conn.query_all(sql, params)
}

/// All that a query shows of a table that only the second schema has, with the program's types.
pub(crate) fn read_later<T: FromRow, S: Alter>(
    alloc: Global,
    conn: &mut Connection<S>,
    sql: &str,
    params: &[ValueRef<'_>],
) -> Result<Vec<T>, RefusalKind>
    requires autocommit { conn.old.in_transaction ≡ false }
    requires later { IsOfSecond sql.now }
    ensures read { HasCleanDisk (state S.Store conn.new) → IfOk result (λ items.
        (shown : List (List Value)) × Shown sql.now (bound params.now) (state S.Store conn.old)
        (state S.Store conn.new) shown × EachWith T.reads_as shown items.items) }
    ensures refused { HasCleanDisk (state S.Store conn.new) → IfErr result (λ kind. IsFailure kind ⊎
        ((shown : List (List Value)) × Shown sql.now (bound params.now) (state S.Store conn.old)
        (state S.Store conn.new) shown × ¬ (AllByRecursion T.is_readable shown))) }
    ensures named { IfErr result (λ kind. IsFailure kind ⊎ (kind ≡ BadStored)) }
    ensures same { HasCleanDisk (state S.Store conn.new)
        → IfOk result (λ _. (rows : Rows) → Settled (state S.Store conn.old) rows
        → Settled (state S.Store conn.new) rows) }
    ensures crash { HasCleanDisk (state S.Store conn.new) → (rows : Rows) → Settled (state S.Store conn.old) rows
        → LeavesOnly (state S.Store conn.new) rows }
    ensures clean { HasCleanDisk (state S.Store conn.new) → HasCleanDisk (state S.Store conn.old) }
    ensures ended { conn.new.in_transaction ≡ false }
{
    match ask_later(conn, sql, params) {
        Ok(rows) => from_rows(alloc, rows),
        Err(_) => Err(RefusalKind::Storage),
    }
}

/// All rows that such a query shows.
fn ask_later<S: Alter>(
    conn: &mut Connection<S>,
    sql: &str,
    params: &[ValueRef<'_>],
) -> Result<Vec<Row>, Error>
    requires autocommit { conn.old.in_transaction ≡ false }
    requires later { IsOfSecond sql.now }
    ensures shown { HasCleanDisk (state S.Store conn.new)
        → IfOk result (λ rows. Shown sql.now (bound params.now) (state S.Store conn.old)
        (state S.Store conn.new) rows.items) }
    ensures same { HasCleanDisk (state S.Store conn.new)
        → IfOk result (λ _. (rows : Rows) → Settled (state S.Store conn.old) rows
        → Settled (state S.Store conn.new) rows) }
    ensures crash { HasCleanDisk (state S.Store conn.new) → (rows : Rows) → Settled (state S.Store conn.old) rows
        → LeavesOnly (state S.Store conn.new) rows }
    ensures clean { HasCleanDisk (state S.Store conn.new) → HasCleanDisk (state S.Store conn.old) }
    ensures ended { conn.new.in_transaction ≡ false }
{
    conn.query_all(sql, params)
}
