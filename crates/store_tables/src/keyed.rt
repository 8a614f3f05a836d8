//! The rows of one number or of one token, each read by a statement that names it.

ghost use Rattle.std.specs.Prelude.{◌≡◌, ◌≤◌, ◌∷◌, [], true, false, List, length, map, IfOk, IfErr};
ghost use Rattle.sqlite.specs.Held.{state};
ghost use Rattle.store_tables.specs.Calls.{IsNoOther};
ghost use Rattle.store_tables.specs.Conversion.{FailsUnless};
ghost use Rattle.store_tables.specs.Keyed.{
  AreClosedLines,
  AreTagged,
  IsOnly,
  batches_at,
  closed_packs_at,
  records_at,
  receipts_at,
  slips_at,
  lines_within,
  packs_at,
  tagged_by,
};
ghost use Rattle.store_tables.specs.Looking.{Looks};
ghost use Rattle.store_tables.specs.Reading.{read_pack};
ghost use Rattle.store_tables.specs.Rows.{lines_of};

use crate::connection::is_second;
use crate::reading::{read_all, read_meta};
use crate::stored::{BatchRow, PackRow, ReceiptRow, RecordRow, SlipRow};
use receipts::Token;
use record_text::RefusalKind;
use sqlite::{Alter, Connection, params};
use std::alloc::Global;
use stored_lines::StoredLine;

// The queries of single numbers and tokens, in the order of the keys of the tables.
const BATCH_AT: &str = "SELECT no, is_open FROM batch WHERE no = ?1 ORDER BY no";

const RECORD_AT: &str = "SELECT no, batch FROM record WHERE no = ?1 ORDER BY no";

const PACK_AT: &str = "SELECT no, tag, text, dst FROM line WHERE no = ?1 ORDER BY no";

const CLOSED_PACK_AT: &str =
    "SELECT l.no, tag, text, dst FROM record r, batch b, line l WHERE r.no=?1 AND b.no=batch AND is_open=0 AND l.no=?1";

const TAGGED_BY: &str =
    "SELECT no FROM line WHERE tag = ?1 OR tag = ?2 OR tag = ?3 OR tag = ?4 OR tag = ?5 ORDER BY no";

const RECEIPTS_AT: &str =
    "SELECT token, digest, first, count FROM receipt WHERE token = ?1 ORDER BY id";

const SLIP_AT: &str = "SELECT no, keep, gone, undone FROM slip WHERE no = ?1 ORDER BY no";

/// The next number. Errors of this and of all calls below as of `read_rows`.
pub fn next<S: Alter>(alloc: Global, conn: &mut Connection<S>) -> Result<u64, RefusalKind>
    requires autocommit { conn.old.in_transaction ≡ false }
    ensures looks { Looks (λ rows next. next ≡ rows.next) (state S.Store conn.old) (state S.Store conn.new) result }
    ensures ended { conn.new.in_transaction ≡ false }
{
    Ok(read_meta(alloc, conn)?.next)
}

/// The batch of a number.
pub fn batch_at<S: Alter>(
    alloc: Global,
    conn: &mut Connection<S>,
    number: u32,
) -> Result<Option<BatchRow>, RefusalKind>
    requires autocommit { conn.old.in_transaction ≡ false }
    ensures looks { Looks (λ rows found. IsOnly (batches_at number rows) found) (state S.Store conn.old)
        (state S.Store conn.new) result }
    ensures ended { conn.new.in_transaction ≡ false }
{
    at_most_one(batches_at(alloc, conn, number)?)
}

/// The row of a number in `record`.
pub fn record_at<S: Alter>(
    alloc: Global,
    conn: &mut Connection<S>,
    number: u32,
) -> Result<Option<RecordRow>, RefusalKind>
    requires autocommit { conn.old.in_transaction ≡ false }
    ensures looks { Looks (λ rows found. IsOnly (records_at number rows) found) (state S.Store conn.old)
        (state S.Store conn.new) result }
    ensures ended { conn.new.in_transaction ≡ false }
{
    at_most_one(records_at(alloc, conn, number)?)
}

/// The stored lines of a number, in order. 80 also where the tables are those of the first schema.
pub fn lines_at<S: Alter>(
    alloc: Global,
    conn: &mut Connection<S>,
    number: u32,
) -> Result<Vec<StoredLine>, RefusalKind>
    requires autocommit { conn.old.in_transaction ≡ false }
    ensures looks { Looks (λ rows items. items.items ≡ lines_of number rows) (state S.Store conn.old)
        (state S.Store conn.new) result }
    ensures ended { conn.new.in_transaction ≡ false }
{
    if !is_second(conn) {
        return Err(RefusalKind::Storage);
    }
    let pack = pack_at(alloc, conn, number)?;
    Ok(lines_within(alloc, pack))
}

/// The stored lines of a number whose row in `record` is of a closed batch, by one query: none if it has no such
/// row, or no lines. 80 also if the tables are those of the first schema.
pub fn closed_lines_at<S: Alter>(
    alloc: Global,
    conn: &mut Connection<S>,
    number: u32,
) -> Result<Option<PackRow>, RefusalKind>
    requires autocommit { conn.old.in_transaction ≡ false }
    ensures looks { Looks (λ rows found. AreClosedLines number rows found) (state S.Store conn.old)
        (state S.Store conn.new) result }
    ensures ended { conn.new.in_transaction ≡ false }
{
    if !is_second(conn) {
        return Err(RefusalKind::Storage);
    }
    closed_pack_at(alloc, conn, number)
}

/// The numbers whose first line has one of these tags, of which some may be the same. The whole table is read. 80 also
/// if the tables are those of the first schema.
pub fn tagged_by<S: Alter>(
    alloc: Global,
    conn: &mut Connection<S>,
    one: &str,
    two: &str,
    three: &str,
    four: &str,
    five: &str,
) -> Result<Vec<u32>, RefusalKind>
    requires autocommit { conn.old.in_transaction ≡ false }
    ensures looks { Looks (λ rows items.
        AreTagged (one.now ∷ two.now ∷ three.now ∷ four.now ∷ five.now ∷ []) rows items.items)
        (state S.Store conn.old) (state S.Store conn.new) result }
    ensures ended { conn.new.in_transaction ≡ false }
{
    if !is_second(conn) {
        return Err(RefusalKind::Storage);
    }
    numbers_tagged(alloc, conn, one, two, three, four, five)
}

/// The same in the order of the rows, of tables that are not those of the first schema.
fn numbers_tagged<S: Alter>(
    alloc: Global,
    conn: &mut Connection<S>,
    one: &str,
    two: &str,
    three: &str,
    four: &str,
    five: &str,
) -> Result<Vec<u32>, RefusalKind>
    requires autocommit { conn.old.in_transaction ≡ false }
    requires second { IsNoOther true (state S.Store conn.old) }
    ensures looks { Looks (λ rows items.
        items.items ≡ tagged_by (one.now ∷ two.now ∷ three.now ∷ four.now ∷ five.now ∷ []) rows)
        (state S.Store conn.old) (state S.Store conn.new) result }
    ensures ended { conn.new.in_transaction ≡ false }
{
    read_all(alloc, conn, TAGGED_BY, params![one, two, three, four, five])
}

/// The lines of a number, where it has some.
fn lines_within(alloc: Global, pack: Option<PackRow>) -> Vec<StoredLine>
    ensures { result.items ≡ lines_within pack }
{
    match pack {
        Some(pack) => pack.lines,
        None => Vec::new(alloc),
    }
}

/// All lines of a number, where it has some, of tables that are not those of the first schema.
fn pack_at<S: Alter>(
    alloc: Global,
    conn: &mut Connection<S>,
    number: u32,
) -> Result<Option<PackRow>, RefusalKind>
    requires autocommit { conn.old.in_transaction ≡ false }
    requires second { IsNoOther true (state S.Store conn.old) }
    ensures looks { Looks (λ rows found. IsOnly (packs_at number rows) found) (state S.Store conn.old)
        (state S.Store conn.new) result }
    ensures ended { conn.new.in_transaction ≡ false }
{
    at_most_one(packs_at(alloc, conn, number)?)
}

/// All lines of a number that has a row of a closed batch, of tables that are not those of the first schema.
fn closed_pack_at<S: Alter>(
    alloc: Global,
    conn: &mut Connection<S>,
    number: u32,
) -> Result<Option<PackRow>, RefusalKind>
    requires autocommit { conn.old.in_transaction ≡ false }
    requires second { IsNoOther true (state S.Store conn.old) }
    ensures looks { Looks (λ rows found. IsOnly (map read_pack (closed_packs_at number rows)) found)
        (state S.Store conn.old) (state S.Store conn.new) result }
    ensures ended { conn.new.in_transaction ≡ false }
{
    at_most_one(closed_packs_at(alloc, conn, number)?)
}

/// What is kept under a token, in the order in which it was written.
pub fn receipts_at<S: Alter>(
    alloc: Global,
    conn: &mut Connection<S>,
    token: &Token,
) -> Result<Vec<ReceiptRow>, RefusalKind>
    requires autocommit { conn.old.in_transaction ≡ false }
    ensures looks { Looks (λ rows items. items.items ≡ receipts_at token.now rows) (state S.Store conn.old)
        (state S.Store conn.new) result }
    ensures ended { conn.new.in_transaction ≡ false }
{
    read_all(alloc, conn, RECEIPTS_AT, params![token.as_str()])
}

/// The row of a slip.
pub fn slip_at<S: Alter>(
    alloc: Global,
    conn: &mut Connection<S>,
    number: u32,
) -> Result<Option<SlipRow>, RefusalKind>
    requires autocommit { conn.old.in_transaction ≡ false }
    ensures looks { Looks (λ rows found. IsOnly (slips_at number rows) found) (state S.Store conn.old)
        (state S.Store conn.new) result }
    ensures ended { conn.new.in_transaction ≡ false }
{
    at_most_one(slips_at(alloc, conn, number)?)
}

fn batches_at<S: Alter>(
    alloc: Global,
    conn: &mut Connection<S>,
    number: u32,
) -> Result<Vec<BatchRow>, RefusalKind>
    requires autocommit { conn.old.in_transaction ≡ false }
    ensures looks { Looks (λ rows items. (items.items ≡ batches_at number rows) × (length items.items ≤ 1))
        (state S.Store conn.old) (state S.Store conn.new) result }
    ensures ended { conn.new.in_transaction ≡ false }
{
    read_all(alloc, conn, BATCH_AT, params![number])
}

fn records_at<S: Alter>(
    alloc: Global,
    conn: &mut Connection<S>,
    number: u32,
) -> Result<Vec<RecordRow>, RefusalKind>
    requires autocommit { conn.old.in_transaction ≡ false }
    ensures looks { Looks (λ rows items. (items.items ≡ records_at number rows) × (length items.items ≤ 1))
        (state S.Store conn.old) (state S.Store conn.new) result }
    ensures ended { conn.new.in_transaction ≡ false }
{
    read_all(alloc, conn, RECORD_AT, params![number])
}

fn packs_at<S: Alter>(
    alloc: Global,
    conn: &mut Connection<S>,
    number: u32,
) -> Result<Vec<PackRow>, RefusalKind>
    requires autocommit { conn.old.in_transaction ≡ false }
    requires second { IsNoOther true (state S.Store conn.old) }
    ensures looks { Looks (λ rows items. (items.items ≡ packs_at number rows) × (length items.items ≤ 1))
        (state S.Store conn.old) (state S.Store conn.new) result }
    ensures ended { conn.new.in_transaction ≡ false }
{
    read_all(alloc, conn, PACK_AT, params![number])
}

fn closed_packs_at<S: Alter>(
    alloc: Global,
    conn: &mut Connection<S>,
    number: u32,
) -> Result<Vec<PackRow>, RefusalKind>
    requires autocommit { conn.old.in_transaction ≡ false }
    requires second { IsNoOther true (state S.Store conn.old) }
    ensures looks { Looks (λ rows items. (items.items ≡ map read_pack (closed_packs_at number rows))
        × (length items.items ≤ 1)) (state S.Store conn.old) (state S.Store conn.new) result }
    ensures ended { conn.new.in_transaction ≡ false }
{
    read_all(alloc, conn, CLOSED_PACK_AT, params![number])
}

fn slips_at<S: Alter>(
    alloc: Global,
    conn: &mut Connection<S>,
    number: u32,
) -> Result<Vec<SlipRow>, RefusalKind>
    requires autocommit { conn.old.in_transaction ≡ false }
    ensures looks { Looks (λ rows items. (items.items ≡ slips_at number rows) × (length items.items ≤ 1))
        (state S.Store conn.old) (state S.Store conn.new) result }
    ensures ended { conn.new.in_transaction ≡ false }
{
    read_all(alloc, conn, SLIP_AT, params![number])
}

/// The item of a list of at most one: no key of a table comes twice.
fn at_most_one<T: Drop>(mut items: Vec<T>) -> Result<Option<T>, RefusalKind>
    ensures ok { IfOk result (λ found. IsOnly items.items found) }
    ensures err { IfErr result (FailsUnless (length items.items ≤ 1)) }
{
    match items.pop() {
        None => Ok(None),
        Some(item) if items.is_empty() => Ok(Some(item)),
        Some(_) => Err(RefusalKind::BadStored),
    }
}
