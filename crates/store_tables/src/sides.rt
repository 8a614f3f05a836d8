//! The sides of slips: in the second schema each has one row with all its lines, whose key is an integer that stands
//! for the slip and the side's place in it.

ghost use Rattle.std.specs.Prelude.{◌≡◌, ◌+◌, ◌++◌, Bool, flat_map, map, true, false, IfErr, IfOk, OnOk};
ghost use Rattle.std.specs.List.{AllByRecursion};
ghost use Rattle.sqlite.specs.Held.{state};
ghost use Rattle.sqlite.specs.State.{HasCleanDisk};
ghost use Rattle.packed_rows.specs.Packed.{packed};
ghost use Rattle.record_text.specs.declared.refusal.RefusalKind.TheVariants.{OutOfMemory};
ghost use Rattle.store_tables.specs.Calls.{IsNoOther, LeavesAsBefore, WritesDated};
ghost use Rattle.store_tables.specs.Conversion.{IsTop};
ghost use Rattle.store_tables.specs.Keyed.{slip_lines_at, slip_packs_at};
ghost use Rattle.store_tables.specs.Looking.{Looks};
ghost use Rattle.store_tables.specs.Prepared.{slip_line_query};
ghost use Rattle.store_tables.specs.Reading.{IsTypedLine, lines_in_pack, read_sides, read_slip_pack};
ghost use Rattle.store_tables.specs.Schema.{archive_schema};
ghost use Rattle.store_tables.specs.Showing.{ShowsEach, ShowsSides, ShowsSlipPack};
ghost use Rattle.store_tables.specs.Sides.{with_slip_side, with_slip_sides, without_slip_sides};

use crate::connection::is_second;
use crate::lines::top_of;
use crate::pairs::integer_of;
use crate::reading::{SELECT_SLIP_LINES, read_all};
use crate::rows::{flag, named};
use crate::stored::{SlipLineRow, SlipPackRow, SlipSide};
use packed_rows::pack;
use record_text::RefusalKind;
use sqlite::{Alter, Connection, Error, Transaction, params};
use std::alloc::{AllocError, Global};
use stored_lines::StoredLine;

const SIDES_BETWEEN: &str =
    "SELECT slip, side, no, depth, tag, text, dst FROM slip_line WHERE id >= ?1 AND id <= ?2 ORDER BY id";

/// The sides of a slip, in place of those that it had. Its row in `slip` is there already.
/// `Err`: a statement failed, or a side has no line, or its first one does not stand at depth 0, or there are more
/// sides than a place can count.
pub fn write_sides<S: Alter>(
    alloc: Global,
    tx: &mut Transaction<'_, S>,
    slip: u32,
    sides: &[SlipSide],
) -> Result<(), Error>
    ensures same_reference { tx.new.conn.ghost_name ≡ tx.old.conn.ghost_name }
    ensures ok { WritesDated (state S.Store tx.old.conn.now) (state S.Store tx.new.conn.now)
        result (with_slip_sides slip sides.now) }
    ensures survives { LeavesAsBefore (state S.Store tx.old.conn.now) (state S.Store tx.new.conn.now) }
{
    delete_sides(tx, slip)?;
    let mut at: u32 = 0;
    'sides: for side in sides {
        insert_side(alloc, tx, slip, at, side)?;
        at = after(at)?;
    }
    Ok(())
}

/// The place after this one. `Err`: a `u32` counts no further.
fn after(at: u32) -> Result<u32, Error>
    ensures { IfOk result (λ next. next ≡ at + 1) }
{
    match at.checked_add(1) {
        Some(next) => Ok(next),
        None => Err(Error::IntegralValueOutOfRange(1)),
    }
}

/// Takes the sides of a slip out.
fn delete_sides<S: Alter>(tx: &mut Transaction<'_, S>, slip: u32) -> Result<(), Error>
    ensures same_reference { tx.new.conn.ghost_name ≡ tx.old.conn.ghost_name }
    ensures ok { WritesDated (state S.Store tx.old.conn.now) (state S.Store tx.new.conn.now)
        result (without_slip_sides slip) }
    ensures survives { LeavesAsBefore (state S.Store tx.old.conn.now) (state S.Store tx.new.conn.now) }
{
    let first = integer_of(slip, 0);
    let last = integer_of(slip, u32::MAX);
    tx.execute(
        "DELETE FROM slip_line WHERE id >= ?1 AND id <= ?2",
        params![first, last],
    )?;
    Ok(())
}

/// A side of a slip at a place. `Err`: a statement failed, or there is no line, or the first one does not stand at
/// depth 0.
fn insert_side<S: Alter>(
    alloc: Global,
    tx: &mut Transaction<'_, S>,
    slip: u32,
    at: u32,
    side: &SlipSide,
) -> Result<(), Error>
    ensures same_reference { tx.new.conn.ghost_name ≡ tx.old.conn.ghost_name }
    ensures ok { WritesDated (state S.Store tx.old.conn.now) (state S.Store tx.new.conn.now)
        result (with_slip_side slip at side.now) }
    ensures survives { LeavesAsBefore (state S.Store tx.old.conn.now) (state S.Store tx.new.conn.now) }
{
    insert_lines(alloc, tx, slip, at, side.is_new, side.number, &side.lines)
}

/// The same of a number.
fn insert_lines<S: Alter>(
    alloc: Global,
    tx: &mut Transaction<'_, S>,
    slip: u32,
    at: u32,
    is_new: bool,
    number: u32,
    lines: &[StoredLine],
) -> Result<(), Error>
    ensures same_reference { tx.new.conn.ghost_name ≡ tx.old.conn.ghost_name }
    ensures ok { WritesDated (state S.Store tx.old.conn.now) (state S.Store tx.new.conn.now)
        result (with_slip_side slip at (is_new, (number, lines.now))) }
    ensures survives { LeavesAsBefore (state S.Store tx.old.conn.now) (state S.Store tx.new.conn.now) }
{
    let Some(first) = top_of(lines) else {
        return Err(Error::IntegralValueOutOfRange(2));
    };
    let text = pack(alloc, lines)?;
    insert_packed(tx, slip, at, is_new, number, first, &text, lines)
}

/// The row of a side with these lines, of which this is the first one, and this the packed text.
fn insert_packed<S: Alter>(
    tx: &mut Transaction<'_, S>,
    slip: u32,
    at: u32,
    is_new: bool,
    number: u32,
    first: &StoredLine,
    text: &str,
    lines: &[StoredLine],
) -> Result<(), Error>
    requires top { IsTop first.now lines.now }
    requires packed { text.now ≡ packed lines.now }
    requires typed { AllByRecursion IsTypedLine lines.now }
    ensures same_reference { tx.new.conn.ghost_name ≡ tx.old.conn.ghost_name }
    ensures ok { WritesDated (state S.Store tx.old.conn.now) (state S.Store tx.new.conn.now)
        result (with_slip_side slip at (is_new, (number, lines.now))) }
    ensures survives { LeavesAsBefore (state S.Store tx.old.conn.now) (state S.Store tx.new.conn.now) }
{
    let integer = integer_of(slip, at);
    let side = flag(is_new);
    let (tag, target) = (first.tag.as_str(), named(first.target));
    tx.execute(
        "INSERT INTO slip_line VALUES (?1, ?2, ?3, ?4, 0, 0, ?5, ?6, ?7)",
        params![integer, slip, side, number, tag, text, target],
    )?;
    Ok(())
}

/// The lines of a slip, in order. Errors as of `read_rows`; 80 also where the tables are those of the first schema.
pub fn slip_lines_at<S: Alter>(
    alloc: Global,
    conn: &mut Connection<S>,
    slip: u32,
) -> Result<Vec<SlipLineRow>, RefusalKind>
    requires autocommit { conn.old.in_transaction ≡ false }
    ensures looks { Looks (λ rows items. items.items ≡ slip_lines_at slip rows) (state S.Store conn.old)
        (state S.Store conn.new) result }
    ensures ended { conn.new.in_transaction ≡ false }
{
    if !is_second(conn) {
        return Err(RefusalKind::Storage);
    }
    let packs = slip_packs_at(alloc, conn, slip)?;
    lines_in(alloc, packs)
}

/// The sides of a slip, in order, of tables that are not those of the first schema.
fn slip_packs_at<S: Alter>(
    alloc: Global,
    conn: &mut Connection<S>,
    slip: u32,
) -> Result<Vec<SlipPackRow>, RefusalKind>
    requires autocommit { conn.old.in_transaction ≡ false }
    requires second { IsNoOther true (state S.Store conn.old) }
    ensures looks { Looks (λ rows items. items.items ≡ slip_packs_at slip rows) (state S.Store conn.old)
        (state S.Store conn.new) result }
    ensures ended { conn.new.in_transaction ≡ false }
{
    let first = integer_of(slip, 0);
    let last = integer_of(slip, u32::MAX);
    read_all(alloc, conn, SIDES_BETWEEN, params![first, last])
}

/// The lines of all slips, of tables that are not those of the first schema. 40: the text of a side is none that lines
/// have.
pub(crate) fn read_lines<S: Alter>(
    alloc: Global,
    conn: &mut Connection<S>,
) -> Result<Vec<SlipLineRow>, RefusalKind>
    requires autocommit { conn.old.in_transaction ≡ false }
    requires second { IsNoOther true (state S.Store conn.old) }
    ensures looks { Looks (λ rows items. items.items ≡ read_sides rows) (state S.Store conn.old)
        (state S.Store conn.new) result }
    ensures shown { HasCleanDisk (state S.Store conn.new) → (has_spans : Bool)
        → (state S.Store conn.old).now.schema ≡ archive_schema has_spans
        → IfOk result (λ items. ShowsSides has_spans items.items (state S.Store conn.old) (state S.Store conn.new)) }
    ensures ended { conn.new.in_transaction ≡ false }
{
    let packs = read_packs(alloc, conn)?;
    lines_in(alloc, packs)
}

/// All sides of slips, in the order of the slips.
fn read_packs<S: Alter>(
    alloc: Global,
    conn: &mut Connection<S>,
) -> Result<Vec<SlipPackRow>, RefusalKind>
    requires autocommit { conn.old.in_transaction ≡ false }
    requires second { IsNoOther true (state S.Store conn.old) }
    ensures looks { Looks (λ rows items. items.items ≡ map read_slip_pack rows.slip_packs) (state S.Store conn.old)
        (state S.Store conn.new) result }
    ensures shown { HasCleanDisk (state S.Store conn.new)
        → IfOk result (λ items. ShowsEach slip_line_query ShowsSlipPack (state S.Store conn.old)
        (state S.Store conn.new) items.items) }
    ensures ended { conn.new.in_transaction ≡ false }
{
    read_all(alloc, conn, SELECT_SLIP_LINES, &[])
}

/// The lines of sides, in order.
fn lines_in(alloc: Global, packs: Vec<SlipPackRow>) -> Result<Vec<SlipLineRow>, RefusalKind>
    ensures ok { IfOk result (λ found. found.items ≡ flat_map lines_in_pack packs.items) }
    ensures memory { IfErr result (λ kind. kind ≡ OutOfMemory) }
{
    let mut found = Vec::new(alloc);
    'packs: for pack in packs {
        add_lines(&mut found, pack)?;
    }
    Ok(found)
}

/// Adds the lines of a side.
fn add_lines(found: &mut Vec<SlipLineRow>, pack: SlipPackRow) -> Result<(), AllocError>
    ensures { OnOk result (found.new.items ≡ found.old.items ++ lines_in_pack pack) }
{
    let SlipPackRow { slip, side } = pack;
    let SlipSide {
        is_new,
        number,
        lines,
    } = side;
    'lines: for line in lines {
        found.push(SlipLineRow {
            slip,
            is_new,
            number,
            line,
        })?;
    }
    Ok(())
}
