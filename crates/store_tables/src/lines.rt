//! The lines of a record in one row, inside a transaction.

ghost use Rattle.std.specs.Prelude.{◌≡◌, IfSome, option_copied};
ghost use Rattle.std.specs.List.{AllByRecursion};
ghost use Rattle.sqlite.specs.Held.{state};
ghost use Rattle.packed_rows.specs.Packed.{packed};
ghost use Rattle.store_tables.specs.Calls.{LeavesAsBefore, Writes};
ghost use Rattle.store_tables.specs.Conversion.{IsTop};
ghost use Rattle.store_tables.specs.Reading.{IsTypedLine};
ghost use Rattle.store_tables.specs.Rows.{with_changed_lines, with_pack};

use crate::rows;
use crate::rows::named;
use packed_rows::pack;
use sqlite::{Alter, Error, Transaction, params};
use std::alloc::Global;
use stored_lines::StoredLine;

/// The lines of a record, in place of those that it had. Its row in `record` is there already.
/// `Err`: a statement failed, or there is no line, or the first one does not stand at depth 0, or the tables are those
/// of the first schema.
pub fn change_lines<S: Alter>(
    alloc: Global,
    tx: &mut Transaction<'_, S>,
    number: u32,
    lines: &[StoredLine],
) -> Result<(), Error>
    ensures same_reference { tx.new.conn.ghost_name ≡ tx.old.conn.ghost_name }
    ensures ok { Writes (state S.Store tx.old.conn.now) (state S.Store tx.new.conn.now)
        result (with_changed_lines number lines.now) }
    ensures survives { LeavesAsBefore (state S.Store tx.old.conn.now) (state S.Store tx.new.conn.now) }
{
    rows::delete_lines(tx, number)?;
    insert_lines(alloc, tx, number, lines)
}

/// The lines of a record that has none yet.
/// `Err`: a statement failed, or there is no line, or the first one does not stand at depth 0, or the tables are those
/// of the first schema.
pub fn insert_lines<S: Alter>(
    alloc: Global,
    tx: &mut Transaction<'_, S>,
    number: u32,
    lines: &[StoredLine],
) -> Result<(), Error>
    ensures same_reference { tx.new.conn.ghost_name ≡ tx.old.conn.ghost_name }
    ensures ok { Writes (state S.Store tx.old.conn.now) (state S.Store tx.new.conn.now)
        result (with_pack number lines.now) }
    ensures survives { LeavesAsBefore (state S.Store tx.old.conn.now) (state S.Store tx.new.conn.now) }
{
    let Some(first) = top_of(lines) else {
        return Err(Error::IntegralValueOutOfRange(2));
    };
    let text = pack(alloc, lines)?;
    insert_pack(tx, number, first, &text, lines)
}

/// The first line, where there is one and it stands at depth 0.
pub(crate) fn top_of(lines: &[StoredLine]) -> Option<&StoredLine>
    ensures { IfSome (option_copied result) (λ first. IsTop first lines.now) }
{
    match lines {
        [first, ..] if first.depth == 0 => Some(first),
        _ => None,
    }
}

/// The row of a record with these lines, of which this is the first one, and this the packed text. The values differ
/// only by their number, since the table of lines of the first schema, which takes none of these, has a column more.
fn insert_pack<S: Alter>(
    tx: &mut Transaction<'_, S>,
    number: u32,
    first: &StoredLine,
    text: &str,
    lines: &[StoredLine],
) -> Result<(), Error>
    requires top { IsTop first.now lines.now }
    requires packed { text.now ≡ packed lines.now }
    requires typed { AllByRecursion IsTypedLine lines.now }
    ensures same_reference { tx.new.conn.ghost_name ≡ tx.old.conn.ghost_name }
    ensures ok { Writes (state S.Store tx.old.conn.now) (state S.Store tx.new.conn.now)
        result (with_pack number lines.now) }
    ensures survives { LeavesAsBefore (state S.Store tx.old.conn.now) (state S.Store tx.new.conn.now) }
{
    let (tag, target) = (first.tag.as_str(), named(first.target));
    tx.execute(
        "INSERT INTO line VALUES (?1, 0, 0, ?2, ?3, ?4)",
        params![number, tag, text, target],
    )?;
    Ok(())
}
