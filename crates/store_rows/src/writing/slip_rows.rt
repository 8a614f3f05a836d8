//! The rows of a slip: its own, and the lines of its changes.

ghost use Rattle.std.specs.Prelude.{◌≡◌, ◌++◌, [], ◌∷◌, flat_map, IfOk, OnOk};
ghost use Rattle.sqlite.specs.Held.{state};
ghost use Rattle.store_tables.specs.Calls.{LeavesAsBefore, WritesDated};
ghost use Rattle.record_shapes.specs.Lists.{EachOf};
ghost use Rattle.records.specs.Shallow.{IsShallow};
ghost use Rattle.records.specs.Stored.{stored};
ghost use Rattle.store_rows.specs.Meaning.{IsShallowOption, IsShallowSlip};
ghost use Rattle.store_rows.specs.Shallow.{IsShallowChange, IsShallowSlipChange};
ghost use Rattle.store_rows.specs.Writing.{new_sides_stored, sides_stored, with_slip_made, with_slip_written};

use super::Unwritten;
use archive_state::{Change, Slip, SlipChange};
use record_kinds::Record;
use records::lines_of;
use sqlite::{Alter, Transaction};
use std::alloc::{AllocError, Global};
use store_tables::records::undo_slip;
use store_tables::sides::write_sides;
use store_tables::{SlipSide, rows};

/// The slip that is made, or that one is undone, where there is one.
pub(crate) fn write_slip<S: Alter>(
    alloc: Global,
    tx: &mut Transaction<'_, S>,
    slip: &Option<SlipChange>,
) -> Result<(), Unwritten>
    ensures same_reference { tx.new.conn.ghost_name ≡ tx.old.conn.ghost_name }
    ensures ok { WritesDated (state S.Store tx.old.conn.now) (state S.Store tx.new.conn.now)
        result (with_slip_written slip.now) }
    ensures survives { LeavesAsBefore (state S.Store tx.old.conn.now) (state S.Store tx.new.conn.now) }
    ensures shallow { OnOk result (IsShallowSlipChange slip.now) }
{
    match slip {
        None => Ok(()),
        Some(SlipChange::Made(number, slip)) => make_slip(alloc, tx, *number, slip),
        Some(SlipChange::Undone(number)) => Ok(undo_slip(tx, *number)?),
    }
}

/// A new slip, in place of lines that its number had.
fn make_slip<S: Alter>(
    alloc: Global,
    tx: &mut Transaction<'_, S>,
    number: u32,
    slip: &Slip,
) -> Result<(), Unwritten>
    ensures same_reference { tx.new.conn.ghost_name ≡ tx.old.conn.ghost_name }
    ensures ok { WritesDated (state S.Store tx.old.conn.now) (state S.Store tx.new.conn.now)
        result (with_slip_made number slip.now) }
    ensures survives { LeavesAsBefore (state S.Store tx.old.conn.now) (state S.Store tx.new.conn.now) }
    ensures shallow { OnOk result (IsShallowSlip slip.now) }
{
    let sides = sides_of(alloc, &slip.changes)?;
    rows::insert_slip(tx, number, slip.keep, slip.gone, slip.is_undone)?;
    write_sides(alloc, tx, number, &sides)?;
    Ok(())
}

/// The sides of changes, in order.
fn sides_of(alloc: Global, changes: &[Change]) -> Result<Vec<SlipSide>, AllocError>
    ensures sides { IfOk result (λ sides. sides.items ≡ flat_map sides_stored changes.now) }
    ensures shallow { IfOk result (λ _. EachOf IsShallowChange changes.now) }
{
    let mut sides = Vec::new(alloc);
    'changes: for change in changes {
        add_change(alloc, &mut sides, change)?;
    }
    Ok(sides)
}

/// Adds the side of the old record of a change, and then that of the new one, where there is one.
fn add_change(alloc: Global, sides: &mut Vec<SlipSide>, change: &Change) -> Result<(), AllocError>
    ensures added { OnOk result (sides.new.items ≡ sides.old.items ++ sides_stored change.now) }
    ensures shallow { OnOk result (IsShallowChange change.now) }
{
    add_side(alloc, sides, false, change.number, &change.old)?;
    add_new_side(alloc, sides, change.number, &change.new)
}

/// Adds the side of the new record of a number, where it has one.
fn add_new_side(
    alloc: Global,
    sides: &mut Vec<SlipSide>,
    number: u32,
    record: &Option<Record>,
) -> Result<(), AllocError>
    ensures added { OnOk result (sides.new.items ≡ sides.old.items ++ new_sides_stored number «record».now) }
    ensures shallow { OnOk result (IsShallowOption «record».now) }
{
    match record {
        Some(record) => add_side(alloc, sides, true, number, record),
        None => Ok(()),
    }
}

/// Adds one side of a number, with all that is stored of its record.
fn add_side(
    alloc: Global,
    sides: &mut Vec<SlipSide>,
    is_new: bool,
    number: u32,
    record: &Record,
) -> Result<(), AllocError>
    ensures added { OnOk result (sides.new.items ≡ sides.old.items ++ (is_new, (number, stored «record».now)) ∷ []) }
    ensures shallow { OnOk result (IsShallow «record».now) }
{
    let lines = lines_of(alloc, record)?;
    push_side(
        sides,
        SlipSide {
            is_new,
            number,
            lines,
        },
    )
}

/// Adds a side at the end.
fn push_side(sides: &mut Vec<SlipSide>, side: SlipSide) -> Result<(), AllocError>
    ensures { OnOk result (sides.new.items ≡ sides.old.items ++ side ∷ []) }
{
    sides.push(side)?;
    Ok(())
}
