//! The state of an archive, from the rows as they are read.

ghost use Rattle.std.specs.Prelude.{ℕ, ◌≡◌, ◌⊎◌, true, false, IfOk, OnOk, IfErr, List, [], ◌∷◌, ◌++◌, fold};
ghost use Rattle.std.specs.List.{flat_map};
ghost use Rattle.std.specs.FinMap as map;
ghost use Rattle.std.specs.BTreeSet as set;
ghost use Rattle.std.specs.Ordering.{nat_cmp};
ghost use Rattle.records.specs.Stored.{stored};
ghost use Rattle.record_text.specs.declared.refusal.RefusalKind.TheVariants as kinds;
ghost use Rattle.store_tables.specs.Reading.{read_of};
ghost use Rattle.store_tables.specs.Rows as tables;
ghost use Rattle.store_rows.specs.Meaning.{AreReadable, Means, is_closed, change_lines, slip_row};
ghost use Rattle.store_rows.specs.Sides.{NoChanges};
ghost use Rattle.store_rows.specs.Grouped.{
  items_at,
  stored_at,
  group_at,
  slip_group_at,
  with_kept,
  AreRecordsOf,
  AreSlipsOf,
  NoRecord,
  LacksRecord,
  LacksChanges,
  IsRefusedBy,
};

use crate::grouping::{closed_batches, grouped_lines, grouped_slip_lines};
use crate::sides::changes_of;
use archive_state::{Change, Slip, State};
use record_kinds::Record;
use record_text::RefusalKind;
use records::record_of;
use std::alloc::{AllocError, Global};
use std::collections::{BTreeMap, BTreeSet};
use store_tables::{
    BatchRow, LineRow, PackRow, ReceiptRow, RecordRow, SlipLineRow, SlipRow, StoredRows,
};
use stored_lines::StoredLine;

/// The state that rows mean, whichever rows were read as these. 40: they are not readable, since batch 0 is not
/// there or not closed, the lines of a number that has a record are those of no record, or the lines of a slip are
/// those of no changes. Lines of a number that has no record in a closed batch are not looked at.
pub(crate) fn state_of(alloc: Global, read: StoredRows) -> Result<State, RefusalKind>
    ensures read { IfOk result (λ s. (rows : tables.Rows) → read_of rows ≡ read → Means rows s) }
    ensures refused { IfErr result (λ kind. (kind ≡ kinds.OutOfMemory)
        ⊎ ((kind ≡ kinds.BadStored) × ((rows : tables.Rows) → read_of rows ≡ read → ¬ (AreReadable rows)))) }
{
    let StoredRows {
        next,
        batches,
        records,
        lines,
        packs,
        receipts,
        slips,
        slip_lines,
    } = read;
    let mut state = State::new(alloc);
    state.set_next(next);
    fill_records(alloc, &mut state, &batches, &records, lines, packs)?;
    fill_slips(alloc, &mut state, &slips, slip_lines)?;
    put_receipts(&mut state, receipts)?;
    Ok(state)
}

/// Puts the records of rows of closed batches, each read from its lines, into a state that has none. 40: batch 0 is
/// not there or not closed, or the lines of a record are those of none.
fn fill_records(
    alloc: Global,
    state: &mut State,
    batches: &[BatchRow],
    rows: &[RecordRow],
    lines: Vec<LineRow>,
    packs: Vec<PackRow>,
) -> Result<(), RefusalKind>
    requires none { state.old.records ≡ map.empty }
    ensures batch { OnOk result (is_closed 0 batches.now ≡ true) }
    ensures read { OnOk result
        (AreRecordsOf (λ n. is_closed n batches.now) (stored_at lines.items packs.items) rows.now
        state.new.records) }
    ensures others { OnOk result (state.new ≡ record state.old { records = state.new.records }) }
    ensures refused { IfErr result (IsRefusedBy
        ((is_closed 0 batches.now ≡ false)
        ⊎ LacksRecord (λ n. is_closed n batches.now) rows.now (stored_at lines.items packs.items))) }
{
    let closed = closed_batches(alloc, batches)?;
    if !closed.contains(&0) {
        return Err(RefusalKind::BadStored);
    }
    let groups = grouped_lines(alloc, lines, packs)?;
    put_records(alloc, state, &closed, &groups, rows)
}

/// Puts the records of rows of closed batches into a state that has none. 40: the lines of one are those of no
/// record.
fn put_records(
    alloc: Global,
    state: &mut State,
    closed: &BTreeSet<u32>,
    groups: &BTreeMap<u32, Vec<StoredLine>>,
    rows: &[RecordRow],
) -> Result<(), RefusalKind>
    requires none { state.old.records ≡ map.empty }
    ensures read { OnOk result
        (AreRecordsOf (set.contains nat_cmp closed.now) (group_at groups.now) rows.now state.new.records) }
    ensures others { OnOk result (state.new ≡ record state.old { records = state.new.records }) }
    ensures refused { IfErr result (IsRefusedBy
        (LacksRecord (set.contains nat_cmp closed.now) rows.now (group_at groups.now))) }
{
    'rows: for row in rows {
        put_row(alloc, state, closed, groups, row)?;
    }
    Ok(())
}

/// Puts the record of a row, where its batch is closed. 40: its lines are those of no record.
fn put_row(
    alloc: Global,
    state: &mut State,
    closed: &BTreeSet<u32>,
    groups: &BTreeMap<u32, Vec<StoredLine>>,
    row: &RecordRow,
) -> Result<(), RefusalKind>
    ensures read { OnOk result ((rows : List (ℕ × ℕ))
        → AreRecordsOf (set.contains nat_cmp closed.now) (group_at groups.now) rows state.old.records
        → AreRecordsOf (set.contains nat_cmp closed.now) (group_at groups.now) (rows ++ row.now ∷ [])
        state.new.records) }
    ensures others { OnOk result (state.new ≡ record state.old { records = state.new.records }) }
    ensures refused { IfErr result (IsRefusedBy
        ((set.contains nat_cmp closed.now row.now.1 ≡ true) × NoRecord (group_at groups.now row.now.0))) }
{
    if closed.contains(&row.batch) {
        let found = record_at(alloc, groups, row.number)?;
        put_record(state, row.number, found)?;
    }
    Ok(())
}

/// The record that is kept as the lines of a number. 40: no record is.
fn record_at(
    alloc: Global,
    groups: &BTreeMap<u32, Vec<StoredLine>>,
    number: u32,
) -> Result<Record, RefusalKind>
    ensures read { IfOk result (λ r. group_at groups.now number ≡ stored r) }
    ensures refused { IfErr result (IsRefusedBy (NoRecord (group_at groups.now number))) }
{
    match groups.get(&number) {
        Some(lines) => record_of(alloc, lines),
        None => record_of(alloc, &[]),
    }
}

/// Puts a record at a number.
fn put_record(state: &mut State, number: u32, value: Record) -> Result<(), AllocError>
    ensures { OnOk result (state.new ≡ record state.old { records = map.insert state.old.records number value }) }
{
    state.put_record(number, value)?;
    Ok(())
}

/// Puts the slips of rows, each with the changes that are read from its lines, into a state that has none. Of two
/// rows of one number the first is meant. 40: the lines of one are those of no changes.
fn fill_slips(
    alloc: Global,
    state: &mut State,
    rows: &[SlipRow],
    lines: Vec<SlipLineRow>,
) -> Result<(), RefusalKind>
    requires none { state.old.slips ≡ map.empty }
    ensures read { OnOk result (AreSlipsOf (λ n. items_at n lines.items) rows.now state.new.slips) }
    ensures others { OnOk result (state.new ≡ record state.old { slips = state.new.slips }) }
    ensures refused { IfErr result (IsRefusedBy (LacksChanges rows.now (λ n. items_at n lines.items))) }
{
    let groups = grouped_slip_lines(alloc, lines)?;
    put_slips(alloc, state, &groups, rows)
}

/// Puts the slips of rows into a state that has none. 40: the lines of one are those of no changes.
fn put_slips(
    alloc: Global,
    state: &mut State,
    groups: &BTreeMap<u32, Vec<SlipLineRow>>,
    rows: &[SlipRow],
) -> Result<(), RefusalKind>
    requires none { state.old.slips ≡ map.empty }
    ensures read { OnOk result (AreSlipsOf (slip_group_at groups.now) rows.now state.new.slips) }
    ensures others { OnOk result (state.new ≡ record state.old { slips = state.new.slips }) }
    ensures refused { IfErr result (IsRefusedBy (LacksChanges rows.now (slip_group_at groups.now))) }
{
    'rows: for row in rows {
        put_slip_row(alloc, state, groups, row)?;
    }
    Ok(())
}

/// Puts the slip of a row, where its number has none yet. 40: its lines are those of no changes.
fn put_slip_row(
    alloc: Global,
    state: &mut State,
    groups: &BTreeMap<u32, Vec<SlipLineRow>>,
    row: &SlipRow,
) -> Result<(), RefusalKind>
    ensures read { OnOk result ((rows : List tables.SlipRow)
        → AreSlipsOf (slip_group_at groups.now) rows state.old.slips
        → AreSlipsOf (slip_group_at groups.now) (rows ++ row.now ∷ []) state.new.slips) }
    ensures others { OnOk result (state.new ≡ record state.old { slips = state.new.slips }) }
    ensures refused { IfErr result (IsRefusedBy (NoChanges (slip_group_at groups.now row.now.no))) }
{
    if state.slip(row.number).is_none() {
        let slip = slip_of(alloc, groups, row)?;
        put_slip(state, row.number, slip)?;
    }
    Ok(())
}

/// The slip of a row. 40: its lines are those of no changes.
fn slip_of(
    alloc: Global,
    groups: &BTreeMap<u32, Vec<SlipLineRow>>,
    row: &SlipRow,
) -> Result<Slip, RefusalKind>
    ensures row { IfOk result (λ s. row.now ≡ slip_row row.now.no s) }
    ensures changes { IfOk result (λ s. slip_group_at groups.now row.now.no ≡ flat_map change_lines s.changes) }
    ensures refused { IfErr result (IsRefusedBy (NoChanges (slip_group_at groups.now row.now.no))) }
{
    Ok(Slip {
        keep: row.keep,
        gone: row.gone,
        changes: changes_at(alloc, groups, row.number)?,
        is_undone: row.is_undone,
    })
}

/// The changes that are kept as the lines of a slip. 40: no changes are.
fn changes_at(
    alloc: Global,
    groups: &BTreeMap<u32, Vec<SlipLineRow>>,
    slip: u32,
) -> Result<Vec<Change>, RefusalKind>
    ensures read { IfOk result (λ cs. slip_group_at groups.now slip ≡ flat_map change_lines cs.items) }
    ensures refused { IfErr result (IsRefusedBy (NoChanges (slip_group_at groups.now slip))) }
{
    match groups.get(&slip) {
        Some(lines) => changes_of(alloc, lines),
        None => changes_of(alloc, &[]),
    }
}

/// Puts a slip at a number.
fn put_slip(state: &mut State, number: u32, slip: Slip) -> Result<(), AllocError>
    ensures { OnOk result (state.new ≡ record state.old { slips = map.insert state.old.slips number slip }) }
{
    state.put_slip(number, slip)?;
    Ok(())
}

/// Keeps the receipts of rows. Of two with one token the later one is kept.
fn put_receipts(state: &mut State, rows: Vec<ReceiptRow>) -> Result<(), AllocError>
    ensures { OnOk result
        (state.new ≡ record state.old { receipts = fold with_kept state.old.receipts rows.items }) }
{
    'rows: for row in rows {
        let ReceiptRow { token, receipt } = row;
        state.put_receipt(token, receipt)?;
    }
    Ok(())
}
