//! The rows of the first version, read anew.

ghost use Rattle.std.specs.Prelude.{ℕ, ◌≡◌, ◌⊎◌, ◌∷◌, [], ◌++◌, List, true, IfErr, IfOk, OnOk};
ghost use Rattle.std.specs.BTreeSet as set;
ghost use Rattle.std.specs.Ordering.{nat_cmp};
ghost use Rattle.record_text.specs.declared.refusal.RefusalKind.TheVariants as kinds;
ghost use Rattle.archive_state.specs.Content.{Content};
ghost use Rattle.records.specs.Stored.{stored};
ghost use Rattle.date_spans.specs.Spans.{IsSpanOf, date_in};
ghost use Rattle.older_archives.specs.RecordReading.{WasKeptAsNone};
ghost use Rattle.store_tables.specs.Reading.{read_of};
ghost use Rattle.store_tables.specs.Rows as tables;
ghost use Rattle.store_rows.specs.Grouped.{IsRefusedBy, group_at, items_at, slip_group_at};
ghost use Rattle.store_rows.specs.Sought.{sought_of};
ghost use Rattle.older_archives.specs.Meaning.{MeansAnew};
ghost use Rattle.older_archives.specs.Reading.{
  AreChangesAnewOf,
  AreRecordsAnew,
  AreSlipsAnew,
  LacksOldChanges,
  LacksOldRecord,
  WereNoChanges,
};
ghost use Rattle.older_archives.specs.Renewing.{IsAnewOf, IsRenewed, with_renewal};

use crate::anew::{Anew, RecordAnew, Renewal, SlipAnew};
use crate::reading::{ReadAnew, read_anew};
use crate::sides::sides_anew;
use date_spans::span_of;
use record_kinds::Record;
use record_text::RefusalKind;
use records::lines_of;
use std::alloc::{AllocError, Global};
use std::collections::{BTreeMap, BTreeSet};
use store_rows::grouping::{closed_batches, grouped_lines, grouped_slip_lines};
use store_rows::sought_of;
use store_tables::{RecordRow, SlipLineRow, SlipRow, SlipSide, StoredRows};
use stored_lines::StoredLine;

/// What all records of closed batches and all slips are today, whichever rows of the first version were read as these.
/// 40: these are no rows of an archive of that time.
pub fn renewal_of(alloc: Global, read: StoredRows) -> Result<Renewal, RefusalKind>
    ensures read { IfOk result (λ renewal. (rows : tables.Rows) (c : Content) → read_of rows ≡ read
        → rows.spans ≡ [] → rows.soughts ≡ [] → MeansAnew rows c
        → IsRenewed rows c (with_renewal renewal rows)) }
    ensures refused { IfErr result (λ kind. (kind ≡ kinds.OutOfMemory) ⊎ ((kind ≡ kinds.BadStored)
        × ((rows : tables.Rows) (c : Content) → read_of rows ≡ read → ¬ (MeansAnew rows c)))) }
{
    let StoredRows {
        next: _,
        batches,
        records,
        lines,
        packs,
        receipts,
        slips,
        slip_lines,
    } = read;
    drop(receipts);
    let closed = closed_batches(alloc, &batches)?;
    let groups = grouped_lines(alloc, lines, packs)?;
    let records = records_anew(alloc, &closed, &groups, &records)?;
    let slip_groups = grouped_slip_lines(alloc, slip_lines)?;
    let slips = slips_anew(alloc, &slip_groups, &slips)?;
    Ok(Renewal { records, slips })
}

/// The records of rows of closed batches, read anew.
fn records_anew(
    alloc: Global,
    closed: &BTreeSet<u32>,
    groups: &BTreeMap<u32, Vec<StoredLine>>,
    rows: &[RecordRow],
) -> Result<Vec<RecordAnew>, RefusalKind>
    ensures read { IfOk result (λ found. AreRecordsAnew (set.contains nat_cmp closed.now) (group_at groups.now)
        rows.now found.items) }
    ensures refused { IfErr result (IsRefusedBy
        (LacksOldRecord (set.contains nat_cmp closed.now) rows.now (group_at groups.now))) }
{
    let mut found = Vec::new(alloc);
    'rows: for row in rows {
        add_record(alloc, closed, groups, row, &mut found)?;
    }
    Ok(found)
}

/// Adds the record of a row, where its batch is closed.
fn add_record(
    alloc: Global,
    closed: &BTreeSet<u32>,
    groups: &BTreeMap<u32, Vec<StoredLine>>,
    row: &RecordRow,
    found: &mut Vec<RecordAnew>,
) -> Result<(), RefusalKind>
    ensures read { OnOk result ((rows : List (ℕ × ℕ))
        → AreRecordsAnew (set.contains nat_cmp closed.now) (group_at groups.now) rows found.old.items
        → AreRecordsAnew (set.contains nat_cmp closed.now) (group_at groups.now) (rows ++ row.now ∷ [])
        found.new.items) }
    ensures refused { IfErr result (IsRefusedBy
        ((set.contains nat_cmp closed.now row.now.1 ≡ true) × WasKeptAsNone (group_at groups.now row.now.0))) }
{
    if closed.contains(&row.batch) {
        let anew = anew_at(alloc, groups, row.number)?;
        push(
            found,
            RecordAnew {
                number: row.number,
                anew,
            },
        )?;
    }
    Ok(())
}

/// What the record that was kept as the lines of a number is today.
fn anew_at(
    alloc: Global,
    groups: &BTreeMap<u32, Vec<StoredLine>>,
    number: u32,
) -> Result<Anew, RefusalKind>
    ensures read { IfOk result (λ anew. IsAnewOf (group_at groups.now number) anew) }
    ensures refused { IfErr result (IsRefusedBy (WasKeptAsNone (group_at groups.now number))) }
{
    match groups.get(&number) {
        Some(lines) => anew_of(alloc, lines),
        None => anew_of(alloc, &[]),
    }
}

/// What the record that was kept as these lines is today.
pub(crate) fn anew_of(alloc: Global, lines: &[StoredLine]) -> Result<Anew, RefusalKind>
    ensures read { IfOk result (λ anew. IsAnewOf lines.now anew) }
    ensures refused { IfErr result (IsRefusedBy (WasKeptAsNone lines.now)) }
{
    match read_anew(alloc, lines)? {
        ReadAnew::Stays(found) => Ok(kept(alloc, &found)?),
        ReadAnew::Changes(found) => Ok(kept(alloc, &found)?),
    }
}

/// A record as it is kept today, with its span and what it is looked for by.
fn kept(alloc: Global, found: &Record) -> Result<Anew, AllocError>
    ensures lines { IfOk result (λ anew. anew.lines ≡ stored found.now) }
    ensures span { IfOk result (λ anew. IsSpanOf (date_in found.now) anew.span) }
    ensures sought { IfOk result (λ anew. anew.sought ≡ sought_of found.now) }
{
    Ok(Anew {
        lines: lines_of(alloc, found)?,
        span: span_of(alloc, found)?,
        sought: sought_of(alloc, found)?,
    })
}

/// The slips of rows, read anew.
fn slips_anew(
    alloc: Global,
    groups: &BTreeMap<u32, Vec<SlipLineRow>>,
    rows: &[SlipRow],
) -> Result<Vec<SlipAnew>, RefusalKind>
    ensures read { IfOk result (λ found. AreSlipsAnew (slip_group_at groups.now) rows.now found.items) }
    ensures refused { IfErr result (IsRefusedBy (LacksOldChanges rows.now (slip_group_at groups.now))) }
{
    let mut found = Vec::new(alloc);
    'rows: for row in rows {
        add_slip(alloc, groups, row.number, &mut found)?;
    }
    Ok(found)
}

/// Adds the slip of a number.
fn add_slip(
    alloc: Global,
    groups: &BTreeMap<u32, Vec<SlipLineRow>>,
    number: u32,
    found: &mut Vec<SlipAnew>,
) -> Result<(), RefusalKind>
    ensures read { OnOk result ((rows : List tables.SlipRow) (row : tables.SlipRow) → row.no ≡ number
        → AreSlipsAnew (slip_group_at groups.now) rows found.old.items
        → AreSlipsAnew (slip_group_at groups.now) (rows ++ row ∷ []) found.new.items) }
    ensures refused { IfErr result (IsRefusedBy (WereNoChanges (slip_group_at groups.now number))) }
{
    let sides = sides_at(alloc, groups, number)?;
    push(found, SlipAnew { number, sides })?;
    Ok(())
}

/// The records of a slip of a number.
fn sides_at(
    alloc: Global,
    groups: &BTreeMap<u32, Vec<SlipLineRow>>,
    number: u32,
) -> Result<Vec<SlipSide>, RefusalKind>
    ensures read { IfOk result (λ sides. AreChangesAnewOf (slip_group_at groups.now number) sides.items) }
    ensures refused { IfErr result (IsRefusedBy (WereNoChanges (slip_group_at groups.now number))) }
{
    match groups.get(&number) {
        Some(lines) => sides_anew(alloc, lines),
        None => sides_anew(alloc, &[]),
    }
}

/// Adds an item at the end.
pub(crate) fn push<T: Drop>(items: &mut Vec<T>, item: T) -> Result<(), AllocError>
    ensures { OnOk result (items.new.items ≡ items.old.items ++ item ∷ []) }
{
    items.push(item)?;
    Ok(())
}
