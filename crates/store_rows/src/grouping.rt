//! Items put together by numbers.

ghost use Rattle.std.specs.Prelude.{ℕ, List, ◌≡◌, IfOk, OnOk, [], ◌∷◌, ◌++◌, ◌==◌, if◌then◌else◌};
ghost use Rattle.std.specs.BTreeSet as set;
ghost use Rattle.std.specs.Ordering.{nat_cmp};
ghost use Rattle.store_rows.specs.Grouped.{items_at, group_at, slip_group_at, stored_at};
ghost use Rattle.std.specs.List.{flat_map};
ghost use Rattle.stored_lines.specs.Line.{Label};
ghost use Rattle.store_rows.specs.Meaning.{is_closed};

use std::alloc::{AllocError, Global};
use std::collections::{BTreeMap, BTreeSet};
use store_tables::{BatchRow, LineRow, PackRow, SlipLineRow};
use stored_lines::StoredLine;

/// The numbers of the closed batches.
pub fn closed_batches(alloc: Global, batches: &[BatchRow]) -> Result<BTreeSet<u32>, AllocError>
    ensures { IfOk result (λ closed. (n : ℕ) → set.contains nat_cmp closed n ≡ is_closed n batches.now) }
{
    let mut closed: BTreeSet<u32> = BTreeSet::new(alloc);
    'batches: for batch in batches {
        if !batch.is_open {
            closed.insert(batch.number)?;
        }
    }
    Ok(closed)
}

/// The lines of each number, in order, whether they have rows of their own or one row.
pub fn grouped_lines(
    alloc: Global,
    rows: Vec<LineRow>,
    packs: Vec<PackRow>,
) -> Result<BTreeMap<u32, Vec<StoredLine>>, AllocError>
    ensures { IfOk result (λ groups. (n : ℕ) → group_at groups n ≡ stored_at rows.items packs.items n) }
{
    let groups = grouped_rows(alloc, rows)?;
    with_packs(groups, packs)
}

/// The lines of each number, of which each has a row of its own.
fn grouped_rows(
    alloc: Global,
    rows: Vec<LineRow>,
) -> Result<BTreeMap<u32, Vec<StoredLine>>, AllocError>
    ensures { IfOk result (λ groups. (n : ℕ) → group_at groups n ≡ items_at n rows.items) }
{
    let mut groups: BTreeMap<u32, Vec<StoredLine>> = BTreeMap::new(alloc);
    'rows: for row in rows {
        let LineRow { number, line } = row;
        push_to(alloc, &mut groups, number, line)?;
    }
    Ok(groups)
}

/// Adds the lines of numbers that have all of them in one row.
fn with_packs(
    groups: BTreeMap<u32, Vec<StoredLine>>,
    packs: Vec<PackRow>,
) -> Result<BTreeMap<u32, Vec<StoredLine>>, AllocError>
    ensures { IfOk result (λ all. (n : ℕ) → group_at all n
        ≡ group_at groups n ++ flat_map (λ (ls : List (ℕ × Label)). ls) (items_at n packs.items)) }
{
    let mut all = groups;
    'packs: for pack in packs {
        let PackRow { number, lines } = pack;
        append_to(&mut all, number, lines)?;
    }
    Ok(all)
}

/// The lines of each slip, in order.
pub fn grouped_slip_lines(
    alloc: Global,
    rows: Vec<SlipLineRow>,
) -> Result<BTreeMap<u32, Vec<SlipLineRow>>, AllocError>
    ensures { IfOk result (λ groups. (n : ℕ) → slip_group_at groups n ≡ items_at n rows.items) }
{
    let mut groups: BTreeMap<u32, Vec<SlipLineRow>> = BTreeMap::new(alloc);
    'rows: for row in rows {
        push_to(alloc, &mut groups, row.slip, row)?;
    }
    Ok(groups)
}

/// One more item under a number.
fn push_to<T: Drop>(
    alloc: Global,
    groups: &mut BTreeMap<u32, Vec<T>>,
    number: u32,
    item: T,
) -> Result<(), AllocError>
    ensures { OnOk result ((n : ℕ) → group_at groups.new n
        ≡ (if number == n then group_at groups.old n ++ item ∷ [] else group_at groups.old n)) }
{
    if let Some(group) = groups.get_mut(&number) {
        group.push(item)?;
        return Ok(());
    }
    let mut group = Vec::new(alloc);
    group.push(item)?;
    groups.insert(number, group)?;
    Ok(())
}

/// More items under a number.
fn append_to<T: Drop>(
    groups: &mut BTreeMap<u32, Vec<T>>,
    number: u32,
    mut items: Vec<T>,
) -> Result<(), AllocError>
    ensures { OnOk result ((n : ℕ) → group_at groups.new n
        ≡ (if number == n then group_at groups.old n ++ items.items else group_at groups.old n)) }
{
    if let Some(group) = groups.get_mut(&number) {
        group.append(&mut items)?;
        return Ok(());
    }
    groups.insert(number, items)?;
    Ok(())
}
