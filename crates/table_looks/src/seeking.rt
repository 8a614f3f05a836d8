//! Is each record of a state looked for by what the tables have?

ghost use Rattle.std.specs.Prelude.{ℕ, ◌≡◌, ◌↔◌, ◌∷◌, [], IfOk, IsTrue, MatchOption, OnOk};
ghost use Rattle.std.specs.BTreeMap as tree;
ghost use Rattle.std.specs.Ordering.{nat_cmp};
ghost use Rattle.record_shapes.specs.Lists.{EachOf};
ghost use Rattle.table_looks.specs.Seeking.{HasSought, HaveSoughts, soughts_in};
ghost use Rattle.table_looks.specs.Spanning.{first_there};

use archive_state::State;
use std::alloc::{AllocError, Global};
use std::collections::BTreeMap;
use store_rows::{SoughtText, sought_of};
use store_tables::SoughtRow;

/// The lowest number whose record is looked for by something else than its row says. `None`: each has its own row. Each
/// row and each record is looked at once.
pub(crate) fn first_unsought(
    alloc: Global,
    held: &State,
    rows: Vec<SoughtRow>,
) -> Result<Option<u32>, AllocError>
    ensures { IfOk result (λ o. MatchOption o (HaveSoughts rows.items held.now)
        (λ n. ¬ (HasSought held.now (soughts_in rows.items) n))) }
{
    let soughts = gathered(alloc, rows)?;
    let numbers = held.record_numbers(alloc)?;
    first_without(alloc, held, &soughts, numbers.as_slice())
}

/// What is looked for, by the numbers; of two rows of one number the first.
fn gathered(alloc: Global, rows: Vec<SoughtRow>) -> Result<BTreeMap<u32, SoughtText>, AllocError>
    ensures { IfOk result (λ soughts. (n : ℕ) → tree.get nat_cmp soughts n ≡ soughts_in rows.items n) }
{
    let mut soughts = BTreeMap::new(alloc);
    'rows: for row in rows {
        add_sought(row, &mut soughts)?;
    }
    Ok(soughts)
}

/// Adds what a row says, where its number has nothing.
fn add_sought(row: SoughtRow, soughts: &mut BTreeMap<u32, SoughtText>) -> Result<(), AllocError>
    ensures { OnOk result ((n : ℕ) → tree.get nat_cmp soughts.new n
        ≡ first_there (tree.get nat_cmp soughts.old n) (soughts_in (row ∷ []) n)) }
{
    if soughts.contains_key(&row.number) {
        return Ok(());
    }
    let SoughtRow {
        number,
        text,
        target,
    } = row;
    soughts.insert(number, SoughtText { text, target })?;
    Ok(())
}

/// The first of the numbers whose record is looked for by something else.
fn first_without(
    alloc: Global,
    held: &State,
    soughts: &BTreeMap<u32, SoughtText>,
    numbers: &[u32],
) -> Result<Option<u32>, AllocError>
    ensures { IfOk result (λ o. MatchOption o (EachOf (HasSought held.now (tree.get nat_cmp soughts.now)) numbers.now)
        (λ n. ¬ (HasSought held.now (tree.get nat_cmp soughts.now) n))) }
{
    'numbers: for number in numbers {
        if !has_own(alloc, held, soughts, *number)? {
            return Ok(Some(*number));
        }
    }
    Ok(None)
}

/// Whether the record of a number is looked for by what it has, where there is one.
fn has_own(
    alloc: Global,
    held: &State,
    soughts: &BTreeMap<u32, SoughtText>,
    number: u32,
) -> Result<bool, AllocError>
    ensures { IfOk result (λ b. IsTrue b ↔ HasSought held.now (tree.get nat_cmp soughts.now) number) }
{
    let Some(found) = held.record(number) else {
        return Ok(true);
    };
    let own = sought_of(alloc, found)?;
    Ok(is_kept(&own, soughts, number))
}

/// Whether a number is looked for by just this, or by nothing where there is none.
fn is_kept(own: &Option<SoughtText>, soughts: &BTreeMap<u32, SoughtText>, number: u32) -> bool
    ensures { IsTrue result ↔ (own.now ≡ tree.get nat_cmp soughts.now number) }
{
    match (own, soughts.get(&number)) {
        (Some(own), Some(kept)) => is_same(own, kept),
        (None, None) => true,
        _ => false,
    }
}

/// Whether two are one.
fn is_same(own: &SoughtText, kept: &SoughtText) -> bool
    ensures { IsTrue result ↔ (own.now ≡ kept.now) }
{
    own.text.as_str() == kept.text.as_str() && is_same_target(own.target, kept.target)
}

/// Whether two numbers are one, or there is neither.
fn is_same_target(target: Option<u32>, other: Option<u32>) -> bool
    ensures { IsTrue result ↔ (target ≡ other) }
{
    match (target, other) {
        (Some(target), Some(other)) => target == other,
        (None, None) => true,
        _ => false,
    }
}
