//! The slips of an archive, a line each.

ghost use Rattle.std.specs.Prelude.{◌≡◌, ◌∷◌, ◌++◌, [], ◌==◌, ◌||◌, ◌<◌, ℕ, not, IfOk, OnOk, string_bytes};
ghost use Rattle.std.specs.BTreeSet as set;
ghost use Rattle.std.specs.FinMap as map;
ghost use Rattle.std.specs.List.{filter, flat_map, list_any};
ghost use Rattle.std.specs.Ordering.{nat_cmp};
ghost use Rattle.archive_state.specs.Looks.{CountsFailures, Looked};
ghost use Rattle.archive_state.specs.Views.{On};
ghost use Rattle.showing.specs.SlipLists as lists;

use crate::slips::push_words;
use archive_state::{Slip, View};
use record_text::RefusalKind;
use searching::Line;
use std::alloc::{AllocError, Global};
use std::collections::BTreeSet;

/// Numbers have 32 bits.
const END: u64 = 4_294_967_296;

/// The lines of the slips after a number, by number, so many at most. Numbers that records have are not looked at for
/// slips. Nothing is changed.
pub fn slip_page<V: View>(
    alloc: Global,
    view: &mut V,
    after: u32,
    limit: usize,
) -> Result<Vec<Line>, RefusalKind>
    ensures shows { On V.View view.old view.new (λ c. Looked result
        (λ found. found.items ≡ lists.slip_page after limit c)) }
    ensures counts { CountsFailures (V.failed view.old) (V.failed view.new) result }
{
    let taken = view.record_numbers(alloc)?;
    let next = view.next(alloc)?;
    let numbers = free_numbers(alloc, &taken, after, next)?;
    let mut lines = lines_at(alloc, view, &numbers)?;
    lines.truncate(limit);
    Ok(lines)
}

/// The lines of the slips of these numbers.
fn lines_at<V: View>(alloc: Global, view: &mut V, numbers: &[u32]) -> Result<Vec<Line>, RefusalKind>
    ensures shows { On V.View view.old view.new (λ c. Looked result
        (λ found. found.items ≡ flat_map (λ n. lists.line_at n (map.get c.slips n)) numbers.now)) }
    ensures counts { CountsFailures (V.failed view.old) (V.failed view.new) result }
{
    let mut lines = Vec::new(alloc);
    'each: for number in numbers {
        push_at(alloc, view, &mut lines, *number)?;
    }
    Ok(lines)
}

/// Adds the line of the slip of a number, if there is one.
fn push_at<V: View>(
    alloc: Global,
    view: &mut V,
    lines: &mut Vec<Line>,
    number: u32,
) -> Result<(), RefusalKind>
    ensures shows { On V.View view.old view.new (λ c. Looked result (λ _. lines.new.items
        ≡ lines.old.items ++ lists.line_at number (map.get c.slips number))) }
    ensures counts { CountsFailures (V.failed view.old) (V.failed view.new) result }
{
    let found = view.slip(alloc, number)?;
    match push_found(alloc, lines, number, found) {
        Ok(()) => Ok(()),
        Err(_) => Err(RefusalKind::OutOfMemory),
    }
}

/// The slip is given back here.
fn push_found(
    alloc: Global,
    lines: &mut Vec<Line>,
    number: u32,
    found: Option<Slip>,
) -> Result<(), AllocError>
    ensures { OnOk result (lines.new.items ≡ lines.old.items ++ lists.line_at number found) }
{
    match &found {
        None => Ok(()),
        Some(slip) => push_slip(alloc, lines, number, slip),
    }
}

fn push_slip(
    alloc: Global,
    lines: &mut Vec<Line>,
    number: u32,
    slip: &Slip,
) -> Result<(), AllocError>
    ensures { OnOk result (lines.new.items ≡ lines.old.items ++ (number, lists.slip_line number slip.now) ∷ []) }
{
    let text = slip_line(alloc, number, slip)?;
    lines.push(Line { number, text })?;
    Ok(())
}

/// The line of a slip, without a line end.
fn slip_line(alloc: Global, number: u32, slip: &Slip) -> Result<String, AllocError>
    ensures { IfOk result (λ s. string_bytes s ≡ lists.slip_line number slip.now) }
{
    let mut out = String::new(alloc);
    write!(out, "{number}  slip  ")?;
    push_words(&mut out, slip)?;
    Ok(out)
}

/// The numbers after one and below the next one that are none of these.
fn free_numbers(alloc: Global, taken: &[u32], after: u32, next: u64) -> Result<Vec<u32>, AllocError>
    ensures { IfOk result (λ found. found.items ≡ lists.free_numbers taken.now after next) }
{
    let taken = set_of(alloc, taken)?;
    let first = after as u64 + 1;
    let mut found = Vec::new(alloc);
    let count = next.min(END).saturating_sub(first);
    'numbers: for before in 0..count {
        push_free(&mut found, &taken, first + before)?;
    }
    Ok(found)
}

/// Adds a number that is not among others.
fn push_free(found: &mut Vec<u32>, taken: &BTreeSet<u32>, number: u64) -> Result<(), AllocError>
    requires { number < 4294967296 }
    ensures { OnOk result (found.new.items
        ≡ found.old.items ++ filter (λ n. not (set.contains nat_cmp taken.now n)) (number ∷ [])) }
{
    let low = number as u32;
    if !taken.contains(&low) {
        found.push(low)?;
    }
    Ok(())
}

fn set_of(alloc: Global, numbers: &[u32]) -> Result<BTreeSet<u32>, AllocError>
    ensures { IfOk result (λ found. (n : ℕ) → set.contains nat_cmp found n ≡ list_any (λ k. k == n) numbers.now) }
{
    let mut found = BTreeSet::new(alloc);
    'each: for number in numbers {
        put(&mut found, *number)?;
    }
    Ok(found)
}

fn put(found: &mut BTreeSet<u32>, number: u32) -> Result<(), AllocError>
    ensures { OnOk result ((n : ℕ) → set.contains nat_cmp found.new n
        ≡ (set.contains nat_cmp found.old n || number == n)) }
{
    found.insert(number)?;
    Ok(())
}
