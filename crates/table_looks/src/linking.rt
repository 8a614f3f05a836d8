//! Has each record of a state its links among those of the tables?

ghost use Rattle.std.specs.Prelude.{ℕ, ◌≡◌, IfOk, MatchOption};
ghost use Rattle.std.specs.BTreeSet as set;
ghost use Rattle.std.specs.FinMap.{get};
ghost use Rattle.store_rows.specs.Links.{has_link};
ghost use Rattle.record_shapes.specs.Lists.{EachOf};
ghost use Rattle.table_looks.specs.Linking.{
  AreLinesLinked,
  HaveLinks,
  IsLinked,
  LacksLine,
  LacksLink,
  NamesUnlinked,
  is_line_linked,
  pair_order,
};

use archive_state::State;
use records::lines_of;
use std::alloc::{AllocError, Global};
use std::collections::BTreeSet;
use store_tables::LinkRow;
use stored_lines::StoredLine;

/// The lowest number whose record names another one without a link, and one that it names so. `None`: each record has
/// its links. Each row and each line of a record is looked at once.
pub(crate) fn first_unlinked(
    alloc: Global,
    held: &State,
    rows: Vec<LinkRow>,
) -> Result<Option<(u32, u32)>, AllocError>
    ensures { IfOk result (λ o. MatchOption o (HaveLinks rows.items held.now)
        (λ pair. LacksLink held.now rows.items pair.0 pair.1)) }
{
    let links = gathered(alloc, rows)?;
    let numbers = held.record_numbers(alloc)?;
    first_without(alloc, held, &links, numbers.as_slice())
}

/// The links as pairs of the number that is named and that of the record.
fn gathered(alloc: Global, rows: Vec<LinkRow>) -> Result<BTreeSet<(u32, u32)>, AllocError>
    ensures { IfOk result (λ links. (target n : ℕ)
        → set.contains pair_order links (target, n) ≡ has_link target n rows.items) }
{
    let mut links: BTreeSet<(u32, u32)> = BTreeSet::new(alloc);
    'rows: for row in rows {
        links.insert((row.target, row.number))?;
    }
    Ok(links)
}

/// The first of the numbers whose record names another one without a link.
fn first_without(
    alloc: Global,
    held: &State,
    links: &BTreeSet<(u32, u32)>,
    numbers: &[u32],
) -> Result<Option<(u32, u32)>, AllocError>
    ensures { IfOk result (λ o. MatchOption o
        (EachOf (λ n. IsLinked (set.contains pair_order links.now) n (get held.now.records n)) numbers.now)
        (λ pair. LacksLine (set.contains pair_order links.now) pair.0 (get held.now.records pair.0) pair.1)) }
{
    'numbers: for number in numbers {
        if let Some(named) = first_named(alloc, held, links, *number)? {
            return Ok(Some((*number, named)));
        }
    }
    Ok(None)
}

/// The first number that the record of a number names without a link.
fn first_named(
    alloc: Global,
    held: &State,
    links: &BTreeSet<(u32, u32)>,
    number: u32,
) -> Result<Option<u32>, AllocError>
    ensures { IfOk result (λ o. MatchOption o
        (IsLinked (set.contains pair_order links.now) number (get held.now.records number))
        (LacksLine (set.contains pair_order links.now) number (get held.now.records number))) }
{
    let Some(found) = held.record(number) else {
        return Ok(None);
    };
    let lines = lines_of(alloc, found)?;
    Ok(first_target(&lines, links, number))
}

/// The first number that these lines of a number name without a link.
fn first_target(lines: &[StoredLine], links: &BTreeSet<(u32, u32)>, number: u32) -> Option<u32>
    ensures { MatchOption result (AreLinesLinked (set.contains pair_order links.now) number lines.now)
        (λ target. NamesUnlinked (set.contains pair_order links.now) number lines.now target) }
{
    'lines: for line in lines {
        if !is_linked(line.target, links, number) {
            return line.target;
        }
    }
    None
}

/// Whether there is a link to a number, or none is named.
fn is_linked(target: Option<u32>, links: &BTreeSet<(u32, u32)>, number: u32) -> bool
    ensures { result ≡ is_line_linked (set.contains pair_order links.now) number target }
{
    match target {
        Some(target) => links.contains(&(target, number)),
        None => true,
    }
}
