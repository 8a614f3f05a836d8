//! The changes of a slip, read from its stored lines: those of each old record, and after them those of the new
//! one where there is one.

ghost use Rattle.std.specs.Prelude.{◌≡◌, ◌⊎◌, ◌<◌, ◌≤◌, List, [], ◌∷◌, ◌++◌, map, length, IfOk, IfErr, OnOk};
ghost use Rattle.std.specs.List.{flat_map, list_all, position_or_len};
ghost use Rattle.record_text.specs.declared.refusal.RefusalKind.TheVariants as kinds;
ghost use Rattle.store_rows.specs.Meaning.{change_lines};
ghost use Rattle.store_rows.specs.Sides.{
  side_lines_in,
  lines_of_side,
  sides_of_change,
  begins_side,
  first_length,
  begins_new,
  first_new,
  after_new,
  is_of,
  NoSide,
  NoSides,
  NoPairs,
  NoChanges,
};

use archive_state::Change;
use record_kinds::Record;
use record_text::RefusalKind;
use records::record_of;
use std::alloc::{AllocError, Global};
use std::collections::VecDeque;
use store_tables::SlipLineRow;
use stored_lines::{StoredLine, copied};

/// The record that a number had before a merge, or the one that it has after it.
#[derive(Drop)]
struct Side {
    is_new: bool,
    number: u32,
    record: Record,
}

/// The changes of a slip, from its lines in order. 40: these are the lines of no changes.
pub(crate) fn changes_of(alloc: Global, lines: &[SlipLineRow]) -> Result<Vec<Change>, RefusalKind>
    ensures read { IfOk result (λ changes. side_lines_in lines.now ≡ flat_map change_lines changes.items) }
    ensures refused { IfErr result (λ kind. (kind ≡ kinds.OutOfMemory)
        ⊎ ((kind ≡ kinds.BadStored) × NoChanges (side_lines_in lines.now))) }
{
    let sides = sides_of(alloc, lines)?;
    paired(alloc, sides)
}

/// The sides that lines are of, in order. 40: these are the lines of no sides.
fn sides_of(alloc: Global, lines: &[SlipLineRow]) -> Result<VecDeque<Side>, RefusalKind>
    ensures read { IfOk result (λ sides. side_lines_in lines.now ≡ flat_map lines_of_side sides.items) }
    ensures refused { IfErr result (λ kind. (kind ≡ kinds.OutOfMemory)
        ⊎ ((kind ≡ kinds.BadStored) × NoSides (side_lines_in lines.now))) }
{
    let mut sides = VecDeque::new(alloc);
    let mut rest = lines;
    'sides: while !rest.is_empty() {
        let (first, others) = rest.split_at(first_side(rest));
        let side = side_of(alloc, first)?;
        push_side(&mut sides, side)?;
        rest = others;
    }
    Ok(sides)
}

/// Adds a side at the end.
fn push_side(sides: &mut VecDeque<Side>, side: Side) -> Result<(), AllocError>
    ensures { OnOk result (sides.new.items ≡ sides.old.items ++ side ∷ []) }
{
    sides.push_back(side)?;
    Ok(())
}

/// How many lines the first side has: its own first line, and all before the next that begins one.
pub fn first_side(lines: &[SlipLineRow]) -> usize
    requires { 0 < length lines.now }
    ensures within { (0 < result) × (result ≤ length lines.now) }
    ensures length { result ≡ first_length (side_lines_in lines.now) }
{
    next_start(&lines[1..]) + 1
}

/// Where the first of these lines is that begins a side; their length where none does.
fn next_start(lines: &[SlipLineRow]) -> usize
    ensures within { result ≤ length lines.now }
    ensures start { result ≡ position_or_len (λ r. begins_side r.1) lines.now }
{
    'lines: for (at, row) in lines.iter().enumerate() {
        if is_start(row) {
            return at;
        }
    }
    lines.len()
}

/// Whether a line begins a side.
fn is_start(row: &SlipLineRow) -> bool
    ensures { result ≡ begins_side row.now.1 }
{
    row.line.depth == 0
}

/// The side that lines are of. 40: these are not the lines of one side.
fn side_of(alloc: Global, lines: &[SlipLineRow]) -> Result<Side, RefusalKind>
    ensures read { IfOk result (λ side. side_lines_in lines.now ≡ lines_of_side side) }
    ensures refused { IfErr result (λ kind. (kind ≡ kinds.OutOfMemory)
        ⊎ ((kind ≡ kinds.BadStored) × NoSide (side_lines_in lines.now))) }
{
    let Some(first) = lines.first() else {
        return Err(RefusalKind::BadStored);
    };
    if !are_of_side(lines, first.is_new, first.number) {
        return Err(RefusalKind::BadStored);
    }
    let stored = stored_in(alloc, lines)?;
    Ok(Side {
        is_new: first.is_new,
        number: first.number,
        record: record_of(alloc, &stored)?,
    })
}

/// Whether all lines are of one side and number.
pub fn are_of_side(lines: &[SlipLineRow], is_new: bool, number: u32) -> bool
    ensures { result ≡ list_all (λ r. is_of is_new number r.1) lines.now }
{
    lines
        .iter()
        .all(|row| row.is_new == is_new && row.number == number)
}

/// What is stored in lines of one side.
pub fn stored_in(alloc: Global, lines: &[SlipLineRow]) -> Result<Vec<StoredLine>, AllocError>
    ensures { IfOk result (λ stored. stored.items ≡ map (λ r. r.1.1.1) lines.now) }
{
    let mut stored = Vec::new(alloc);
    'rows: for row in lines {
        stored.push(copy_line(alloc, &row.line)?)?;
    }
    Ok(stored)
}

/// The same line in memory of its own.
fn copy_line(alloc: Global, line: &StoredLine) -> Result<StoredLine, AllocError>
    ensures { IfOk result (λ l. l ≡ line.now) }
{
    Ok(StoredLine {
        depth: line.depth,
        tag: line.tag.copy(alloc)?,
        text: copied(alloc, &line.text)?,
        target: line.target,
    })
}

/// The changes that sides are of. 40: these are the sides of no changes.
fn paired(alloc: Global, mut sides: VecDeque<Side>) -> Result<Vec<Change>, RefusalKind>
    ensures read { IfOk result (λ changes. sides.items ≡ flat_map sides_of_change changes.items) }
    ensures refused { IfErr result (λ kind. (kind ≡ kinds.OutOfMemory)
        ⊎ ((kind ≡ kinds.BadStored) × NoPairs sides.items)) }
{
    let mut changes = Vec::new(alloc);
    'sides: while let Some(side) = sides.pop_front() {
        if side.is_new {
            return Err(RefusalKind::BadStored);
        }
        let new = take_new(&mut sides, side.number);
        push_change(
            &mut changes,
            Change {
                number: side.number,
                old: side.record,
                new,
            },
        )?;
    }
    Ok(changes)
}

/// Adds a change at the end.
fn push_change(changes: &mut Vec<Change>, change: Change) -> Result<(), AllocError>
    ensures { OnOk result (changes.new.items ≡ changes.old.items ++ change ∷ []) }
{
    changes.push(change)?;
    Ok(())
}

/// Takes the new record of a number off the front, where there is one.
fn take_new(sides: &mut VecDeque<Side>, number: u32) -> Option<Record>
    ensures taken { result ≡ first_new number sides.old.items }
    ensures left { sides.new.items ≡ after_new number sides.old.items }
{
    if !is_new_first(sides, number) {
        return None;
    }
    match sides.pop_front() {
        Some(side) => Some(side.record),
        None => None,
    }
}

/// Whether a new side of a number is at the front.
fn is_new_first(sides: &VecDeque<Side>, number: u32) -> bool
    ensures { result ≡ begins_new number sides.now.items }
{
    match sides.front() {
        Some(side) => side.is_new && side.number == number,
        None => false,
    }
}
