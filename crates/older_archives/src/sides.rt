//! The records of a slip, read anew from its stored lines.

ghost use Rattle.std.specs.Prelude.{IfErr, IfOk};
ghost use Rattle.store_rows.specs.Grouped.{IsRefusedBy};
ghost use Rattle.store_rows.specs.Sides.{side_lines_in};
ghost use Rattle.older_archives.specs.Reading.{
  AreChangesAnewOf,
  AreSidesAnewOf,
  IsSideAnewOf,
  WasNoSide,
  WereNoChanges,
  WereNoSides,
};

use crate::renewal::{anew_of, push};
use record_text::RefusalKind;
use std::alloc::Global;
use store_rows::sides::{are_of_side, first_side, stored_in};
use store_tables::{SlipLineRow, SlipSide};

/// The records of a slip, from its lines in order. 40: these were the lines of no changes.
pub(crate) fn sides_anew(alloc: Global, lines: &[SlipLineRow]) -> Result<Vec<SlipSide>, RefusalKind>
    ensures read { IfOk result (λ sides. AreChangesAnewOf (side_lines_in lines.now) sides.items) }
    ensures refused { IfErr result (IsRefusedBy (WereNoChanges (side_lines_in lines.now))) }
{
    parted(alloc, lines)
}

/// The sides that lines are of, in order. 40: these were the lines of no sides.
fn parted(alloc: Global, lines: &[SlipLineRow]) -> Result<Vec<SlipSide>, RefusalKind>
    ensures read { IfOk result (λ sides. AreSidesAnewOf (side_lines_in lines.now) sides.items) }
    ensures refused { IfErr result (IsRefusedBy (WereNoSides (side_lines_in lines.now))) }
{
    let mut sides = Vec::new(alloc);
    let mut rest = lines;
    'sides: while !rest.is_empty() {
        let (first, others) = rest.split_at(first_side(rest));
        let side = side_anew(alloc, first)?;
        push(&mut sides, side)?;
        rest = others;
    }
    Ok(sides)
}

/// The side that lines are of. 40: these were not the lines of one side.
fn side_anew(alloc: Global, lines: &[SlipLineRow]) -> Result<SlipSide, RefusalKind>
    ensures read { IfOk result (λ side. IsSideAnewOf (side_lines_in lines.now) side) }
    ensures refused { IfErr result (IsRefusedBy (WasNoSide (side_lines_in lines.now))) }
{
    let Some(first) = lines.first() else {
        return Err(RefusalKind::BadStored);
    };
    if !are_of_side(lines, first.is_new, first.number) {
        return Err(RefusalKind::BadStored);
    }
    let stored = stored_in(alloc, lines)?;
    Ok(SlipSide {
        is_new: first.is_new,
        number: first.number,
        lines: anew_of(alloc, &stored)?.lines,
    })
}
