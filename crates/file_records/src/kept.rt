//! Which line of each person's node is the side in a family.

ghost use Rattle.std.specs.Prelude.{◌≡◌, ℕ, IfOk, OnOk};
ghost use Rattle.import_definitions.specs.Numbers.{or_else};
ghost use Rattle.file_records.specs.Carried.{line_among, line_kept, line_on};

use crate::sides::Side;
use std::alloc::{AllocError, Global};
use std::collections::BTreeMap;

/// Which line it is of each person, by the first side of each.
pub(crate) fn lines_by_person(
    alloc: Global,
    sides: &[Side],
) -> Result<BTreeMap<usize, usize>, AllocError>
    ensures { IfOk result (λ lines. (n : ℕ) → line_kept lines n ≡ line_among sides.now n) }
{
    let mut lines = BTreeMap::new(alloc);
    for side in sides {
        keep(&mut lines, side)?;
    }
    Ok(lines)
}

/// Keeps the line of a side, where none of its person is kept yet.
fn keep(lines: &mut BTreeMap<usize, usize>, side: &Side) -> Result<(), AllocError>
    ensures { OnOk result ((n : ℕ) → line_kept lines.new n ≡ or_else (line_kept lines.old n) (line_on side.now n)) }
{
    if !lines.contains_key(&side.person) {
        lines.insert(side.person, side.line)?;
    }
    Ok(())
}
