//! Sides by family, so that those of one family are found without a search through all.

ghost use Rattle.std.specs.Prelude.{◌≡◌, ◌==◌, OnOk};
ghost use Rattle.std.specs.List.{filter};
ghost use Rattle.std.specs.List.Sorted.{IsNonDecreasingBy};
ghost use Rattle.file_records.specs.Arranged.{IsArrangedBy};
ghost use Rattle.file_records.specs.declared.sides.Side as declared;

use crate::sides::Side;
use std::alloc::AllocError;

/// Puts the families in ascending order; the sides of one family stay in their order.
pub fn arrange(sides: &mut Vec<Side>) -> Result<(), AllocError>
    ensures { OnOk result (IsArrangedBy (λ (s : declared.Side). s.family) sides.old.items sides.new.items) }
{
    sides.sort_by_key(|s| s.family)?;
    Ok(())
}

/// The sides of a family, of sides that are arranged. Takes no memory.
pub fn sides_in(sides: &[Side], family: usize) -> &[Side]
    ensures { IsNonDecreasingBy (λ (s : declared.Side). s.family) sides.now
        → result.now ≡ filter (λ (s : declared.Side). s.family == family) sides.now }
{
    let from = sides.partition_point(|s| s.family < family);
    let rest = &sides[from..];
    let count = rest.partition_point(|s| s.family <= family);
    &rest[..count]
}
