//! Drafts of families with both sides of their memberships.

ghost use Rattle.std.specs.Prelude.{◌≡◌, ◌<◌, ◌^◌, OnOk, length};
ghost use Rattle.node_reading.specs.Trees.{draft_tree};
ghost use Rattle.import_definitions.specs.Lines.{roots as roots_in};
ghost use Rattle.file_records.specs.Arranged.{IsArrangedBy};
ghost use Rattle.file_records.specs.Taken.{sides as sides_told};
ghost use Rattle.file_records.specs.declared.sides.Side as declared;
ghost use Rattle.import_definitions.specs.Sides.{root_with_sides};
ghost use Rattle.file_records.specs.Drafts.{ReadsFamily};

use crate::families::with_sides;
use crate::sides::Side;
use import_definitions::Roots;
use node_reading::Draft;
use std::alloc::{AllocError, Global};

/// Puts both sides into the draft of the node at a position, where it is a family.
pub(crate) fn put_sides(
    alloc: Global,
    roots: &Roots<'_>,
    position: usize,
    sides: &[Side],
    draft: &mut Draft,
) -> Result<(), AllocError>
    requires few { length roots.now < 2 ^ 32 }
    requires sides { IsArrangedBy (λ (s : declared.Side). s.family) (sides_told roots.now) sides.now }
    requires read { ReadsFamily (roots_in roots.now) position (draft_tree draft.old) }
    ensures { OnOk result (draft_tree draft.new
        ≡ root_with_sides (roots_in roots.now) position (draft_tree draft.old)) }
{
    match draft {
        Draft::Family(draft) => with_sides(alloc, roots, position, sides, &mut draft.family),
        _ => Ok(()),
    }
}
