//! Parts of records: what stands on a line of its own, with the lines below it.

ghost use Rattle.std.specs.Prelude.{[], ◌∷◌, ◌≡◌, ◌++◌, map, IfOk, OnOk};
ghost use Rattle.std.specs.List.{All};
ghost use Rattle.stored_lines.specs.Tree.{Tree};
ghost use Rattle.stored_lines.specs.Line.{Label};
ghost use Rattle.records.specs.Reading.{under};

use crate::field::Field;
use crate::reading::has_word;
use std::alloc::{AllocError, Global};
use stored_lines::Branch;

/// What is kept as a branch.
pub trait Part: Drop {
    ghost kept_as: { Self → Tree Label };

    ghost read_of: { Tree Label → Self };

    ghost is_shallow: { Self → Type 0 };

    /// The branch that it is kept as.
    fn write(&self, alloc: Global) -> Result<Branch, AllocError>
        ensures kept { IfOk result (λ b. b ≡ kept_as self.now) }
        ensures shallow { IfOk result (λ _. is_shallow self.now) };

    /// What the fields of a branch say, also of one that no part is kept as.
    fn read(alloc: Global, branch: &Branch) -> Result<Self, AllocError>
        ensures { IfOk result (λ p. p ≡ read_of branch.now) };
}

/// Adds the branches of parts, in their order.
pub(crate) fn push_parts<P: Part>(
    alloc: Global,
    below: &mut Vec<Branch>,
    parts: &[P],
) -> Result<(), AllocError>
    ensures added { OnOk result (below.new.items ≡ below.old.items ++ map P.kept_as parts.now) }
    ensures shallow { IfOk result (λ _. All P.is_shallow parts.now) }
{
    'parts: for part in parts {
        push_part(alloc, below, part)?;
    }
    Ok(())
}

/// Adds the branch of a part after the others.
fn push_part<P: Part>(alloc: Global, below: &mut Vec<Branch>, part: &P) -> Result<(), AllocError>
    ensures added { OnOk result (below.new.items ≡ below.old.items ++ (P.kept_as part.now ∷ [])) }
    ensures shallow { IfOk result (λ _. P.is_shallow part.now) }
{
    below.push(part.write(alloc)?)?;
    Ok(())
}

/// The parts on the lines with the word of a field, in their order.
pub(crate) fn parts_at<P: Part>(
    alloc: Global,
    branches: &[Branch],
    field: Field,
) -> Result<Vec<P>, AllocError>
    ensures { IfOk result (λ p. p.items ≡ map P.read_of (under field branches.now)) }
{
    let mut parts = Vec::new(alloc);
    'branches: for branch in branches {
        if has_word(branch, field) {
            parts.push(P::read(alloc, branch)?)?;
        }
    }
    Ok(parts)
}
