//! The branches of fields.

ghost use Rattle.std.specs.Prelude.{◌≡◌, ◌++◌, option_map, IfOk, OnOk};
ghost use Rattle.stored_lines.specs.Levels.{AreShallow};
ghost use Rattle.records.specs.Stored.{lines_below, text_trees};

use crate::field::Field;
use record_text::Text;
use std::alloc::{AllocError, Global};
use stored_lines::{Branch, Carried, branches_of};

/// Adds the line of a text, where there is one.
pub(crate) fn push_text(
    alloc: Global,
    below: &mut Vec<Branch>,
    field: Field,
    text: Option<Text>,
) -> Result<(), AllocError>
    ensures { OnOk result (below.new.items ≡ below.old.items ++ text_trees field text) }
{
    if let Some(text) = text {
        below.push(field.branch(alloc, Some(text), None, Vec::new(alloc))?)?;
    }
    Ok(())
}

/// Adds carried lines below one of their own, where there are some.
pub(crate) fn push_lines(
    alloc: Global,
    below: &mut Vec<Branch>,
    field: Field,
    carried: &[Carried],
) -> Result<(), AllocError>
    ensures added { OnOk result (below.new.items ≡ below.old.items ++ lines_below field carried.now) }
    ensures shallow { IfOk result (λ _. AreShallow carried.now) }
{
    if carried.is_empty() {
        return Ok(());
    }
    let lines = branches_of(alloc, carried)?;
    below.push(field.branch(alloc, None, None, lines)?)?;
    Ok(())
}
