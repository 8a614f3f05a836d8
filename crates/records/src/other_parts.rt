//! Records of no other kind as branches.

ghost use Rattle.std.specs.Prelude.{◌≡◌, IfOk};
ghost use Rattle.stored_lines.specs.Tree.{node, forest_of};
ghost use Rattle.stored_lines.specs.Levels.{AreShallow};
ghost use Rattle.stored_lines.specs.Line.{label_for};
ghost use Rattle.records.specs.Stored.{other_tree, own_line};
ghost use Rattle.records.specs.Reading.{shallow_lines, other_from};

use crate::field::Field;
use crate::part::Part;
use crate::reading::{children_of, lines_in};
use record_kinds::Other;
use record_text::{Tag, Text};
use std::alloc::{AllocError, Global};
use stored_lines::{Branch, Value, branches_of, value_of};

impl Part for Other {
    ghost kept_as = { other_tree };

    ghost read_of = { other_from shallow_lines };

    ghost is_shallow = { λ o. AreShallow o.carried };

    fn write(&self, alloc: Global) -> Result<Branch, AllocError> {
        let mut below = Vec::new(alloc);
        below.push(line_of_other(alloc, self)?)?;
        Field::Other.branch(alloc, None, None, below)
    }

    fn read(alloc: Global, branch: &Branch) -> Result<Other, AllocError> {
        let parts = children_of(branch);
        if parts.is_empty() {
            return Ok(Other {
                tag: Field::Other.tag(alloc)?,
                value: Value::Text(Text::empty(alloc)),
                carried: Vec::new(alloc),
            });
        }
        let line = &parts[0];
        Ok(Other {
            tag: line.tag.copy(alloc)?,
            value: value_of(alloc, &line.text, line.target)?,
            carried: lines_in(alloc, children_of(line))?,
        })
    }
}

/// The record's own line, with its carried lines.
fn line_of_other(alloc: Global, other: &Other) -> Result<Branch, AllocError>
    ensures kept { IfOk result (λ b. b ≡ own_line other.now) }
    ensures shallow { IfOk result (λ _. AreShallow other.now.carried) }
{
    let carried = branches_of(alloc, &other.carried)?;
    line_of_value(alloc, &other.tag, &other.value, carried)
}

/// The line of a tag and a value, with those below it.
fn line_of_value(
    alloc: Global,
    tag: &Tag,
    value: &Value,
    below: Vec<Branch>,
) -> Result<Branch, AllocError>
    ensures { IfOk result (λ b. b ≡ node (label_for tag.now value.now) (forest_of below.items)) }
{
    let tag = tag.copy(alloc)?;
    match value {
        Value::Text(text) => Ok(Branch {
            tag,
            text: Some(text.copy(alloc)?),
            target: None,
            children: below,
        }),
        Value::Ref(number) => Ok(Branch {
            tag,
            text: None,
            target: Some(*number),
            children: below,
        }),
    }
}
