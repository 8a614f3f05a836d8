//! The lines below a node, with positions for pointers: the one copy of their texts.

ghost use Rattle.std.specs.Prelude.{◌≡◌, ◌++◌, ◌≤◌, IfOk, OnOk};
ghost use Rattle.stored_lines.specs.Tree.{forest_of};
ghost use Rattle.stored_lines.specs.Levels.{forest_levels};
ghost use Rattle.gedcom_tree.specs.Flat.{value_said};
ghost use Rattle.import_definitions.specs.Nodes.{trees_of, IsSaid, HaveLines};
ghost use Rattle.import_definitions.specs.Lines.{place_in, resolve, lines_below};
ghost use Rattle.import_definitions.specs.Reports.{dangling};

use crate::roots::Roots;
use gedcom_tree::{Node, NodeValue};
use receipts::{ReportLine, ReportWord};
use record_text::{Tag, Text};
use std::alloc::{AllocError, Global};
use stored_lines::{Carried, Value};

/// The value of a line, with a position for a pointer. `None`: it names no root.
fn value_of(
    alloc: Global,
    roots: &Roots<'_>,
    value: &NodeValue,
) -> Result<Option<Value>, AllocError>
    requires { IsSaid (value_said value.now) }
    ensures { IfOk result (λ v. v ≡ resolve (place_in roots.now) (value_said value.now)) }
{
    match value {
        NodeValue::Text(text) => Ok(Some(Value::Text(Text::of_words(alloc, text)?))),
        NodeValue::Pointer(name) => Ok(roots.position(name).map(Value::Ref)),
    }
}

/// The lines that nodes below level 0 become. Those whose pointers name no root are left out with all below them, and
/// are reported.
pub fn lines_of(
    alloc: Global,
    roots: &Roots<'_>,
    nodes: &[Node],
    report: &mut Vec<ReportLine>,
) -> Result<Vec<Carried>, AllocError>
    requires lines { HaveLines (forest_of (trees_of nodes.now)) }
    requires low { forest_levels (forest_of (trees_of nodes.now)) ≤ 98 }
    ensures lines { IfOk result (λ ts. ts.items ≡ lines_below (place_in roots.now) (forest_of (trees_of nodes.now))) }
    ensures report { OnOk result (report.new.items
        ≡ report.old.items ++ dangling (place_in roots.now) (forest_of (trees_of nodes.now))) }
{
    let mut lines = Vec::new(alloc);
    for node in nodes {
        match value_of(alloc, roots, &node.value)? {
            Some(value) => {
                let children = lines_of(alloc, roots, &node.children, report)?;
                let tag = Tag::of_word(alloc, node.tag.as_str())?;
                lines.push(Carried {
                    tag,
                    value,
                    children,
                })?;
            }
            None => {
                report.push(ReportLine {
                    line: node.line,
                    word: ReportWord::Dangling,
                })?;
            }
        }
    }
    Ok(lines)
}
