//! A node of level 0 as a line.

ghost use Rattle.std.specs.Prelude.{◌≡◌, ◌++◌, IfOk, OnOk, option_map};
ghost use Rattle.stored_lines.specs.Tree.{children, label};
ghost use Rattle.stored_lines.specs.declared.carried.Value.TheVariants as value;
ghost use Rattle.import_definitions.specs.Lines.{place_in, root_value as value_told, value_or_empty};
ghost use Rattle.import_definitions.specs.Nodes.{tree_of, IsInFile};
ghost use Rattle.import_definitions.specs.Reports.{dangling};
ghost use Rattle.file_records.specs.Drafts.{as_line};

use gedcom_tree::{Node, NodeValue};
use import_definitions::{RootKind, Roots, kind_of, lines_of};
use receipts::ReportLine;
use record_text::{Tag, Text};
use std::alloc::{AllocError, Global};
use stored_lines::{Carried, Value};

/// The line of a node with those below it. Those whose pointers name nothing are left out and reported.
pub(crate) fn line_of(
    alloc: Global,
    roots: &Roots<'_>,
    node: &Node,
    report: &mut Vec<ReportLine>,
) -> Result<Carried, AllocError>
    requires { IsInFile (tree_of node.now) }
    ensures line { IfOk result (λ t. t ≡ as_line (place_in roots.now) (tree_of node.now)) }
    ensures report { OnOk result (report.new.items
        ≡ report.old.items ++ dangling (place_in roots.now) (children (tree_of node.now))) }
{
    let children = lines_of(alloc, roots, &node.children, report)?;
    let value = value_of(alloc, roots, node)?;
    let tag = Tag::of_word(alloc, node.tag.as_str())?;
    Ok(Carried {
        tag,
        value,
        children,
    })
}

/// The value of a node. A record of an own kind keeps none.
fn value_of(alloc: Global, roots: &Roots<'_>, node: &Node) -> Result<Value, AllocError>
    requires { IsInFile (tree_of node.now) }
    ensures { IfOk result (λ v. v ≡ value_told (place_in roots.now) (label (tree_of node.now))) }
{
    if kind_of(node.tag.as_str()) != RootKind::Other {
        return Ok(Value::Text(Text::empty(alloc)));
    }
    match &node.value {
        NodeValue::Text(text) => Ok(Value::Text(Text::of_words(alloc, text)?)),
        NodeValue::Pointer(name) => Ok(pointed(alloc, roots, name)),
    }
}

/// The position that a pointer names.
fn pointed(alloc: Global, roots: &Roots<'_>, name: &str) -> Value
    ensures { result ≡ value_or_empty (option_map value.Ref (place_in roots.now name.now)) }
{
    match roots.position(name) {
        Some(position) => Value::Ref(position),
        None => Value::Text(Text::empty(alloc)),
    }
}
