//! A line of a forest, with the lines below it.

ghost use Rattle.std.specs.Prelude.{◌≡◌, ◌++◌, false, [], IfOk, OnOk, option_map, string_bytes};
ghost use Rattle.gedcom_line.specs.Escape.{unescaped};
ghost use Rattle.gedcom_line.specs.Reading.{is_continuation, parts};
ghost use Rattle.gedcom_line.specs.Value.{meaning};
ghost use Rattle.gedcom_rules.specs.Continuing.{adds};
ghost use Rattle.gedcom_tree.specs.Forest.{continued, longer, node_of as node_of_line};
ghost use Rattle.gedcom_tree.specs.Flat.{value_said, said};
ghost use Rattle.gedcom_tree.specs.declared.node.Node.TheViews.{out-Node};

use crate::tag::Tag;
use gedcom_line::{LineRef, Value, unescape};
use std::alloc::{AllocError, Global};

/// The value of a node.
#[derive(Debug, Drop)]
pub enum NodeValue {
    /// A text, with its continuations joined.
    Text(String),
    /// A cross reference with its two `@`.
    Pointer(String),
}

/// A line of a forest, with the lines below it.
#[derive(Debug, Drop)]
pub struct Node {
    /// The number of its line in the file, counted from 1 without blank lines. `==` does not look at it.
    pub line: u32,
    /// The cross reference with its two `@`.
    pub xref: Option<String>,
    pub tag: Tag,
    pub value: NodeValue,
    pub children: Vec<Node>,
}

fn value_of(alloc: Global, line: &LineRef<'_>) -> Result<NodeValue, AllocError>
    requires { is_continuation line.now.tag.now ≡ false }
    ensures { IfOk result (λ v. value_said v ≡ continued (meaning line.now.raw.now) []) }
{
    match line.value() {
        Value::Text(raw) => Ok(NodeValue::Text(unescape(alloc, raw)?)),
        Value::Pointer(name) => Ok(NodeValue::Pointer(String::from_str(alloc, name)?)),
    }
}

/// Makes a text longer by a continuation; a pointer stays as it is.
pub(crate) fn join_value(
    alloc: Global,
    value: &mut NodeValue,
    line: &LineRef<'_>,
) -> Result<(), AllocError>
    ensures { OnOk result (value_said value.new ≡ longer (adds (parts line.now)) (value_said value.old)) }
{
    if let NodeValue::Text(text) = value {
        if line.tag == "CONT" {
            text.push('\n')?;
        }
        push_unescaped(alloc, text, line.raw)?;
    }
    Ok(())
}

/// Appends the text of a value on a line, without a copy where it has no `@`.
fn push_unescaped(alloc: Global, out: &mut String, value: &str) -> Result<(), AllocError>
    ensures { OnOk result (string_bytes out.new ≡ string_bytes out.old ++ unescaped value.now) }
{
    if !value.as_bytes().contains(&b'@') {
        out.push_str(value)?;
        return Ok(());
    }
    let text = unescape(alloc, value)?;
    out.push_str(&text)?;
    Ok(())
}

pub(crate) fn xref_of(alloc: Global, xref: Option<&str>) -> Result<Option<String>, AllocError>
    ensures { IfOk result (λ x. option_map string_bytes x ≡ option_map (λ s. s.now) xref.entry) }
{
    match xref {
        Some(name) => Ok(Some(String::from_str(alloc, name)?)),
        None => Ok(None),
    }
}

/// The node of a line that continues no other, with no children yet. `number` is the line's in the file.
pub(crate) fn node_of(alloc: Global, line: &LineRef<'_>, number: u32) -> Result<Node, AllocError>
    requires { is_continuation line.now.tag.now ≡ false }
    ensures said { IfOk result (λ n. said line.now.level n ≡ node_of_line number (parts line.now) []) }
    ensures leaf { IfOk result (λ n. (out-Node n).children.items ≡ []) }
{
    let value = value_of(alloc, line)?;
    let xref = xref_of(alloc, line.xref)?;
    let tag = Tag::new(alloc, line.tag)?;
    Ok(Node {
        line: number,
        xref,
        tag,
        value,
        children: Vec::new(alloc),
    })
}
