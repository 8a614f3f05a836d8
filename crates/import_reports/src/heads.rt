//! The lines of the header of a file, which an import leaves out.

ghost use Rattle.std.specs.Prelude.{◌≡◌, ◌++◌, IfOk, OnOk, string_bytes};
ghost use Rattle.gedcom_tree.specs.Flat.{value_said};
ghost use Rattle.stored_lines.specs.Tree.{forest_of, label};
ghost use Rattle.import_definitions.specs.Nodes.{tree_of, trees_of};
ghost use Rattle.import_reports.specs.Heads as heads;

use gedcom_tree::{Forest, Node, NodeValue};
use searching::shown;
use std::alloc::{AllocError, Global};

/// A line for each line of the header, but those of CHAR and GEDC and all below them: `line 3: head: 1 SOUR GRAMPS`.
/// Refused only if out of memory.
#[tactic(auto, using(import_definitions::proofs::Trees::nodes_same))]
pub fn head_text(alloc: Global, forest: &Forest) -> Result<String, AllocError>
    ensures { IfOk result (λ s. string_bytes s ≡ heads.head_text forest.now) }
{
    let mut out = String::new(alloc);
    push_first(alloc, &mut out, forest.nodes())?;
    Ok(out)
}

fn push_first(alloc: Global, out: &mut String, nodes: &[Node]) -> Result<(), AllocError>
    ensures { OnOk result (string_bytes out.new ≡ string_bytes out.old ++ heads.first_text (trees_of nodes.now)) }
{
    match nodes {
        [head, ..] => push_below(alloc, out, &head.children),
        [] => Ok(()),
    }
}

/// Adds the nodes below the header.
fn push_below(alloc: Global, out: &mut String, nodes: &[Node]) -> Result<(), AllocError>
    ensures { OnOk result (string_bytes out.new ≡ string_bytes out.old
        ++ heads.below_text (forest_of (trees_of nodes.now))) }
{
    for node in nodes {
        push_unless_known(alloc, out, node)?;
    }
    Ok(())
}

/// Adds a node below the header, unless it is known what it says.
fn push_unless_known(alloc: Global, out: &mut String, node: &Node) -> Result<(), AllocError>
    ensures { OnOk result (string_bytes out.new ≡ string_bytes out.old ++ heads.part_text (tree_of node.now)) }
{
    if is_known(node.tag.as_str()) {
        return Ok(());
    }
    push_tree(alloc, out, 1, node)
}

/// Whether it is the tag of a line that each file has.
fn is_known(tag: &str) -> bool
    ensures { result ≡ heads.is_known tag.now }
{
    matches!(tag, "CHAR" | "GEDC")
}

/// Adds a node and all below it.
fn push_tree(alloc: Global, out: &mut String, level: u8, node: &Node) -> Result<(), AllocError>
    ensures { OnOk result (string_bytes out.new ≡ string_bytes out.old ++ heads.tree_text level (tree_of node.now)) }
{
    push_line(alloc, out, level, node)?;
    for child in &node.children {
        push_tree(alloc, out, next_level(level), child)?;
    }
    Ok(())
}

/// The level below; a file has none above 99.
fn next_level(level: u8) -> u8
    ensures { result ≡ heads.next_level level }
{
    if level < 99 { level + 1 } else { 99 }
}

/// Adds the line of a node.
fn push_line(alloc: Global, out: &mut String, level: u8, node: &Node) -> Result<(), AllocError>
    ensures { OnOk result (string_bytes out.new ≡ string_bytes out.old
        ++ heads.line_text level (label (tree_of node.now))) }
{
    let line = node.line;
    let tag = node.tag.as_str();
    write!(out, "line {line}: head: {level} {tag}")?;
    push_value(alloc, out, &node.value)?;
    out.push_str("\n")
}

/// Adds a value after a space; nothing where it is empty. Control characters are spaces.
fn push_value(alloc: Global, out: &mut String, value: &NodeValue) -> Result<(), AllocError>
    ensures { OnOk result (string_bytes out.new ≡ string_bytes out.old ++ heads.value_text (value_said value.now)) }
{
    match value {
        NodeValue::Text(text) => push_words(alloc, out, text.as_str()),
        NodeValue::Pointer(name) => push_words(alloc, out, name.as_str()),
    }
}

fn push_words(alloc: Global, out: &mut String, words: &str) -> Result<(), AllocError>
    ensures { OnOk result (string_bytes out.new ≡ string_bytes out.old ++ heads.words_text words.now) }
{
    if words.is_empty() {
        return Ok(());
    }
    let printed = shown(alloc, words)?;
    out.push_str(" ")?;
    out.push_str(&printed)
}
