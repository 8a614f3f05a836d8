//! The records of a file, each with its number.

ghost use Rattle.std.specs.Prelude.{◌≡◌, ◌++◌, IfOk, OnOk, string_bytes};
ghost use Rattle.import_definitions.specs.Nodes.{tree_of};
ghost use Rattle.stored_lines.specs.Tree.{label};
ghost use Rattle.import_reports.specs.Records as records;

use gedcom_tree::Node;
use import_definitions::{RootKind, Roots, kind_of};
use std::alloc::{AllocError, Global};

/// A line for each node that has a cross reference, with the kind and the number of its record: `line 7: @I1@ is person
/// 12`. The numbers are those of the positions of the nodes. Refused only if out of memory.
pub fn records_text(alloc: Global, roots: &Roots<'_>, numbers: &[u32]) -> Result<String, AllocError>
    ensures { IfOk result (λ s. string_bytes s ≡ records.records_from numbers.now 0 roots.now) }
{
    let mut out = String::new(alloc);
    let mut at = 0;
    let nodes = roots.nodes();
    for node in nodes {
        push_node(&mut out, *node, number_at(numbers, at))?;
        at += 1;
    }
    Ok(out)
}

/// The number of a position; 0 where there is none.
fn number_at(numbers: &[u32], at: usize) -> u32
    ensures { result ≡ records.number_at numbers.now at }
{
    match numbers.get(at) {
        Some(number) => *number,
        None => 0,
    }
}

/// Adds the line of a node, if it has a cross reference.
fn push_node(out: &mut String, node: &Node, number: u32) -> Result<(), AllocError>
    ensures { OnOk result (string_bytes out.new ≡ string_bytes out.old
        ++ records.record_line number (label (tree_of node.now))) }
{
    match &node.xref {
        Some(name) => push_line(out, node.line, name.as_str(), node.tag.as_str(), number),
        None => Ok(()),
    }
}

fn push_line(
    out: &mut String,
    line: u32,
    name: &str,
    tag: &str,
    number: u32,
) -> Result<(), AllocError>
    ensures { OnOk result (string_bytes out.new ≡ string_bytes out.old
        ++ records.named_line line name.now tag.now number) }
{
    let word = kind_word(kind_of(tag));
    write!(out, "line {line}: {name} is {word} {number}\n")
}

fn kind_word(kind: RootKind) -> &'static str
    ensures { result.now ≡ records.kind_word kind }
{
    match kind {
        RootKind::Place => "place",
        RootKind::Repo => "repository",
        RootKind::Source => "source",
        RootKind::Person => "person",
        RootKind::Family => "family",
        RootKind::Other => "record",
    }
}
