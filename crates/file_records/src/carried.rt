//! What a person carries on a membership.

ghost use Rattle.std.specs.Prelude.{◌≡◌, IfOk};
ghost use Rattle.std.specs.List.{slice_get};
ghost use Rattle.stored_lines.specs.Tree.{children, list_of};
ghost use Rattle.import_definitions.specs.Lines.{lines_below as lines_told, place_in};
ghost use Rattle.import_definitions.specs.Nodes.{tree_of, IsInFile};
ghost use Rattle.file_records.specs.Lookups.{lines_of as lines_on, nodes_below};
ghost use Rattle.file_records.specs.Carried.{carried_at, line_kept};

use gedcom_tree::Node;
use import_definitions::{Roots, lines_of};
use std::alloc::{AllocError, Global};
use std::collections::BTreeMap;
use stored_lines::Carried;

/// The lines below the line of the person at a position, by which line it is of each; none, where there is no such
/// line.
pub(crate) fn carried(
    alloc: Global,
    roots: &Roots<'_>,
    lines: &BTreeMap<usize, usize>,
    person: usize,
) -> Result<Vec<Carried>, AllocError>
    ensures { IfOk result (λ ts. ts.items ≡ carried_at roots.now (line_kept lines.now) person) }
{
    match lines.get(&person) {
        Some(line) => below_line(alloc, roots, person, *line),
        None => Ok(Vec::new(alloc)),
    }
}

/// The lines below a line of the node at a position.
fn below_line(
    alloc: Global,
    roots: &Roots<'_>,
    position: usize,
    line: usize,
) -> Result<Vec<Carried>, AllocError>
    ensures { IfOk result (λ ts. ts.items
        ≡ lines_on roots.now (slice_get (nodes_below (slice_get roots.now position)) line)) }
{
    match roots.nodes().get(position) {
        Some(node) => below_child(alloc, roots, node, line),
        None => Ok(Vec::new(alloc)),
    }
}

/// The lines below one of the lines of a node.
fn below_child(
    alloc: Global,
    roots: &Roots<'_>,
    node: &Node,
    line: usize,
) -> Result<Vec<Carried>, AllocError>
    requires { IsInFile (tree_of node.now) }
    ensures { IfOk result (λ ts. ts.items
        ≡ lines_on roots.now (slice_get (list_of (children (tree_of node.now))) line)) }
{
    match node.children.get(line) {
        Some(child) => lines_below(alloc, roots, child),
        None => Ok(Vec::new(alloc)),
    }
}

/// The lines below a node. What dangles among them is reported where the node is read.
fn lines_below(alloc: Global, roots: &Roots<'_>, node: &Node) -> Result<Vec<Carried>, AllocError>
    requires { IsInFile (tree_of node.now) }
    ensures { IfOk result (λ ts. ts.items ≡ lines_told (place_in roots.now) (children (tree_of node.now))) }
{
    let mut unused = Vec::new(alloc);
    let lines = lines_of(alloc, roots, &node.children, &mut unused)?;
    Ok(lines)
}
