//! Paths read one after the other.

ghost use Rattle.std.specs.Prelude.{◌≡◌, IfOk, bytes_eq, codes, map, string_bytes};
ghost use Rattle.stored_lines.specs.Tree.{children, label};
ghost use Rattle.record_shapes.specs.Reading.{path_from};
ghost use Rattle.import_definitions.specs.Nodes.{tree_of, IsInFile};
ghost use Rattle.import_definitions.specs.Lines.{lines_below as lines_told, place_in, roots as roots_in};
ghost use Rattle.import_definitions.specs.Positions.{known_by, path_behind, paths};
ghost use Rattle.file_records.specs.KnownViews.{path_said};
ghost use Rattle.file_records.specs.PathViews.{as_line};

use crate::known::KnownRoots;
use gedcom_tree::Node;
use import_definitions::{Roots, lines_of};
use node_reading::place_of;
use std::alloc::{AllocError, Global};
use stored_lines::Carried;

/// The path of each node of a file that is a place, by the nodes before it; none of any other.
pub fn paths_of(alloc: Global, roots: &Roots<'_>) -> Result<Vec<Option<String>>, AllocError>
    ensures { IfOk result (λ ps. map path_said ps.items ≡ paths (roots_in roots.now)) }
{
    let mut found = Vec::new(alloc);
    for node in roots.nodes() {
        let path = path_of(alloc, roots, &found, node)?;
        found.push(path)?;
    }
    Ok(found)
}

/// The path of a node after those of which these are the paths.
fn path_of(
    alloc: Global,
    roots: &Roots<'_>,
    before: &[Option<String>],
    node: &Node,
) -> Result<Option<String>, AllocError>
    requires { IsInFile (tree_of node.now) }
    ensures { IfOk result (λ p. path_said p ≡ path_behind (roots_in roots.now) (map path_said before.now)
        (as_line (place_in roots.now) (tree_of node.now))) }
{
    if is_place(node) {
        Ok(Some(place_path(alloc, roots, before, node)?))
    } else {
        Ok(None)
    }
}

fn is_place(node: &Node) -> bool
    ensures { result ≡ bytes_eq (label (tree_of node.now)).tag (codes "_LOC") }
{
    node.tag.as_str() == "_LOC"
}

/// The path that the lines below a place tell.
fn place_path(
    alloc: Global,
    roots: &Roots<'_>,
    before: &[Option<String>],
    node: &Node,
) -> Result<String, AllocError>
    requires { IsInFile (tree_of node.now) }
    ensures { IfOk result (λ s. string_bytes s ≡ path_from (known_by (roots_in roots.now) (map path_said before.now))
        (lines_told (place_in roots.now) (children (tree_of node.now)))) }
{
    let lines = lines_below(alloc, roots, node)?;
    let known = KnownRoots {
        roots,
        paths: before,
    };
    let (_, path) = place_of(alloc, &known, lines)?;
    Ok(path)
}

/// The lines below a node. What dangles among them is reported where the node is read.
fn lines_below(alloc: Global, roots: &Roots<'_>, node: &Node) -> Result<Vec<Carried>, AllocError>
    requires { IsInFile (tree_of node.now) }
    ensures { IfOk result (λ ts. ts.items ≡ lines_told (place_in roots.now) (children (tree_of node.now))) }
{
    let mut unused = Vec::new(alloc);
    let lines = lines_of(alloc, roots, &node.children, &mut unused)?;
    Ok(lines)
}
