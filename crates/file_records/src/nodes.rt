//! What a node is, and the nodes right below it.

ghost use Rattle.std.specs.Prelude.{◌≡◌, bytes_eq, codes};
ghost use Rattle.stored_lines.specs.Tree.{children, label, list_of};
ghost use Rattle.import_definitions.specs.Nodes.{tree_of, trees_of};

use gedcom_tree::Node;

pub(crate) fn is_family(node: &Node) -> bool
    ensures { result ≡ bytes_eq (label (tree_of node.now)).tag (codes "FAM") }
{
    node.tag.as_str() == "FAM"
}

pub(crate) fn is_person(node: &Node) -> bool
    ensures { result ≡ bytes_eq (label (tree_of node.now)).tag (codes "INDI") }
{
    node.tag.as_str() == "INDI"
}

pub(crate) fn below(node: &Node) -> &[Node]
    ensures { trees_of result.now ≡ list_of (children (tree_of node.now)) }
{
    &node.children
}
