//! Comparisons of nodes and forests. They look at all but the numbers of lines, and take no memory.

ghost use Rattle.std.specs.Prelude.{◌≡◌, ◌↔◌, ℕ, IsTrue};
ghost use Rattle.std.proofs.Common.{rules};
ghost use Rattle.std.specs.Cmp.Rules.{comparing};
ghost use Rattle.std.specs.Ordering.{on};
ghost use Rattle.gedcom_tree.specs.Comparing.{are_same as told_same};
ghost use Rattle.gedcom_tree.specs.Flat.{flat, flats, said, value_said};
ghost use Rattle.gedcom_tree.specs.Text.{IsSame, unnumbered};

use crate::forest::Forest;
use crate::node::{Node, NodeValue};

/// Whether both values are the same text or the same pointer.
fn is_same_value(a: &NodeValue, b: &NodeValue) -> bool
    ensures { IsTrue result ↔ (value_said a.now ≡ value_said b.now) }
{
    match (a, b) {
        (NodeValue::Text(text), NodeValue::Text(other)) => text == other,
        (NodeValue::Pointer(name), NodeValue::Pointer(other)) => name == other,
        _ => false,
    }
}

/// Whether both begin with the same line: its cross reference, its tag and its value.
fn is_same_line(a: &Node, b: &Node) -> bool
    ensures { (level : ℕ) → IsTrue result ↔ (unnumbered (said level a.now) ≡ unnumbered (said level b.now)) }
{
    a.xref == b.xref && a.tag.as_str() == b.tag.as_str() && is_same_value(&a.value, &b.value)
}

/// Whether both are the same nodes in order, with all below them.
pub(crate) fn are_same(a: &[Node], b: &[Node]) -> bool
    ensures { (level : ℕ) → IsTrue result ↔ IsSame (flats level a.now) (flats level b.now) }
{
    let mut rest = b;
    for node in a {
        let Some((other, more)) = rest.split_first() else {
            return false;
        };
        if !is_same_line(node, other) || !are_same(&node.children, &other.children) {
            return false;
        }
        rest = more;
    }
    rest.is_empty()
}

/// Nodes are equal where they are the same tree: the same cross references, tags, values and children,
/// whatever the numbers of their lines.
impl PartialEq for Node {
    ghost eq = { on (λ n. flat n 0) told_same };

    ghost laws = { Prim.search (comparing, rules) depth 12 };

    fn eq(&self, other: &Node) -> bool
        ensures told { result ≡ told_same (flat self.now 0) (flat other.now 0) }
        ensures same { IsTrue result ↔ IsSame (flat self.now 0) (flat other.now 0) }
    {
        is_same_line(self, other) && are_same(&self.children, &other.children)
    }
}

impl Eq for Node {
    ghost laws = { Prim.search (comparing, rules) depth 12 };
}

/// Forests are equal where their nodes are, whatever the numbers of their lines.
impl PartialEq for Forest {
    ghost eq = { told_same };

    ghost laws = { Prim.search (comparing, rules) depth 12 };

    fn eq(&self, other: &Forest) -> bool
        ensures told { result ≡ told_same self.now other.now }
        ensures same { IsTrue result ↔ IsSame self.now other.now }
    {
        are_same(self.nodes(), other.nodes())
    }
}

impl Eq for Forest {
    ghost laws = { Prim.search (comparing, rules) depth 12 };
}
