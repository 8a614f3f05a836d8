//! Whole forests.

ghost use Rattle.std.specs.Prelude.{◌≡◌, ◌<◌, ◌^◌, length};
ghost use Rattle.gedcom_tree.specs.Flat.{flats};

use crate::node::Node;
use std::marker::Model;

/// The nodes of a file: level 0 HEAD first, then what stands after it, without the trailer.
///
/// Contracts see it as the list of its nodes in order, with their depths.
#[derive(Debug, Drop)]
pub struct Forest {
    nodes: Vec<Node>,
}

impl Model for Forest {
    ghost use Rattle.std.specs.Prelude.{List, ◌<◌, ◌^◌, length};
    ghost use Rattle.gedcom_tree.specs.Forest.{Item};
    ghost use Rattle.gedcom_tree.specs.Flat.{flats};
    ghost use Rattle.gedcom_tree.specs.Text.{IsForest};

    ghost Value = { List Item };

    ghost view = { λ f. flats 0 f.nodes.items };

    ghost invariant = { λ f. IsForest (flats 0 f.nodes.items) × (length (flats 0 f.nodes.items) < 2 ^ 32) };
}

impl Forest {
    ghost use Rattle.gedcom_tree.specs.Text.{IsForest, record_count as count_of_records};

    /// The forest of nodes of level 0 that are one.
    pub(crate) fn of_nodes(nodes: Vec<Node>) -> Self
        requires forest { IsForest (flats 0 nodes.items) }
        requires few { length (flats 0 nodes.items) < 2 ^ 32 }
        ensures { result ≡ flats 0 nodes.items }
    {
        Forest { nodes }
    }

    /// The nodes of level 0 in order, the header first.
    pub fn nodes(&self) -> &[Node]
        ensures nodes { flats 0 result.now ≡ self.now }
        ensures forest { IsForest self.now }
        ensures few { length self.now < 2 ^ 32 }
    {
        self.nodes.as_slice()
    }

    /// How many records the file has: the nodes of level 0 without the header.
    pub fn record_count(&self) -> usize
        ensures { result ≡ count_of_records self.now }
    {
        self.nodes.len().saturating_sub(1)
    }
}
