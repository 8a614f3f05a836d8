//! Nodes put together from lines in order.

ghost use Rattle.std.specs.Prelude.{◌≡◌, ℕ, ◌<◌, ◌≤◌, ◌+◌, ◌-◌, ◌++◌, ◌∷◌, [], OnOk, IfOk, length};
ghost use Rattle.gedcom_line.specs.Reading.{parts};
ghost use Rattle.gedcom_tree.specs.Forest.{Item, extended};
ghost use Rattle.gedcom_rules.specs.Continuing.{adds};
ghost use Rattle.gedcom_tree.specs.Flat.{flat, flats, said, built};
ghost use Rattle.gedcom_tree.specs.declared.node.Node.TheViews.{out-Node};

use crate::node::{Node, join_value};
use gedcom_line::LineRef;
use std::alloc::{AllocError, Global};

/// The nodes of the lines so far: those whose children have all come, and the last node of each level,
/// from 0 up.
#[derive(Drop)]
pub(crate) struct Growing {
    pub(crate) roots: Vec<Node>,
    pub(crate) path: Vec<Node>,
}

/// The node, with no room for more children.
fn fitted(node: Node) -> Node
    ensures { (level : ℕ) → flat result level ≡ flat node level }
{
    let mut node = node;
    node.children.shrink_to_fit();
    node
}

impl Growing {
    /// No nodes yet.
    pub(crate) fn new(alloc: Global) -> Self
        ensures none { built result.roots.items result.path.items ≡ [] }
        ensures depth { length result.path.items ≡ 0 }
    {
        Growing {
            roots: Vec::new(alloc),
            path: Vec::new(alloc),
        }
    }

    /// Puts the last open node below the one before it, or at level 0.
    fn close(&mut self) -> Result<(), AllocError>
        requires { 0 < length self.old.path.items }
        ensures same { OnOk result (built self.new.roots.items self.new.path.items
            ≡ built self.old.roots.items self.old.path.items) }
        ensures shorter { OnOk result (length self.new.path.items + 1 ≡ length self.old.path.items) }
    {
        let Some(last) = self.path.pop() else {
            return Ok(());
        };
        let child = fitted(last);
        match self.path.last_mut() {
            Some(parent) => parent.children.push(child)?,
            None => self.roots.push(child)?,
        }
        Ok(())
    }

    /// Closes the nodes of a level and above.
    fn close_to(&mut self, level: usize) -> Result<(), AllocError>
        requires { level ≤ length self.old.path.items }
        ensures same { OnOk result (built self.new.roots.items self.new.path.items
            ≡ built self.old.roots.items self.old.path.items) }
        ensures depth { OnOk result (length self.new.path.items ≡ level) }
    {
        while self.path.len() > level {
            self.close()?;
        }
        Ok(())
    }

    /// Adds the node of a line after the others.
    pub(crate) fn add(&mut self, level: usize, node: Node) -> Result<(), AllocError>
        requires level { level ≤ length self.old.path.items }
        requires leaf { (out-Node node).children.items ≡ [] }
        ensures added { OnOk result (built self.new.roots.items self.new.path.items
            ≡ built self.old.roots.items self.old.path.items ++ said level node ∷ []) }
        ensures depth { OnOk result (length self.new.path.items ≡ level + 1) }
    {
        self.close_to(level)?;
        self.path.push(node)?;
        Ok(())
    }

    /// Makes the text one level above a continuation longer.
    pub(crate) fn join(
        &mut self,
        alloc: Global,
        level: usize,
        line: &LineRef<'_>,
    ) -> Result<(), AllocError>
        requires level { level ≤ length self.old.path.items }
        requires some { 0 < level }
        ensures joined { OnOk result (built self.new.roots.items self.new.path.items
            ≡ extended (level - 1) (adds (parts line.now)) (built self.old.roots.items self.old.path.items)) }
        ensures depth { OnOk result (length self.new.path.items ≡ level) }
    {
        self.close_to(level)?;
        if let Some(above) = self.path.last_mut() {
            join_value(alloc, &mut above.value, line)?;
        }
        Ok(())
    }

    /// The nodes of level 0, once all lines have come.
    pub(crate) fn finish(mut self) -> Result<Vec<Node>, AllocError>
        ensures { IfOk result (λ nodes. flats 0 nodes.items ≡ built self.roots.items self.path.items) }
    {
        self.close_to(0)?;
        Ok(self.roots)
    }
}
