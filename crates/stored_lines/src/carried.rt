//! Carried lines: what a record keeps of a file beside its fields.

ghost use Rattle.std.specs.Prelude.{◌≡◌, ◌≤◌, IfOk};
ghost use Rattle.stored_lines.specs.Levels.{levels};

use record_text::{Tag, Text};
use std::alloc::{AllocError, Global};
use std::marker::Model;

/// What stands on a line after its tag.
#[derive(Drop)]
pub enum Value {
    /// A text, which may be empty.
    Text(Text),
    /// The number of a record.
    Ref(u32),
}

/// A line with the lines below it, with at most 99 levels in all. Contracts see a tree, whose labels are the lines.
#[derive(Drop)]
pub struct Carried {
    pub tag: Tag,
    pub value: Value,
    pub children: Vec<Carried>,
}

impl Model for Carried {
    ghost use Rattle.std.specs.Prelude.{◌<◌};
    ghost use Rattle.std.proofs.Common.{arith};
    ghost use Rattle.stored_lines.specs.Tree.{Tree, node, forest_of, coded_tree, tree_size, most_le-forest_size};
    ghost use Rattle.stored_lines.specs.Levels.{forest_levels};
    ghost use Rattle.stored_lines.specs.Line.{Line, line_code};

    ghost Value = { Tree Line };

    ghost coded = { coded_tree line_code };

    ghost view = { λ a. node (record { tag = a.tag; value = a.value }) (forest_of a.children.items) };

    ghost invariant = { λ a. forest_levels (forest_of a.children.items) < 99 };

    ghost size = { tree_size };

    ghost size_decreases = { λ a h. omega (arith, most_le-forest_size a.children.items) };
}

impl Value {
    /// The same value in memory of its own.
    pub fn copy(&self, alloc: Global) -> Result<Value, AllocError>
        ensures { IfOk result (λ v. v ≡ self.now) }
    {
        match self {
            Value::Text(text) => Ok(Value::Text(text.copy(alloc)?)),
            Value::Ref(number) => Ok(Value::Ref(*number)),
        }
    }
}

impl Carried {
    /// Does nothing: it tells a proof how many levels there are.
    pub(crate) fn keep(&self)
        ensures { levels self.now ≤ 99 }
    {
        let _ = &self.children;
    }

    /// The same lines in memory of their own.
    pub fn copy(&self, alloc: Global) -> Result<Carried, AllocError>
        ensures { IfOk result (λ c. c ≡ self.now) }
    {
        let mut children = Vec::new(alloc);
        'children: for child in &self.children {
            children.push(child.copy(alloc)?)?;
        }
        Ok(Carried {
            tag: self.tag.copy(alloc)?,
            value: self.value.copy(alloc)?,
            children,
        })
    }
}
