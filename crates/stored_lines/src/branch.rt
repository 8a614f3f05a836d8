//! Branches: stored lines with those below them.

ghost use Rattle.std.specs.Prelude.{◌≡◌, ◌≤◌, ◌↔◌, map, IfOk, IsTrue, MatchOption};
ghost use Rattle.stored_lines.specs.Tree.{relabel, forest_of};
ghost use Rattle.stored_lines.specs.Levels.{levels as levels_of, forest_levels, AreShallow};
ghost use Rattle.stored_lines.specs.Line.{label_of, line_of, value_for};

use crate::carried::{Carried, Value};
use record_text::{Tag, Text};
use std::alloc::{AllocError, Global};
use std::marker::Model;

/// The most levels of carried lines: those of a file from 1 to 99.
const MAX_LEVELS: u32 = 99;

/// A stored line with those below it. Contracts see a tree.
#[derive(Drop)]
pub struct Branch {
    pub tag: Tag,
    pub text: Option<Text>,
    pub target: Option<u32>,
    pub children: Vec<Branch>,
}

impl Model for Branch {
    ghost use Rattle.std.proofs.Common.{arith};
    ghost use Rattle.stored_lines.specs.Tree.{Tree, node, forest_of, coded_tree, tree_size, most_le-forest_size};
    ghost use Rattle.stored_lines.specs.Line.{Label, label_code};

    ghost Value = { Tree Label };

    ghost coded = { coded_tree label_code };

    ghost view = { λ a. node (record { tag = a.tag; text = a.text; target = a.target }) (forest_of a.children.items) };

    ghost size = { tree_size };

    ghost size_decreases = { λ a h. omega (arith, most_le-forest_size a.children.items) };
}

/// The same text in memory of its own, where there is one.
pub fn copied(alloc: Global, text: &Option<Text>) -> Result<Option<Text>, AllocError>
    ensures { IfOk result (λ t. t ≡ text.now) }
{
    match text {
        None => Ok(None),
        Some(text) => Ok(Some(text.copy(alloc)?)),
    }
}

/// Carried lines as they are stored.
pub fn branches_of(alloc: Global, carried: &[Carried]) -> Result<Vec<Branch>, AllocError>
    ensures stored { IfOk result (λ b. b.items ≡ map (relabel label_of) carried.now) }
    ensures shallow { IfOk result (λ _. AreShallow carried.now) }
{
    let mut branches = Vec::new(alloc);
    'lines: for line in carried {
        line.keep();
        branches.push(branch_of(alloc, line)?)?;
    }
    Ok(branches)
}

fn branch_of(alloc: Global, carried: &Carried) -> Result<Branch, AllocError>
    ensures { IfOk result (λ b. b ≡ relabel label_of carried.now) }
{
    let mut children = Vec::new(alloc);
    'children: for child in &carried.children {
        children.push(branch_of(alloc, child)?)?;
    }
    let tag = carried.tag.copy(alloc)?;
    match &carried.value {
        Value::Text(text) => Ok(Branch {
            tag,
            text: Some(text.copy(alloc)?),
            target: None,
            children,
        }),
        Value::Ref(number) => Ok(Branch {
            tag,
            text: None,
            target: Some(*number),
            children,
        }),
    }
}

/// Carried lines from stored ones. `None`: they have more than 99 levels.
pub fn carried_of(alloc: Global, branches: &[Branch]) -> Result<Option<Vec<Carried>>, AllocError>
    ensures { IfOk result (λ found. MatchOption found
        (¬ (AreShallow branches.now))
        (λ c. AreShallow branches.now × (c.items ≡ map (relabel line_of) branches.now))) }
{
    if !are_within(branches, MAX_LEVELS) {
        return Ok(None);
    }
    Ok(Some(carried_lines_of(alloc, branches)?))
}

/// Whether branches have no more levels than that.
fn are_within(branches: &[Branch], levels: u32) -> bool
    ensures { IsTrue result ↔ (forest_levels (forest_of branches.now) ≤ levels) }
{
    'branches: for branch in branches {
        if !is_within(branch, levels) {
            return false;
        }
    }
    true
}

fn is_within(branch: &Branch, levels: u32) -> bool
    ensures { IsTrue result ↔ (levels_of branch.now ≤ levels) }
{
    if levels == 0 {
        return false;
    }
    'children: for child in &branch.children {
        if !is_within(child, levels - 1) {
            return false;
        }
    }
    true
}

fn carried_lines_of(alloc: Global, branches: &[Branch]) -> Result<Vec<Carried>, AllocError>
    requires { AreShallow branches.now }
    ensures { IfOk result (λ c. c.items ≡ map (relabel line_of) branches.now) }
{
    let mut carried = Vec::new(alloc);
    'branches: for branch in branches {
        carried.push(carried_line_of(alloc, branch)?)?;
    }
    Ok(carried)
}

fn carried_line_of(alloc: Global, branch: &Branch) -> Result<Carried, AllocError>
    requires { levels_of branch.now ≤ 99 }
    ensures { IfOk result (λ c. c ≡ relabel line_of branch.now) }
{
    let mut children = Vec::new(alloc);
    'children: for child in &branch.children {
        children.push(carried_line_of(alloc, child)?)?;
    }
    Ok(Carried {
        tag: branch.tag.copy(alloc)?,
        value: value_of(alloc, &branch.text, branch.target)?,
        children,
    })
}

/// The value of a stored line; of one that has a text and a number the text, and of one that has neither
/// an empty text.
pub fn value_of(
    alloc: Global,
    text: &Option<Text>,
    target: Option<u32>,
) -> Result<Value, AllocError>
    ensures { IfOk result (λ v. v ≡ value_for text.now target) }
{
    if let Some(text) = text {
        return Ok(Value::Text(text.copy(alloc)?));
    }
    match target {
        Some(number) => Ok(Value::Ref(number)),
        None => Ok(Value::Text(Text::empty(alloc))),
    }
}
