//! The children of a family, each person once.

ghost use Rattle.std.specs.Prelude.{◌≡◌, ◌++◌, ◌∷◌, IfOk};
ghost use Rattle.archive_state.specs.Merging as merging;

use record_kinds::Child;
use std::alloc::{AllocError, Global};
use std::collections::VecDeque;

/// The children, of whom all that are the person become one, where the first of them stood.
pub(crate) fn once_child(
    alloc: Global,
    children: VecDeque<Child>,
    person: u32,
) -> Result<Vec<Child>, AllocError>
    ensures { IfOk result (λ made. made.items ≡ merging.once_child person children.items) }
{
    let mut children = children;
    let mut made = Vec::new(alloc);
    'children: while let Some(child) = children.pop_front() {
        if child.person == person {
            push_first(alloc, &mut made, child, children, person)?;
            return Ok(made);
        }
        made.push(child)?;
    }
    Ok(made)
}

/// Adds a child with what each later one has that is the same person, and then the others.
fn push_first(
    alloc: Global,
    made: &mut Vec<Child>,
    child: Child,
    children: VecDeque<Child>,
    person: u32,
) -> Result<(), AllocError>
    ensures { IfOk result (λ _. made.new.items ≡ made.old.items
        ++ (merging.child_of_all person child children.items ∷ merging.others person children.items)) }
{
    let mut first = child;
    let mut others = Vec::new(alloc);
    let mut children = children;
    'children: while let Some(child) = children.pop_front() {
        if child.person == person {
            join_child(&mut first, child)?;
        } else {
            others.push(child)?;
        }
    }
    made.push(first)?;
    made.append(&mut others)?;
    Ok(())
}

/// The carried lines of another child after those of one.
fn join_child(child: &mut Child, other: Child) -> Result<(), AllocError>
    ensures { IfOk result (λ _. child.new ≡ merging.joined_child child.old other) }
{
    let mut other = other;
    child.carried.append(&mut other.carried)?;
    child
        .carried_by_person
        .append(&mut other.carried_by_person)?;
    Ok(())
}
