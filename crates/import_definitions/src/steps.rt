//! Where chains of pointers at level 0 lead. A node names one other at the most, so what so many steps lead to is known
//! of all nodes at once, and twice as many steps are these steps taken twice: in a file of n nodes, log n passes over
//! them settle chains of any length in either direction, and rings.

ghost use Rattle.std.specs.Prelude.{◌≡◌, ◌≤◌, ℕ, IfOk, length, map};
ghost use Rattle.import_definitions.specs.Steps.{at as step_in, after, then_by};

use std::alloc::{AllocError, Global};

/// What the value of a node at level 0 leads to, or so many such steps one after another.
#[derive(Clone, Copy, Debug, PartialEq, Eq)]
pub(crate) enum Step {
    /// It ends: the value is a text, or is not looked at.
    Ends,
    /// It breaks off: the value names nothing.
    Breaks,
    /// The node at a position.
    Leads(u32),
}

/// The step at a position; after the last there is none.
fn step_at(steps: &[Step], position: u32) -> Step
    ensures { result ≡ step_in steps.now position }
{
    match steps.get(position as usize) {
        Some(step) => *step,
        None => Step::Breaks,
    }
}

/// A step, and another where it leads on.
fn step_further(steps: &[Step], step: Step) -> Step
    ensures { result ≡ then_by (step_in steps.now) step }
{
    match step {
        Step::Leads(to) => step_at(steps, to),
        known => known,
    }
}

/// Twice as many steps from each position.
fn doubled(alloc: Global, steps: &[Step]) -> Result<Vec<Step>, AllocError>
    ensures { IfOk result (λ found. found.items ≡ map (then_by (step_in steps.now)) steps.now) }
{
    let mut found = Vec::new(alloc);
    for step in steps {
        found.push(step_further(steps, *step))?;
    }
    Ok(found)
}

/// What at least as many steps lead to from each position as there are positions.
pub(crate) fn ends_of(alloc: Global, steps: Vec<Step>) -> Result<Vec<Step>, AllocError>
    ensures ends { IfOk result (λ found. (n : ℕ) × ((length steps.items ≤ n)
        × ((k : ℕ) → step_in found.items k ≡ after steps.items n k))) }
    ensures each { IfOk result (λ found. length found.items ≡ length steps.items) }
{
    let mut found = steps;
    let mut reach: usize = 1;
    while reach < found.len() {
        found = doubled(alloc, &found)?;
        reach *= 2;
    }
    Ok(found)
}
