//! The members of a family.

ghost use Rattle.std.specs.Prelude.{◌≡◌, ◌==◌, ◌||◌, ◌++◌, ◌↔◌, ℕ, not, IsTrue, IfOk, OnOk, map};
ghost use Rattle.std.specs.Ordering.{nat_cmp};
ghost use Rattle.std.specs.BTreeSet.{contains};
ghost use Rattle.record_kinds.specs.Model as model;
ghost use Rattle.record_shapes.specs.Lists.{IsOnce};
ghost use Rattle.record_shapes.specs.Members.{members};
ghost use Rattle.archive_state.specs.Sound.{HasMembersOnce};

use record_kinds::{Child, Family, Partner, Record};
use std::alloc::{AllocError, Global};
use std::collections::BTreeSet;

/// Whether no person stands twice in the family.
pub fn has_members_once(alloc: Global, record: &Record) -> Result<bool, AllocError>
    ensures { IfOk result (λ b. IsTrue b ↔ HasMembersOnce «record».now) }
{
    match record {
        Record::Family(family) => are_once(alloc, family),
        _ => Ok(true),
    }
}

fn are_once(alloc: Global, family: &Family) -> Result<bool, AllocError>
    ensures { IfOk result (λ b. IsTrue b ↔ IsOnce (members family.now)) }
{
    let mut numbers = Vec::new(alloc);
    push_partners(&mut numbers, &family.partners)?;
    push_children(&mut numbers, &family.children)?;
    is_each_once(alloc, numbers.as_slice())
}

fn push_partners(numbers: &mut Vec<u32>, partners: &[Partner]) -> Result<(), AllocError>
    ensures { OnOk result (numbers.new.items ≡ numbers.old.items
        ++ map (λ (p : model.Partner). p.person) partners.now) }
{
    'partners: for partner in partners {
        numbers.push(partner.person)?;
    }
    Ok(())
}

fn push_children(numbers: &mut Vec<u32>, children: &[Child]) -> Result<(), AllocError>
    ensures { OnOk result (numbers.new.items ≡ numbers.old.items
        ++ map (λ (c : model.Child). c.person) children.now) }
{
    'children: for child in children {
        numbers.push(child.person)?;
    }
    Ok(())
}

/// Whether no number is there twice: from the last on, each is looked for among those after it.
fn is_each_once(alloc: Global, numbers: &[u32]) -> Result<bool, AllocError>
    ensures { IfOk result (λ b. IsTrue b ↔ IsOnce numbers.now) }
{
    let mut behind = BTreeSet::new(alloc);
    let mut left = numbers.len();
    'numbers: while left > 0 {
        left -= 1;
        if !add(&mut behind, numbers[left])? {
            return Ok(false);
        }
    }
    Ok(true)
}

/// Adds a number to a set, and answers whether it was not there.
fn add(numbers: &mut BTreeSet<u32>, number: u32) -> Result<bool, AllocError>
    ensures new { IfOk result (λ is. is ≡ not (contains nat_cmp numbers.old number)) }
    ensures added { OnOk result ((n : ℕ) → contains nat_cmp numbers.new n
        ≡ (number == n || contains nat_cmp numbers.old n)) }
{
    let added = numbers.insert(number)?;
    Ok(added)
}
