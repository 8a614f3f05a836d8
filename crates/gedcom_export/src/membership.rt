//! The families of persons.

ghost use Rattle.std.specs.Prelude.{◌≡◌, ◌==◌, ◌++◌, IfOk, OnOk};
ghost use Rattle.std.specs.List.{filter};
ghost use Rattle.std.specs.List.Sorted.{IsNonDecreasingBy};
ghost use Rattle.gedcom_export.specs.Adding as adding;
ghost use Rattle.gedcom_export.specs.Owned.{IsArrangedBy};
ghost use Rattle.gedcom_export.specs.declared.membership.Membership as declared;

use node_writing::Side;
use record_kinds::{Child, Partner};
use std::alloc::{AllocError, Global};
use stored_lines::Carried;

/// The side of a person in a family.
pub struct Membership {
    /// The number of the person.
    pub person: u32,
    /// Its carried lines are mostly none.
    pub side: Side,
}

// It is written out, so that no function above proves again how each part is dropped.
impl Drop for Membership {
    fn drop(self) {
        let Membership { person: _, side: _ } = self;
    }
}

/// Puts the persons in ascending order; the families of one of them stay in their order.
pub(crate) fn sort_memberships(sides: &mut Vec<Membership>) -> Result<(), AllocError>
    ensures { OnOk result (IsArrangedBy (λ (x : declared.Membership). x.person) sides.old.items sides.new.items) }
{
    sides.sort_by_key(|x| x.person)?;
    Ok(())
}

/// The families of a person. Takes no memory.
pub(crate) fn memberships_of(sides: &[Membership], person: u32) -> &[Membership]
    ensures { IsNonDecreasingBy (λ (x : declared.Membership). x.person) sides.now
        → result.now ≡ filter (λ (x : declared.Membership). x.person == person) sides.now }
{
    let from = sides.partition_point(|x| x.person < person);
    let rest = &sides[from..];
    let count = rest.partition_point(|x| x.person <= person);
    &rest[..count]
}

/// Adds the sides of children.
pub(crate) fn push_children(
    alloc: Global,
    sides: &mut Vec<Membership>,
    family: u32,
    children: &[Child],
) -> Result<(), AllocError>
    ensures { OnOk result (sides.new.items ≡ sides.old.items ++ adding.children_of family children.now) }
{
    'children: for child in children {
        let carried = copied(alloc, &child.carried_by_person)?;
        sides.push(Membership {
            person: child.person,
            side: Side { family, carried },
        })?;
    }
    Ok(())
}

/// Adds the sides of partners.
pub(crate) fn push_partners(
    alloc: Global,
    sides: &mut Vec<Membership>,
    family: u32,
    partners: &[Partner],
) -> Result<(), AllocError>
    ensures { OnOk result (sides.new.items ≡ sides.old.items ++ adding.partners_of family partners.now) }
{
    'partners: for partner in partners {
        let carried = copied(alloc, &partner.carried_by_person)?;
        sides.push(Membership {
            person: partner.person,
            side: Side { family, carried },
        })?;
    }
    Ok(())
}

/// The same lines in memory of their own; none where there are none.
fn copied(alloc: Global, lines: &[Carried]) -> Result<Vec<Carried>, AllocError>
    ensures { IfOk result (λ copy. copy.items ≡ lines.now) }
{
    let mut copy = Vec::new(alloc);
    'lines: for line in lines {
        copy.push(line.copy(alloc)?)?;
    }
    Ok(copy)
}
