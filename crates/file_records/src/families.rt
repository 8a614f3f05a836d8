//! A family with both sides of its memberships.

ghost use Rattle.std.specs.Prelude.{◌≡◌, ◌<◌, ◌^◌, ◌++◌, ℕ, List, Option, OnOk, bytes_eq, codes, length, map, true};
ghost use Rattle.import_definitions.specs.Lines.{roots as roots_in};
ghost use Rattle.import_definitions.specs.Nodes.{FileNode};
ghost use Rattle.record_shapes.specs.Reading.{family_from};
ghost use Rattle.import_definitions.specs.Positions.{known, tag_at};
ghost use Rattle.import_definitions.specs.Sides.{family_with_sides, lines_at};
ghost use Rattle.file_records.specs.Arranged.{IsArrangedBy};
ghost use Rattle.file_records.specs.Taken.{sides as sides_told};
ghost use Rattle.file_records.specs.declared.sides.Side as declared;
ghost use Rattle.file_records.specs.Carried as words;

use crate::arranged::sides_in;
use crate::carried::carried;
use crate::kept::lines_by_person;
use crate::sides::Side;
use import_definitions::Roots;
use record_kinds::{Child, Family, Partner};
use std::alloc::{AllocError, Global};
use std::collections::BTreeMap;

/// A member of a family, whose person may carry lines on the membership.
trait Member {
    ghost told: { List FileNode → (ℕ → Option ℕ) → Self → Self };

    /// Puts the lines below the person's side, by which line it is of each person.
    fn put_side(
        &mut self,
        alloc: Global,
        roots: &Roots<'_>,
        lines: &BTreeMap<usize, usize>,
    ) -> Result<(), AllocError>
        ensures { OnOk result (self.new ≡ told roots.now (words.line_kept lines.now) self.old) };
}

impl Member for Partner {
    ghost told = { words.partner_told };

    fn put_side(
        &mut self,
        alloc: Global,
        roots: &Roots<'_>,
        lines: &BTreeMap<usize, usize>,
    ) -> Result<(), AllocError> {
        self.carried_by_person = carried(alloc, roots, lines, self.person as usize)?;
        Ok(())
    }
}

impl Member for Child {
    ghost told = { words.child_told };

    fn put_side(
        &mut self,
        alloc: Global,
        roots: &Roots<'_>,
        lines: &BTreeMap<usize, usize>,
    ) -> Result<(), AllocError> {
        self.carried_by_person = carried(alloc, roots, lines, self.person as usize)?;
        Ok(())
    }
}

/// Puts the sides of all persons.
fn put_sides<M: Member>(
    alloc: Global,
    roots: &Roots<'_>,
    lines: &BTreeMap<usize, usize>,
    members: &mut [M],
) -> Result<(), AllocError>
    ensures { OnOk result (members.new ≡ map (M.told roots.now (words.line_kept lines.now)) members.old) }
{
    for member in members.iter_mut() {
        member.put_side(alloc, roots, lines)?;
    }
    Ok(())
}

/// Adds the persons whom the family does not name, as its last children.
fn add_late(
    alloc: Global,
    roots: &Roots<'_>,
    lines: &BTreeMap<usize, usize>,
    sides: &[Side],
    children: &mut Vec<Child>,
) -> Result<(), AllocError>
    requires few { words.AreFew sides.now }
    ensures { OnOk result (children.new.items ≡ children.old.items
        ++ map (words.late_told roots.now (words.line_kept lines.now)) (words.late_sides sides.now)) }
{
    for side in sides {
        add_if_late(alloc, roots, lines, side, children)?;
    }
    Ok(())
}

/// Adds the person of a side, where the family does not name the person.
fn add_if_late(
    alloc: Global,
    roots: &Roots<'_>,
    lines: &BTreeMap<usize, usize>,
    side: &Side,
    children: &mut Vec<Child>,
) -> Result<(), AllocError>
    requires { side.now.person < 2 ^ 32 }
    ensures { OnOk result (children.new.items ≡ children.old.items
        ++ words.late_told_if roots.now (words.line_kept lines.now) side.now) }
{
    if side.is_late {
        children.push(Child {
            person: side.person as u32,
            carried: Vec::new(alloc),
            carried_by_person: carried(alloc, roots, lines, side.person)?,
        })?;
    }
    Ok(())
}

/// Puts both sides into the family at a position, which was read from its own lines: what its persons carry, and as its
/// last children those whom it does not name. The sides are those of all persons, arranged by their families.
pub fn with_sides(
    alloc: Global,
    roots: &Roots<'_>,
    position: usize,
    sides: &[Side],
    family: &mut Family,
) -> Result<(), AllocError>
    requires few { length roots.now < 2 ^ 32 }
    requires sides { IsArrangedBy (λ (s : declared.Side). s.family) (sides_told roots.now) sides.now }
    requires kind { bytes_eq (tag_at (roots_in roots.now) position) (codes "FAM") ≡ true }
    requires read { family.old ≡ family_from (known (roots_in roots.now)) (lines_at (roots_in roots.now) position) }
    ensures { OnOk result (family.new ≡ family_with_sides (roots_in roots.now) position family.old) }
{
    let own = sides_in(sides, position);
    let lines = lines_by_person(alloc, own)?;
    put_sides(alloc, roots, &lines, &mut family.partners)?;
    put_sides(alloc, roots, &lines, &mut family.children)?;
    add_late(alloc, roots, &lines, own, &mut family.children)
}
