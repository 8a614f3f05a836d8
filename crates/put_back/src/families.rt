//! What is put back of a family: its members that are missing.

ghost use Rattle.std.specs.Prelude.{◌≡◌, ◌++◌, OnOk};
ghost use Rattle.std.specs.List.{flat_map, list_any};
ghost use Rattle.put_back.specs.Families as families;

use crate::row::{Row, push_cells};
use record_kinds::{Child, Family, Partner};
use std::alloc::{AllocError, Global};

pub(crate) fn push_family(
    alloc: Global,
    out: &mut Vec<Row>,
    number: u32,
    old: &Family,
    now: &Family,
) -> Result<(), AllocError>
    ensures { OnOk result (out.new.items ≡ out.old.items ++ families.family_back number old.now now.now) }
{
    push_partners(alloc, out, number, &old.partners, &now.partners)?;
    push_children(alloc, out, number, &old.children, &now.children)
}

fn push_partners(
    alloc: Global,
    out: &mut Vec<Row>,
    number: u32,
    old: &[Partner],
    now: &[Partner],
) -> Result<(), AllocError>
    ensures { OnOk result (out.new.items
        ≡ out.old.items ++ flat_map (families.partner_back number now.now) old.now) }
{
    'each: for partner in old {
        push_partner(alloc, out, number, partner, now)?;
    }
    Ok(())
}

fn push_partner(
    alloc: Global,
    out: &mut Vec<Row>,
    number: u32,
    old: &Partner,
    now: &[Partner],
) -> Result<(), AllocError>
    ensures { OnOk result (out.new.items ≡ out.old.items ++ families.partner_back number now.now old.now) }
{
    if has_partner(now, old.person) {
        return Ok(());
    }
    let family = number.to_string(alloc)?;
    let person = old.person.to_string(alloc)?;
    push_cells(
        alloc,
        out,
        &[
            "partner",
            family.as_str(),
            old.partnership.as_str(),
            person.as_str(),
        ],
    )
}

fn has_partner(partners: &[Partner], person: u32) -> bool
    ensures { result ≡ list_any (families.is_partner person) partners.now }
{
    partners.iter().any(|partner| partner.person == person)
}

fn push_children(
    alloc: Global,
    out: &mut Vec<Row>,
    number: u32,
    old: &[Child],
    now: &[Child],
) -> Result<(), AllocError>
    ensures { OnOk result (out.new.items ≡ out.old.items ++ flat_map (families.child_back number now.now) old.now) }
{
    'each: for child in old {
        push_child(alloc, out, number, child, now)?;
    }
    Ok(())
}

fn push_child(
    alloc: Global,
    out: &mut Vec<Row>,
    number: u32,
    old: &Child,
    now: &[Child],
) -> Result<(), AllocError>
    ensures { OnOk result (out.new.items ≡ out.old.items ++ families.child_back number now.now old.now) }
{
    if has_child(now, old.person) {
        return Ok(());
    }
    let family = number.to_string(alloc)?;
    let person = old.person.to_string(alloc)?;
    push_cells(alloc, out, &["child", family.as_str(), person.as_str()])
}

fn has_child(children: &[Child], person: u32) -> bool
    ensures { result ≡ list_any (families.is_child person) children.now }
{
    children.iter().any(|child| child.person == person)
}
