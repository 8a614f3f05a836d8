//! Partners and children of families.

ghost use Rattle.std.specs.Prelude.{◌≡◌, IfOk};
ghost use Rattle.memberships.specs.Members as members;

use record_fields::Partnership;
use record_kinds::{Child, Family, Partner};
use record_text::RefusalKind;
use std::alloc::{AllocError, Global};

/// The family with the person last among the partners. Refused if the person belongs to it (59).
pub fn with_partner(
    alloc: Global,
    family: Family,
    partnership: Partnership,
    person: u32,
) -> Result<Result<Family, RefusalKind>, AllocError>
    ensures { IfOk result (λ outcome. outcome ≡ members.with_partner partnership person family) }
{
    if is_partner(&family, person) || is_child(&family, person) {
        return Ok(Err(RefusalKind::AlreadyInFamily));
    }
    let mut family = family;
    family.partners.push(Partner {
        partnership,
        person,
        carried: Vec::new(alloc),
        carried_by_person: Vec::new(alloc),
    })?;
    Ok(Ok(family))
}

/// The family without that partner, and without what the membership carries on both sides (65: there is none).
pub fn without_partner(family: Family, person: u32) -> Result<Family, RefusalKind>
    ensures { result ≡ members.without_partner person family }
{
    if !is_partner(&family, person) {
        return Err(RefusalKind::NotMember);
    }
    let mut family = family;
    remove_partner(&mut family.partners, person);
    Ok(family)
}

/// The family without that child, and without what the membership carries on both sides (65: there is none).
pub fn without_child(family: Family, person: u32) -> Result<Family, RefusalKind>
    ensures { result ≡ members.without_child person family }
{
    if !is_child(&family, person) {
        return Err(RefusalKind::NotMember);
    }
    let mut family = family;
    remove_child(&mut family.children, person);
    Ok(family)
}

fn is_partner(family: &Family, person: u32) -> bool
    ensures { result ≡ members.is_partner person family.now }
{
    family.partners.iter().any(|p| p.person == person)
}

fn is_child(family: &Family, person: u32) -> bool
    ensures { result ≡ members.is_child person family.now }
{
    family.children.iter().any(|c| c.person == person)
}

fn remove_partner(partners: &mut Vec<Partner>, person: u32)
    ensures { partners.new.items ≡ members.other_partners person partners.old.items }
{
    partners.retain(|p| p.person != person);
}

fn remove_child(children: &mut Vec<Child>, person: u32)
    ensures { children.new.items ≡ members.other_children person children.old.items }
{
    children.retain(|c| c.person != person);
}
