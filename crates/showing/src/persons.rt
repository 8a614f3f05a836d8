//! The fields of persons and families.

ghost use Rattle.std.specs.Prelude.{◌≡◌, ◌++◌, OnOk, string_bytes};
ghost use Rattle.std.specs.List.{flat_map};
ghost use Rattle.showing.specs.Fields as fields;

use crate::fields::{push_below, push_number, push_text};
use record_fields::Sex;
use record_kinds::{Child, Family, Name, Partner, Person};
use std::alloc::{AllocError, Global};

pub(crate) fn push_person(
    alloc: Global,
    out: &mut String,
    person: &Person,
) -> Result<(), AllocError>
    ensures { OnOk result (string_bytes out.new ≡ string_bytes out.old ++ fields.person_fields person.now) }
{
    push_names(alloc, out, &person.names)?;
    push_sex(out, person.sex)?;
    push_below(alloc, out, 1, &person.carried)
}

fn push_names(alloc: Global, out: &mut String, names: &[Name]) -> Result<(), AllocError>
    ensures { OnOk result (string_bytes out.new ≡ string_bytes out.old ++ flat_map fields.name_field names.now) }
{
    'each: for name in names {
        push_name(alloc, out, name)?;
    }
    Ok(())
}

fn push_name(alloc: Global, out: &mut String, name: &Name) -> Result<(), AllocError>
    ensures { OnOk result (string_bytes out.new ≡ string_bytes out.old ++ fields.name_field name.now) }
{
    push_text(out, "name", name.text.as_str())?;
    push_below(alloc, out, 2, &name.carried)
}

fn push_sex(out: &mut String, sex: Option<Sex>) -> Result<(), AllocError>
    ensures { OnOk result (string_bytes out.new ≡ string_bytes out.old ++ fields.sex_field sex) }
{
    match sex {
        None => Ok(()),
        Some(sex) => push_text(out, "sex", sex.as_str()),
    }
}

pub(crate) fn push_family(
    alloc: Global,
    out: &mut String,
    family: &Family,
) -> Result<(), AllocError>
    ensures { OnOk result (string_bytes out.new ≡ string_bytes out.old ++ fields.family_fields family.now) }
{
    push_partners(alloc, out, &family.partners)?;
    push_children(alloc, out, &family.children)?;
    push_below(alloc, out, 1, &family.carried)
}

fn push_partners(alloc: Global, out: &mut String, partners: &[Partner]) -> Result<(), AllocError>
    ensures { OnOk result (string_bytes out.new ≡ string_bytes out.old ++ flat_map fields.partner_field partners.now) }
{
    'each: for partner in partners {
        push_partner(alloc, out, partner)?;
    }
    Ok(())
}

fn push_partner(alloc: Global, out: &mut String, partner: &Partner) -> Result<(), AllocError>
    ensures { OnOk result (string_bytes out.new ≡ string_bytes out.old ++ fields.partner_field partner.now) }
{
    push_number(out, partner.partnership.as_str(), partner.person)?;
    push_below(alloc, out, 2, &partner.carried)?;
    push_below(alloc, out, 2, &partner.carried_by_person)
}

fn push_children(alloc: Global, out: &mut String, children: &[Child]) -> Result<(), AllocError>
    ensures { OnOk result (string_bytes out.new ≡ string_bytes out.old ++ flat_map fields.child_field children.now) }
{
    'each: for child in children {
        push_child(alloc, out, child)?;
    }
    Ok(())
}

fn push_child(alloc: Global, out: &mut String, child: &Child) -> Result<(), AllocError>
    ensures { OnOk result (string_bytes out.new ≡ string_bytes out.old ++ fields.child_field child.now) }
{
    push_number(out, "child", child.person)?;
    push_below(alloc, out, 2, &child.carried)?;
    push_below(alloc, out, 2, &child.carried_by_person)
}
