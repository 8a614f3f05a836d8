//! Families.

ghost use Rattle.std.specs.Prelude.{◌≡◌, ◌++◌, ◌∷◌, [], map, OnOk, string_bytes};
ghost use Rattle.record_shapes.specs.Shapes.{child_line, partner_line, partner_tag as tag_of_partnership};
ghost use Rattle.node_writing.specs.Pages.{page};
ghost use Rattle.node_writing.specs.Parts.{family_head};

use crate::lines::{push_carried, push_pointer};
use crate::named::Named;
use record_fields::Partnership;
use record_kinds::{Child, Family, Partner};
use std::alloc::{AllocError, Global};

/// The tag of a partner's line.
fn partner_tag(partnership: Partnership) -> &'static str
    ensures { result.now ≡ tag_of_partnership partnership }
{
    match partnership {
        Partnership::Husband => "HUSB",
        Partnership::Wife => "WIFE",
    }
}

/// Appends a partner.
fn push_partner<N: Named>(
    alloc: Global,
    out: &mut String,
    index: &N,
    partner: &Partner,
) -> Result<(), AllocError>
    ensures { OnOk result (string_bytes out.new ≡ string_bytes out.old
        ++ page (N.names index.now) 1 (partner_line partner.now ∷ [])) }
{
    let tag = partner_tag(partner.partnership);
    push_pointer(alloc, out, index, 1, tag, partner.person)?;
    push_carried(alloc, out, index, 2, &partner.carried)
}

/// Appends the partners, in the order of the family.
fn push_partners<N: Named>(
    alloc: Global,
    out: &mut String,
    index: &N,
    partners: &[Partner],
) -> Result<(), AllocError>
    ensures { OnOk result (string_bytes out.new ≡ string_bytes out.old
        ++ page (N.names index.now) 1 (map partner_line partners.now)) }
{
    'partners: for partner in partners {
        push_partner(alloc, out, index, partner)?;
    }
    Ok(())
}

/// Appends a child.
fn push_child<N: Named>(
    alloc: Global,
    out: &mut String,
    index: &N,
    child: &Child,
) -> Result<(), AllocError>
    ensures { OnOk result (string_bytes out.new ≡ string_bytes out.old
        ++ page (N.names index.now) 1 (child_line child.now ∷ [])) }
{
    push_pointer(alloc, out, index, 1, "CHIL", child.person)?;
    push_carried(alloc, out, index, 2, &child.carried)
}

/// Appends the children, in the order of the family.
fn push_children<N: Named>(
    alloc: Global,
    out: &mut String,
    index: &N,
    children: &[Child],
) -> Result<(), AllocError>
    ensures { OnOk result (string_bytes out.new ≡ string_bytes out.old
        ++ page (N.names index.now) 1 (map child_line children.now)) }
{
    'children: for child in children {
        push_child(alloc, out, index, child)?;
    }
    Ok(())
}

/// Appends the members of a family: what is below the family up to the events (GEDCOM 5.5.1, chapter 2, FAM_RECORD).
pub fn push_family<N: Named>(
    alloc: Global,
    out: &mut String,
    index: &N,
    family: &Family,
) -> Result<(), AllocError>
    ensures { OnOk result (string_bytes out.new ≡ string_bytes out.old
        ++ page (N.names index.now) 1 (family_head family.now)) }
{
    push_partners(alloc, out, index, &family.partners)?;
    push_children(alloc, out, index, &family.children)
}
