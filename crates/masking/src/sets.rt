//! Numbers added to a set.

ghost use Rattle.std.specs.Prelude.{◌≡◌, ◌==◌, IsTrue, OnOk, true};
ghost use Rattle.std.specs.List.{list_any};
ghost use Rattle.record_kinds.specs.Model as model;
ghost use Rattle.masking.specs.Life.{buries, is_partner};
ghost use Rattle.masking.specs.Sets.{Gets};

use record_fields::Role;
use record_kinds::{Family, Mention, Partner};
use std::alloc::AllocError;
use std::collections::BTreeSet;

/// Adds a number.
pub(crate) fn add(number: u32, numbers: &mut BTreeSet<u32>) -> Result<(), AllocError>
    ensures { OnOk result (Gets numbers.old numbers.new (λ n. number ≡ n)) }
{
    numbers.insert(number)?;
    Ok(())
}

/// Adds a number where the test holds.
pub(crate) fn add_if(test: bool, number: u32, numbers: &mut BTreeSet<u32>) -> Result<(), AllocError>
    ensures { OnOk result (Gets numbers.old numbers.new (λ n. IsTrue test × (number ≡ n))) }
{
    if test { add(number, numbers) } else { Ok(()) }
}

/// Adds the partners of a family.
pub(crate) fn add_partners_of(
    family: &Family,
    numbers: &mut BTreeSet<u32>,
) -> Result<(), AllocError>
    ensures { OnOk result (Gets numbers.old numbers.new (λ n. is_partner n family.now ≡ true)) }
{
    add_partners(&family.partners, numbers)
}

/// Adds the persons that partners are.
fn add_partners(partners: &[Partner], numbers: &mut BTreeSet<u32>) -> Result<(), AllocError>
    ensures { OnOk result (Gets numbers.old numbers.new
        (λ n. list_any (λ (p : model.Partner). p.person == n) partners.now ≡ true)) }
{
    'partners: for partner in partners {
        add(partner.person, numbers)?;
    }
    Ok(())
}

/// Adds the persons that mentions are linked to as the one who is buried.
pub(crate) fn add_buried(
    mentions: &[Mention],
    numbers: &mut BTreeSet<u32>,
) -> Result<(), AllocError>
    ensures { OnOk result (Gets numbers.old numbers.new (λ n. list_any (buries n) mentions.now ≡ true)) }
{
    'mentions: for mention in mentions {
        add_buried_in(mention, numbers)?;
    }
    Ok(())
}

/// Adds the person that one mention is linked to so.
fn add_buried_in(mention: &Mention, numbers: &mut BTreeSet<u32>) -> Result<(), AllocError>
    ensures { OnOk result (Gets numbers.old numbers.new (λ n. buries n mention.now ≡ true)) }
{
    match (mention.role, &mention.link) {
        (Role::Buried, Some(link)) => add(link.person, numbers),
        _ => Ok(()),
    }
}
