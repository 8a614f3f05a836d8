//! The commands on families.

ghost use Rattle.std.specs.Prelude.{◌≡◌, ◌==◌, ◌||◌, [], IfOk};
ghost use Rattle.archive_state.specs.Looks.{Agrees, CountsFailures, is_stop};
ghost use Rattle.archive_state.specs.Views.{On};
ghost use Rattle.record_kinds.specs.Model as model;
ghost use Rattle.command_checks.specs.Applied.{Plans};
ghost use Rattle.command_checks.specs.Checks as checks;
ghost use Rattle.command_checks.specs.Exact.{IsExact};
ghost use Rattle.archive_steps.specs.Steps as steps;

use crate::making::{creates, kept_if, replaces};
use archive_state::{Changes, View};
use command_checks::{family_at, person_at};
use record_fields::Partnership;
use record_kinds::{Child, Family, Partner, Record};
use record_text::RefusalKind;
use std::alloc::{AllocError, Global};

/// A new family.
pub(crate) fn new_family<V: View>(
    alloc: Global,
    view: &mut V,
    husband: Option<u32>,
    wife: Option<u32>,
) -> Result<Changes, RefusalKind>
    ensures decides { On V.View view.old view.new (λ c. Plans c result (steps.new_family c husband wife)) }
    ensures exact { On V.View view.old view.new (λ c. IfOk result (IsExact c)) }
    ensures counts { CountsFailures (V.failed view.old) (V.failed view.new) result }
{
    check_partner(alloc, view, husband)?;
    check_partner(alloc, view, wife)?;
    if is_same(husband, wife) {
        return Err(RefusalKind::SamePerson);
    }
    let family = plain_family(alloc, husband, wife)?;
    creates(alloc, view, Record::Family(family))
}

/// A further child of a family.

pub(crate) fn add_child<V: View>(
    alloc: Global,
    view: &mut V,
    number: u32,
    person: u32,
) -> Result<Changes, RefusalKind>
    ensures decides { On V.View view.old view.new (λ c. Plans c result (steps.add_child c number person)) }
    ensures exact { On V.View view.old view.new (λ c. IfOk result (IsExact c)) }
    ensures counts { CountsFailures (V.failed view.old) (V.failed view.new) result }
{
    let family = family_at(alloc, view, number)?;
    let family = kept_if(family, check_person(alloc, view, person))?;
    if is_partner(&family, person) || is_child(&family, person) {
        return Err(RefusalKind::AlreadyInFamily);
    }
    let family = with_child(alloc, family, person)?;
    replaces(alloc, view, number, Record::Family(family))
}

/// That a person stands at the number.
pub(crate) fn check_person<V: View>(
    alloc: Global,
    view: &mut V,
    number: u32,
) -> Result<(), RefusalKind>
    ensures decides { On V.View view.old view.new
        (λ c. Agrees is_stop result (checks.passed (checks.person_at c number))) }
    ensures counts { CountsFailures (V.failed view.old) (V.failed view.new) result }
{
    drop(person_at(alloc, view, number)?);
    Ok(())
}

/// That a person stands at the number, where there is one.
fn check_partner<V: View>(
    alloc: Global,
    view: &mut V,
    number: Option<u32>,
) -> Result<(), RefusalKind>
    ensures decides { On V.View view.old view.new
        (λ c. Agrees is_stop result (checks.passed (checks.each (checks.person_at c) number))) }
    ensures counts { CountsFailures (V.failed view.old) (V.failed view.new) result }
{
    let Some(number) = number else {
        return Ok(());
    };
    drop(person_at(alloc, view, number)?);
    Ok(())
}

/// Whether one person is given twice.
fn is_same(husband: Option<u32>, wife: Option<u32>) -> bool
    ensures { result ≡ steps.is_same husband wife }
{
    match (husband, wife) {
        (Some(husband), Some(wife)) => husband == wife,
        _ => false,
    }
}

/// A family of these partners.
fn plain_family(
    alloc: Global,
    husband: Option<u32>,
    wife: Option<u32>,
) -> Result<Family, AllocError>
    ensures { IfOk result
        (λ f. f ≡ record { partners = steps.plain_partners husband wife; children = []; carried = [] }) }
{
    let mut partners = Vec::new(alloc);
    if let Some(person) = husband {
        partners.push(plain_partner(alloc, Partnership::Husband, person))?;
    }
    if let Some(person) = wife {
        partners.push(plain_partner(alloc, Partnership::Wife, person))?;
    }
    Ok(Family {
        partners,
        children: Vec::new(alloc),
        carried: Vec::new(alloc),
    })
}

fn plain_partner(alloc: Global, partnership: Partnership, person: u32) -> Partner
    ensures { result ≡ record { partnership = partnership; person = person; carried = []; carried_by_person = [] } }
{
    Partner {
        partnership,
        person,
        carried: Vec::new(alloc),
        carried_by_person: Vec::new(alloc),
    }
}

fn is_partner(family: &Family, person: u32) -> bool
    ensures { result ≡ steps.is_partner person family.now }
{
    family.partners.iter().any(|p| p.person == person)
}

fn is_child(family: &Family, person: u32) -> bool
    ensures { result ≡ steps.is_child person family.now }
{
    family.children.iter().any(|c| c.person == person)
}

/// Adds a child after the others.
fn with_child(alloc: Global, family: Family, person: u32) -> Result<Family, AllocError>
    ensures { IfOk result (λ f. f ≡ steps.with_child person family) }
{
    let mut family = family;
    family.children.push(Child {
        person,
        carried: Vec::new(alloc),
        carried_by_person: Vec::new(alloc),
    })?;
    Ok(family)
}
