//! Partners and children of families.

ghost use Rattle.std.specs.Prelude.{◌≡◌, ◌≢◌, IfErr, IfOk, Some, false};
ghost use Rattle.std.specs.FinMap as map;
ghost use Rattle.archive_state.specs.Looks.{Agrees, CountsFailures, is_failure, is_stop};
ghost use Rattle.archive_state.specs.Views.{On};
ghost use Rattle.command_checks.specs.Applied.{Plans};
ghost use Rattle.command_checks.specs.Exact.{IsExact};
ghost use Rattle.record_kinds.specs.declared.record.Record.TheVariants as kind;
ghost use Rattle.member_changes.specs.Steps as steps;

use archive_state::{Changes, View};
use command_checks::{family_at, person_at};
use memberships::{with_partner, without_child, without_partner};
use record_changes::{kept_if, replaces};
use record_fields::Partnership;
use record_kinds::{Family, Record};
use record_text::RefusalKind;
use std::alloc::Global;

/// The person becomes a partner of the family, last among its partners. Refused: a number that names nothing or
/// another kind of record (50, 51), first the family's and then the person's; a person who belongs to the family (59).
#[tactic(auto, using(crate::proofs::Refusing::partner_refuses))]
pub fn partner<V: View>(
    alloc: Global,
    view: &mut V,
    number: u32,
    partnership: Partnership,
    person: u32,
) -> Result<Changes, RefusalKind>
    ensures decides { On V.View view.old view.new
        (λ c. Plans c result (steps.partner c number partnership person)) }
    ensures exact { On V.View view.old view.new (λ c. IfOk result (IsExact c)) }
    ensures counts { CountsFailures (V.failed view.old) (V.failed view.new) result }
{
    let family = family_for(alloc, view, number, person)?;
    let changed = with_partner(alloc, family, partnership, person)?;
    put_family(alloc, view, number, changed)
}

/// The person is no partner of the family any more; what the membership carries goes too, on both sides. Refused: 50
/// and 51 as in `partner`; a person who is no partner there (65).
#[tactic(auto, using(crate::proofs::Refusing::unpartner_refuses))]
pub fn unpartner<V: View>(
    alloc: Global,
    view: &mut V,
    number: u32,
    person: u32,
) -> Result<Changes, RefusalKind>
    ensures decides { On V.View view.old view.new (λ c. Plans c result (steps.unpartner c number person)) }
    ensures exact { On V.View view.old view.new (λ c. IfOk result (IsExact c)) }
    ensures counts { CountsFailures (V.failed view.old) (V.failed view.new) result }
{
    let family = family_for(alloc, view, number, person)?;
    put_family(alloc, view, number, without_partner(family, person))
}

/// The person is no child of the family any more; what the membership carries goes too, on both sides. Refused: 50 and
/// 51 as in `partner`; a person who is no child there (65).
#[tactic(auto, using(crate::proofs::Refusing::unchild_refuses))]
pub fn unchild<V: View>(
    alloc: Global,
    view: &mut V,
    number: u32,
    person: u32,
) -> Result<Changes, RefusalKind>
    ensures decides { On V.View view.old view.new (λ c. Plans c result (steps.unchild c number person)) }
    ensures exact { On V.View view.old view.new (λ c. IfOk result (IsExact c)) }
    ensures counts { CountsFailures (V.failed view.old) (V.failed view.new) result }
{
    let family = family_for(alloc, view, number, person)?;
    put_family(alloc, view, number, without_child(family, person))
}

/// The family of a number, where the other number is that of a person.
fn family_for<V: View>(
    alloc: Global,
    view: &mut V,
    number: u32,
    person: u32,
) -> Result<Family, RefusalKind>
    ensures decides { On V.View view.old view.new (λ c. Agrees is_stop result (steps.family_for c number person)) }
    ensures counts { CountsFailures (V.failed view.old) (V.failed view.new) result }
{
    let family = family_at(alloc, view, number)?;
    kept_if(family, check_person(alloc, view, person))
}

/// That a person stands at the number.
fn check_person<V: View>(alloc: Global, view: &mut V, number: u32) -> Result<(), RefusalKind>
    ensures decides { On V.View view.old view.new
        (λ c. Agrees is_stop result (steps.person_passes c number)) }
    ensures counts { CountsFailures (V.failed view.old) (V.failed view.new) result }
{
    drop(person_at(alloc, view, number)?);
    Ok(())
}

/// The changes that put the family at its number, or why there is none to put: that is no failure of a look.
fn put_family<V: View>(
    alloc: Global,
    view: &mut V,
    number: u32,
    changed: Result<Family, RefusalKind>,
) -> Result<Changes, RefusalKind>
    requires own { IfErr changed (λ e. is_failure e ≡ false) }
    ensures decides { On V.View view.old view.new (λ c. Plans c result (steps.family_put c number changed)) }
    ensures exact { On V.View view.old view.new (λ c. IfOk result (λ changes.
        IfOk changed (λ f. map.get c.records number ≢ Some (kind.Family f)) → IsExact c changes)) }
    ensures counts { CountsFailures (V.failed view.old) (V.failed view.new) result }
{
    match changed {
        Ok(family) => replaces(alloc, view, number, Record::Family(family)),
        Err(e) => Err(e),
    }
}
