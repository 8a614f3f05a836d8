//! The command that takes a record out.

ghost use Rattle.std.specs.Prelude.{◌≡◌, ◌==◌, not, IfOk};
ghost use Rattle.std.specs.List.{list_any};
ghost use Rattle.record_text.specs.declared.refusal.RefusalKind.TheVariants.{StillNamed};
ghost use Rattle.archive_state.specs.Looks.{Agrees, CountsFailures, is_stop};
ghost use Rattle.archive_state.specs.Views.{On};
ghost use Rattle.command_checks.specs.Applied.{Plans};
ghost use Rattle.command_checks.specs.Checks as checks;
ghost use Rattle.command_checks.specs.Exact.{IsExact};
ghost use Rattle.archive_steps.specs.Steps as steps;

use crate::making::removes;
use archive_state::{Changes, View};
use record_kinds::Record;
use record_text::RefusalKind;
use std::alloc::Global;

/// The record of a number is removed, where no other names it.
pub(crate) fn remove_record<V: View>(
    alloc: Global,
    view: &mut V,
    number: u32,
) -> Result<Changes, RefusalKind>
    ensures decides { On V.View view.old view.new (λ c. Plans c result (steps.remove_record c number)) }
    ensures exact { On V.View view.old view.new (λ c. IfOk result (IsExact c)) }
    ensures counts { CountsFailures (V.failed view.old) (V.failed view.new) result }
{
    check_record(alloc, view, number)?;
    check_unnamed(alloc, view, number)?;
    removes(alloc, view, number)
}

/// That a record stands at the number.
fn check_record<V: View>(alloc: Global, view: &mut V, number: u32) -> Result<(), RefusalKind>
    ensures decides { On V.View view.old view.new (λ c. Agrees is_stop result (checks.record_at c number)) }
    ensures counts { CountsFailures (V.failed view.old) (V.failed view.new) result }
{
    record_in(view.record_at(alloc, number)?)
}

fn record_in(found: Option<Record>) -> Result<(), RefusalKind>
    ensures { result ≡ checks.record_in found }
{
    let Some(record) = found else {
        return Err(RefusalKind::NoSuch);
    };
    drop(record);
    Ok(())
}

/// That no other record names the number.
fn check_unnamed<V: View>(alloc: Global, view: &mut V, number: u32) -> Result<(), RefusalKind>
    ensures decides { On V.View view.old view.new
        (λ c. Agrees is_stop result (checks.need (not (checks.is_named c number)) StillNamed)) }
    ensures counts { CountsFailures (V.failed view.old) (V.failed view.new) result }
{
    let referrers = view.referrers(alloc, number)?;
    if has_other(referrers.as_slice(), number) {
        Err(RefusalKind::StillNamed)
    } else {
        Ok(())
    }
}

fn has_other(numbers: &[u32], number: u32) -> bool
    ensures { result ≡ list_any (λ k. not (k == number)) numbers.now }
{
    numbers.iter().any(|k| !(*k == number))
}
