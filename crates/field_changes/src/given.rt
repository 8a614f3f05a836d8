//! The correction that a request gives.

ghost use Rattle.std.specs.Prelude.{◌≡◌, IfErr, false};
ghost use Rattle.archive_state.specs.Looks.{Agrees, CountsFailures, is_failure, is_stop};
ghost use Rattle.archive_state.specs.Views.{On};
ghost use Rattle.field_changes.specs.Steps as steps;

use archive_state::View;
use command_checks::{Demand, check_optional, check_place, date_in, text_in};
use commands::GivenValue;
use corrections::Correction;
use record_text::RefusalKind;
use std::alloc::Global;

/// The correction that is given (58: its words are no text).
pub(crate) fn correction_in(alloc: Global, value: &GivenValue) -> Result<Correction, RefusalKind>
    ensures decides { Agrees is_stop result (steps.correction_in value.now) }
    ensures memory { IfErr result (λ e. is_failure e ≡ false) }
{
    match value {
        GivenValue::Sex(sex) => Ok(Correction::Sex(*sex)),
        GivenValue::Date(date) => Ok(Correction::Date(date_in(alloc, date)?)),
        GivenValue::Place(number) => Ok(Correction::Place(*number)),
        GivenValue::Repository(number) => Ok(Correction::Repository(*number)),
        GivenValue::Quality(quality) => Ok(Correction::Quality(*quality)),
        GivenValue::Item(item) => Ok(Correction::Item(*item)),
        GivenValue::Text(field, words) => Ok(Correction::Text(*field, text_in(alloc, words)?)),
    }
}

/// That the number of a place or a repository names one (50, 51).
pub(crate) fn check_named<V: View>(
    alloc: Global,
    view: &mut V,
    value: &GivenValue,
) -> Result<(), RefusalKind>
    ensures decides { On V.View view.old view.new (λ c. Agrees is_stop result (steps.named c value.now)) }
    ensures counts { CountsFailures (V.failed view.old) (V.failed view.new) result }
{
    match value {
        GivenValue::Place(number) => check_optional(alloc, view, Demand::Place, *number),
        GivenValue::Repository(number) => check_optional(alloc, view, Demand::Repo, *number),
        _ => Ok(()),
    }
}

/// That the path of a place has a part that is not empty (58).
pub(crate) fn check_said<V: View>(
    alloc: Global,
    view: &mut V,
    value: &GivenValue,
) -> Result<(), RefusalKind>
    ensures decides { On V.View view.old view.new (λ c. Agrees is_stop result (steps.said c value.now)) }
    ensures counts { CountsFailures (V.failed view.old) (V.failed view.new) result }
{
    match value {
        GivenValue::Place(number) => check_place(alloc, view, *number),
        _ => Ok(()),
    }
}
