//! Participants of events.

ghost use Rattle.std.specs.Prelude.{◌≡◌, ◌≢◌, IfErr, IfOk, Some, false};
ghost use Rattle.std.specs.FinMap as map;
ghost use Rattle.archive_state.specs.Looks.{CountsFailures, is_failure};
ghost use Rattle.archive_state.specs.Views.{On};
ghost use Rattle.command_checks.specs.Applied.{Plans};
ghost use Rattle.command_checks.specs.Exact.{IsExact};
ghost use Rattle.record_kinds.specs.declared.record.Record.TheVariants as kind;
ghost use Rattle.member_changes.specs.Steps as steps;

use archive_state::{Changes, View};
use command_checks::event_at;
use memberships::without_participant;
use record_changes::replaces;
use record_kinds::{Event, Record};
use record_text::RefusalKind;
use std::alloc::Global;

/// The participant of a place in the list, from 1, is removed from the event, with what the line carries. Refused: a
/// number that names nothing or no event (50, 51); a place that the list has not (64).
#[tactic(auto, using(crate::proofs::Refusing::unparticipant_refuses))]
pub fn unparticipant<V: View>(
    alloc: Global,
    view: &mut V,
    number: u32,
    place: u32,
) -> Result<Changes, RefusalKind>
    ensures decides { On V.View view.old view.new (λ c. Plans c result (steps.unparticipant c number place)) }
    ensures exact { On V.View view.old view.new (λ c. IfOk result (IsExact c)) }
    ensures counts { CountsFailures (V.failed view.old) (V.failed view.new) result }
{
    let event = event_at(alloc, view, number)?;
    put_event(alloc, view, number, without_participant(event, place))
}

/// The changes that put the event at its number, or why there is none to put: that is no failure of a look.
fn put_event<V: View>(
    alloc: Global,
    view: &mut V,
    number: u32,
    changed: Result<Event, RefusalKind>,
) -> Result<Changes, RefusalKind>
    requires own { IfErr changed (λ e. is_failure e ≡ false) }
    ensures decides { On V.View view.old view.new (λ c. Plans c result (steps.event_put c number changed)) }
    ensures exact { On V.View view.old view.new (λ c. IfOk result (λ changes.
        IfOk changed (λ e. map.get c.records number ≢ Some (kind.Event e)) → IsExact c changes)) }
    ensures counts { CountsFailures (V.failed view.old) (V.failed view.new) result }
{
    match changed {
        Ok(event) => replaces(alloc, view, number, Record::Event(event)),
        Err(e) => Err(e),
    }
}
